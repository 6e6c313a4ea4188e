// The line is worked off: while trading is not paused and somebody waits, the first in line runs.
ghost use Rattle.std.specs.Prelude.{◌≡◌, ◌+◌, ◌<◌, ◌≤◌, true, ◌⊎◌, List, length, Some};
ghost use Rattle.market.specs.declared.words.TapeLine.{TapeLine as TapeLines};
ghost use Rattle.replay.specs.Rolls.{look};
ghost use Rattle.replay.specs.Runs.{centre_if, run_of, work};
ghost use Rattle.trading.specs.Waiting.{first_of};
ghost use Rattle.trading.specs.Boards.{waiting_of};
ghost use Rattle.trading.specs.Tapes.{written, HasRoom, Grew};
ghost use Rattle.trading.specs.Shows.{Does, Carries, may_print, up_next};

use crate::board::Board;
use crate::board::tape::Tape;
use market::words::Range;
use sharing::rule::ShareOut;
use stops::stop_file::StopFile;

impl Board {
    // Where none is in force, the first run that prints sets the range once it is over.
    fn centre_first(&mut self, before: Option<Range>, first: Option<u32>)
        ensures { (ls : List TapeLines) → Does self.old ls self.new ls (centre_if before first) }
    {
        if before.is_none() && first.is_some() {
            self.centre();
        }
    }

    // The first in line runs: it prints, its residual is settled, and then each print elects, in turn. Prints want no stop file, and
    // elections no rule, so that these are no struct with the tape.
    fn run<R: ShareOut, F: StopFile>(
        &mut self,
        rule: &R,
        file: &mut F,
        number: u32,
        tape: &mut Tape,
    )
        requires first { first_of (waiting_of self.old) ≡ Some number }
        requires room { HasRoom (may_print self.old (F.StopFile.stops file.old)) tape.old }
        ensures bound { (self.new.paused ≡ true) ⊎ (tape.new.used + may_print self.new (F.StopFile.stops file.new) ≤ tape.old.used + may_print self.old (F.StopFile.stops file.old)) }
        ensures less { (self.new.paused ≡ true) ⊎ (length (waiting_of self.new) + length (F.StopFile.stops file.new) < length (waiting_of self.old) + length (F.StopFile.stops file.old)) }
        ensures keeps { F.StopFile.room file.new ≡ F.StopFile.room file.old }
        ensures day { Carries self.old (F.StopFile.stops file.old) (written tape.old) self.new (F.StopFile.stops file.new) (written tape.new) (λ d. run_of (R.ShareOut.gifts rule.now) number (look number d.roll) d) }
        ensures grew { Grew tape.old tape.new }
    {
        let order = self.book.get(number).unwrap();
        let range = self.range;
        let prints = self.prints(rule, &order, tape);
        self.settle(&order, tape);
        self.elect_at(file, prints.first, tape);
        self.elect_at(file, prints.second, tape);
        self.centre_first(range, prints.first);
    }

    // Who runs next.
    fn up_next(&self) -> Option<u32>
        ensures { result ≡ up_next self.now.paused (waiting_of self.now) }
    {
        if self.paused {
            return None;
        }
        self.line.first()
    }

    // Each turn pauses trading or leaves fewer in line and file together.
    pub(crate) fn work<R: ShareOut, F: StopFile>(&mut self, rule: &R, file: &mut F, tape: &mut Tape)
        requires { HasRoom (may_print self.old (F.StopFile.stops file.old)) tape.old }
        ensures keeps { F.StopFile.room file.new ≡ F.StopFile.room file.old }
        ensures day { Carries self.old (F.StopFile.stops file.old) (written tape.old) self.new (F.StopFile.stops file.new) (written tape.new) (work (R.ShareOut.gifts rule.now)) }
        ensures grew { Grew tape.old tape.new }
    {
        while let Some(number) = self.up_next() {
            self.run(rule, file, number, tape);
        }
    }
}
