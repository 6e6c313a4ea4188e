// Stops that a price elects join the end of the line.
ghost use Rattle.std.specs.Prelude.{◌≡◌, ◌+◌, ◌≤◌, [], ◌∷◌, ◌++◌, length, if◌then◌else◌};
ghost use Rattle.market.specs.declared.words.Place.TheVariants.{Line as InLine};
ghost use Rattle.market.specs.Orders.{put};
ghost use Rattle.replay.specs.Rolls.{look, alter};
ghost use Rattle.replay.specs.Moves.{elect};
ghost use Rattle.replay.specs.Runs.{elect_at};
ghost use Rattle.trading.specs.Boards.{orders_of, waiting_of};
ghost use Rattle.trading.specs.Tapes.{written, HasRoom, Grew};
ghost use Rattle.trading.specs.Shows.{Carries, Beside, filed_of, may_print};

use crate::board::Board;
use crate::board::tape::Tape;
use market::words::{Place, TapeLine};
use stops::stop_file::StopFile;

impl Board {
    // Whether the order of a number is in the stop file.
    pub(crate) fn is_filed(&self, number: u32) -> bool
        ensures { result ≡ filed_of (look number (orders_of self.now)) }
    {
        self.book
            .get(number)
            .is_some_and(|order| order.place == Place::StopFile)
    }

    // A filed stop joins the end of the line. Any other order stays where it is, and the answer is no.
    fn call_up(&mut self, number: u32) -> bool
        ensures answer { result ≡ filed_of (look number (orders_of self.old)) }
        ensures roll { orders_of self.new ≡ (if result then alter number (put InLine) (orders_of self.old) else orders_of self.old) }
        ensures line { waiting_of self.new ≡ (if result then waiting_of self.old ++ number ∷ [] else waiting_of self.old) }
        ensures beside { Beside self.old self.new }
    {
        if !self.is_filed(number) {
            return false;
        }
        self.book.put(number, Place::Line);
        self.line.join(number);
        true
    }

    // Takes elected stops as long as there are any. Each is told of on the tape and waits behind the others.
    #[tactic(auto, using(crate::proofs::Electing::one_fewer, crate::proofs::Electing::none_fewer))]
    pub(crate) fn elect<F: StopFile>(&mut self, file: &mut F, price: u32, tape: &mut Tape)
        requires { HasRoom (length (F.StopFile.stops file.old)) tape.old }
        ensures used { tape.new.used + length (F.StopFile.stops file.new) ≤ tape.old.used + length (F.StopFile.stops file.old) }
        ensures bound { tape.new.used + may_print self.new (F.StopFile.stops file.new) ≤ tape.old.used + may_print self.old (F.StopFile.stops file.old) }
        ensures few { length (waiting_of self.new) + length (F.StopFile.stops file.new) ≤ length (waiting_of self.old) + length (F.StopFile.stops file.old) }
        ensures beside { Beside self.old self.new }
        ensures keeps { F.StopFile.room file.new ≡ F.StopFile.room file.old }
        ensures day { Carries self.old (F.StopFile.stops file.old) (written tape.old) self.new (F.StopFile.stops file.new) (written tape.new) (elect price) }
        ensures grew { Grew tape.old tape.new }
    {
        while let Some(stop) = file.take_at(price) {
            if self.call_up(stop.number) {
                tape.write(TapeLine::Elect { order: stop.number });
            }
        }
    }

    // The same at the price of a print, if there was one.
    pub(crate) fn elect_at<F: StopFile>(
        &mut self,
        file: &mut F,
        price: Option<u32>,
        tape: &mut Tape,
    )
        requires { HasRoom (length (F.StopFile.stops file.old)) tape.old }
        ensures used { tape.new.used + length (F.StopFile.stops file.new) ≤ tape.old.used + length (F.StopFile.stops file.old) }
        ensures bound { tape.new.used + may_print self.new (F.StopFile.stops file.new) ≤ tape.old.used + may_print self.old (F.StopFile.stops file.old) }
        ensures few { length (waiting_of self.new) + length (F.StopFile.stops file.new) ≤ length (waiting_of self.old) + length (F.StopFile.stops file.old) }
        ensures beside { Beside self.old self.new }
        ensures keeps { F.StopFile.room file.new ≡ F.StopFile.room file.old }
        ensures day { Carries self.old (F.StopFile.stops file.old) (written tape.old) self.new (F.StopFile.stops file.new) (written tape.new) (elect_at price) }
        ensures grew { Grew tape.old tape.new }
    {
        if let Some(price) = price {
            self.elect(file, price, tape);
        }
    }
}
