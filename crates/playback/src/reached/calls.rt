// The calls that are put to a day, and the questions.
ghost use Rattle.std.specs.Prelude.{◌≡◌, ◌≤◌, List, OnErr, length, take};
ghost use Rattle.replay.specs.Days.{Call as DayCall, new_day};
ghost use Rattle.trading.specs.Boards.{day_of};
ghost use Rattle.trading.specs.Deeds.{Did};
ghost use Rattle.playback.specs.Phases.{phase_of};
ghost use Rattle.playback.specs.Replies.{answer_of, lines_of};
ghost use Rattle.playback.specs.Stages.{call_of};
ghost use Rattle.playback.specs.Reached.{Reached, Went, Unaltered};
ghost use Rattle.playback.specs.ReachedDays.{day_at, board_at, rule_at, file_at};
ghost use Rattle.playback.specs.Sums.{Adds};

use crate::call::Call;
use crate::phase::Phase;
use crate::reached::ReachedDay;
use crate::reply::{CallRefusal, Reply};
use crate::stage::Stage;
use market::words::TapeLine;
use sharing::rule::ShareOut;
use stops::stop_file::StopFile;
use trading::board::Board;
use trading::loading;

impl<R: ShareOut, F: StopFile> ReachedDay<R, F> {
    // A new day with a rule and a stop file, which is emptied.
    pub fn begin(rule: R, file: F) -> ReachedDay<R, F>
        ensures day { day_at result ≡ new_day }
        ensures keeps { (F.StopFile.room (file_at result) ≡ F.StopFile.room file) × (rule_at result ≡ rule) }
    {
        ReachedDay {
            stage: Stage::Load(loading::begin(rule, file)),
        }
    }

    // What questions may be put to: their answers are those of the day that calls have reached.
    pub fn board(&self) -> &Board
        ensures board { result.now ≡ board_at self.now }
        ensures day { day_of (day_at self.now).phase result.now ≡ day_at self.now }
    {
        self.stage.board()
    }

    pub fn phase(&self) -> Phase
        ensures { phase_of result ≡ (day_at self.now).phase }
    {
        self.stage.phase()
    }

    // Puts any call to the day, with free lines of the tape. A call that is refused alters nothing.
    pub fn put(&mut self, call: Call, lines: &mut [TapeLine]) -> Result<Reply, CallRefusal>
        ensures did { Did (R.ShareOut.gifts (rule_at self.old)) (F.StopFile.room (file_at self.old)) (day_at self.old) (call_of (length lines.old) call) (answer_of result) (day_at self.new) (F.StopFile.stops (file_at self.new)) lines.old lines.new }
        ensures went { (cs : List DayCall) → Reached (R.ShareOut.gifts (rule_at self.old)) (F.StopFile.room (file_at self.old)) cs (day_at self.old) → Went (R.ShareOut.gifts (rule_at self.old)) (F.StopFile.room (file_at self.old)) cs (call_of (length lines.old) call) (answer_of result) (day_at self.new) lines.old lines.new }
        ensures sums { Adds (day_at self.old) (day_at self.new) (call_of (length lines.old) call) (answer_of result) (take (lines_of result) lines.new) }
        ensures within { lines_of result ≤ length lines.new }
        ensures refused { OnErr result (Unaltered (day_at self.old) (day_at self.new) (F.StopFile.stops (file_at self.old)) (F.StopFile.stops (file_at self.new)) lines.old lines.new) }
        ensures keeps { (F.StopFile.room (file_at self.new) ≡ F.StopFile.room (file_at self.old)) × (rule_at self.new ≡ rule_at self.old) }
    {
        self.stage.put(call, lines)
    }
}
