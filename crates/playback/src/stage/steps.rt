// A call is put to a day; one of another phase is refused.
ghost use Rattle.std.specs.Prelude.{◌≡◌, ℕ, List, [], length, IfSome, IfNone};
ghost use Rattle.market.specs.declared.words.TapeLine.{TapeLine};
ghost use Rattle.replay.specs.Days.{Loading, Trading, Closed, Done};
ghost use Rattle.trading.specs.Boards.{day_of};
ghost use Rattle.trading.specs.Deeds.{Did};
ghost use Rattle.playback.specs.declared.call.Call.{Call};
ghost use Rattle.playback.specs.declared.call.Call.TheVariants.{Open, Close};
ghost use Rattle.playback.specs.Replies.{answer_of};
ghost use Rattle.playback.specs.Phases.{phase_of};
ghost use Rattle.playback.specs.Stages.{call_of, day_in, board_in, rule_in, file_in, LeadsOn, Unmoved};

use crate::call::Call;
use crate::phase::Phase;
use crate::reply::{CallRefusal, Reply};
use crate::stage::Stage;
use core::mem::replace_with;
use market::words::TapeLine;
use sharing::rule::ShareOut;
use stops::stop_file::StopFile;
use trading::board::Board;
use trading::day::{LoadingDay, TradingDay};

// A call on a loading day that stays one.
fn load<R: ShareOut, F: StopFile>(
    day: &mut LoadingDay<R, F>,
    call: Call,
) -> Result<Reply, CallRefusal>
    requires { call ≡ Open → ⊥ }
    ensures did { (free : ℕ) → Did (R.ShareOut.gifts day.old.rule) (F.StopFile.room day.old.file) (day_of Loading day.old.board) (call_of free call) (answer_of result) (day_of Loading day.new.board) (F.StopFile.stops day.new.file) [] [] }
    ensures keeps { (F.StopFile.room day.new.file ≡ F.StopFile.room day.old.file) × (day.new.rule ≡ day.old.rule) }
{
    match call {
        Call::Set {
            class,
            column,
            last_sale,
        } => {
            day.set(class, column, last_sale)?;
            Ok(Reply::Done)
        }
        Call::LoadLimit(order) => Ok(Reply::Number(day.load_limit(order)?)),
        Call::LoadStop(order) => Ok(Reply::Number(day.load_stop(order)?)),
        Call::Open
        | Call::Enter(_)
        | Call::Cancel { .. }
        | Call::FloorTrade { .. }
        | Call::Resume
        | Call::Close => Err(CallRefusal::OtherPhase),
    }
}

// A call on a trading day that stays one.
fn trade<R: ShareOut, F: StopFile>(
    day: &mut TradingDay<R, F>,
    call: Call,
    tape: &mut [TapeLine],
) -> Result<Reply, CallRefusal>
    requires { call ≡ Close → ⊥ }
    ensures did { Did (R.ShareOut.gifts day.old.rule) (F.StopFile.room day.old.file) (day_of Trading day.old.board) (call_of (length tape.old) call) (answer_of result) (day_of Trading day.new.board) (F.StopFile.stops day.new.file) tape.old tape.new }
    ensures keeps { (F.StopFile.room day.new.file ≡ F.StopFile.room day.old.file) × (day.new.rule ≡ day.old.rule) }
{
    match call {
        Call::Enter(ticket) => Ok(Reply::Entered(day.enter(ticket, tape)?)),
        Call::Cancel { member, number } => Ok(Reply::Lines(day.cancel(member, number, tape)?)),
        Call::FloorTrade { price, shares } => {
            Ok(Reply::Lines(day.floor_trade(price, shares, tape)?))
        }
        Call::Resume => Ok(Reply::Lines(day.resume(tape)?)),
        Call::Close | Call::Set { .. } | Call::LoadLimit(_) | Call::LoadStop(_) | Call::Open => Err(
            CallRefusal::OtherPhase,
        ),
    }
}

impl<R: ShareOut, F: StopFile> Stage<R, F> {
    // The board of the day.
    pub(crate) fn board(&self) -> &Board
        ensures { result.now ≡ board_in self.now }
    {
        match self {
            Stage::Load(day) => day.board(),
            Stage::Trade(day) => day.board(),
            Stage::Shut(day) => day.board(),
        }
    }

    pub(crate) fn phase(&self) -> Phase
        ensures { phase_of result ≡ (day_in self.now).phase }
    {
        match self {
            Stage::Load(_) => Phase::Loading,
            Stage::Trade(_) => Phase::Trading,
            Stage::Shut(_) => Phase::Closed,
        }
    }

    // A call that leaves the day in its phase. One that leads to the next alters nothing and has no reply yet.
    fn put_within(
        &mut self,
        call: Call,
        tape: &mut [TapeLine],
    ) -> Option<Result<Reply, CallRefusal>>
        ensures did { IfSome result (λ r. Did (R.ShareOut.gifts (rule_in self.old)) (F.StopFile.room (file_in self.old)) (day_in self.old) (call_of (length tape.old) call) (answer_of r) (day_in self.new) (F.StopFile.stops (file_in self.new)) tape.old tape.new) }
        ensures leads_on { IfNone result (Unmoved call self.old self.new tape.old tape.new) }
        ensures keeps { (F.StopFile.room (file_in self.new) ≡ F.StopFile.room (file_in self.old)) × (rule_in self.new ≡ rule_in self.old) }
    {
        match self {
            Stage::Load(day) => match call {
                Call::Open => None,
                _ => Some(load(day, call)),
            },
            Stage::Trade(day) => match call {
                Call::Close => None,
                _ => Some(trade(day, call, tape)),
            },
            Stage::Shut(_) => Some(Err(CallRefusal::OtherPhase)),
        }
    }

    // The day in its next phase: the call that leads there is performed. A closed day stays as it is.
    fn moved(self) -> Stage<R, F>
        ensures did { (call : Call) (ls : List TapeLine) → LeadsOn call self → Did (R.ShareOut.gifts (rule_in self)) (F.StopFile.room (file_in self)) (day_in self) (call_of (length ls) call) Done (day_in result) (F.StopFile.stops (file_in result)) ls ls }
        ensures stays { (day_in self).phase ≡ Closed → result ≡ self }
        ensures keeps { (F.StopFile.room (file_in result) ≡ F.StopFile.room (file_in self)) × (rule_in result ≡ rule_in self) }
    {
        match self {
            Stage::Load(day) => Stage::Trade(day.open()),
            Stage::Trade(day) => Stage::Shut(day.close()),
            Stage::Shut(day) => Stage::Shut(day),
        }
    }

    // Puts a call to the day in place, as a day is large, whatever phase it leads to.
    pub(crate) fn put(&mut self, call: Call, tape: &mut [TapeLine]) -> Result<Reply, CallRefusal>
        ensures did { Did (R.ShareOut.gifts (rule_in self.old)) (F.StopFile.room (file_in self.old)) (day_in self.old) (call_of (length tape.old) call) (answer_of result) (day_in self.new) (F.StopFile.stops (file_in self.new)) tape.old tape.new }
        ensures keeps { (F.StopFile.room (file_in self.new) ≡ F.StopFile.room (file_in self.old)) × (rule_in self.new ≡ rule_in self.old) }
    {
        match self.put_within(call, tape) {
            Some(reply) => reply,
            None => {
                replace_with(self, (), |old: Stage<R, F>, _unused: ()| (old.moved(), ()));
                Ok(Reply::Done)
            }
        }
    }
}
