// The calls of a trading day. Each is lent free lines of the tape, writes from the first and leaves the others. That it keeps rule and
// capacity is each call's own promise; a struct of price and shares of a floor trade would be made at
// one call and taken apart in the next.
ghost use Rattle.std.specs.Prelude.{◌≡◌, [], length, OnErr};
ghost use Rattle.replay.specs.Days as days;
ghost use Rattle.replay.specs.Days.{CancelOrder, FloorTrade, Resume, Close, Done};
ghost use Rattle.trading.specs.Boards.{day_of};
ghost use Rattle.trading.specs.Deeds.{Did, Unaltered, when_entered, when_written, entering};

use crate::answer::Receipt;
use crate::day::{Closed, ClosedDay, Day, WhileOpen};
use crate::filing::file_stop;
use market::refusal::Refusal;
use market::words::TapeLine;
use orderbook::ticket::Ticket;
use sharing::rule::ShareOut;
use stops::stop_file::StopFile;

impl<P: WhileOpen, R: ShareOut, F: StopFile> Day<P, R, F> {
    // A limit, market, immediate-or-cancel or stop order comes in.
    pub fn enter(&mut self, ticket: Ticket, tape: &mut [TapeLine]) -> Result<Receipt, Refusal>
        ensures did { Did (R.ShareOut.gifts self.old.rule) (F.StopFile.room self.old.file) (day_of days.Trading self.old.board) (entering ticket (length tape.old)) (when_entered result) (day_of days.Trading self.new.board) (F.StopFile.stops self.new.file) tape.old tape.new }
        ensures refused { OnErr result (Unaltered self.old.board self.new.board (F.StopFile.stops self.old.file) (F.StopFile.stops self.new.file) tape.old tape.new) }
        ensures keeps { (F.StopFile.room self.new.file ≡ F.StopFile.room self.old.file) × (self.new.rule ≡ self.old.rule) }
    {
        self.board.check_enter(&ticket, self.space(tape.len()))?;
        file_stop(&mut self.file, &self.board, &ticket)?;
        Ok(self.board.enter(&self.rule, &mut self.file, ticket, tape))
    }

    // All open shares of a member's order are cancelled.
    pub fn cancel(
        &mut self,
        member: u32,
        number: u32,
        tape: &mut [TapeLine],
    ) -> Result<usize, Refusal>
        ensures did { Did (R.ShareOut.gifts self.old.rule) (F.StopFile.room self.old.file) (day_of days.Trading self.old.board) (CancelOrder member number (length tape.old)) (when_written result) (day_of days.Trading self.new.board) (F.StopFile.stops self.new.file) tape.old tape.new }
        ensures refused { OnErr result (Unaltered self.old.board self.new.board (F.StopFile.stops self.old.file) (F.StopFile.stops self.new.file) tape.old tape.new) }
        ensures keeps { (F.StopFile.room self.new.file ≡ F.StopFile.room self.old.file) × (self.new.rule ≡ self.old.rule) }
    {
        self.board.check_cancel(member, number, tape.len())?;
        Ok(self.board.cancel(&mut self.file, number, tape))
    }

    // A trade on the floor: the range is set round it, trading goes on, it elects, and those in line run.
    pub fn floor_trade(
        &mut self,
        price: u32,
        shares: u32,
        tape: &mut [TapeLine],
    ) -> Result<usize, Refusal>
        ensures did { Did (R.ShareOut.gifts self.old.rule) (F.StopFile.room self.old.file) (day_of days.Trading self.old.board) (FloorTrade price shares (length tape.old)) (when_written result) (day_of days.Trading self.new.board) (F.StopFile.stops self.new.file) tape.old tape.new }
        ensures refused { OnErr result (Unaltered self.old.board self.new.board (F.StopFile.stops self.old.file) (F.StopFile.stops self.new.file) tape.old tape.new) }
        ensures keeps { (F.StopFile.room self.new.file ≡ F.StopFile.room self.old.file) × (self.new.rule ≡ self.old.rule) }
    {
        self.board
            .check_floor(price, shares, self.space(tape.len()))?;
        Ok(
            self.board
                .floor_trade(&self.rule, &mut self.file, price, shares, tape),
        )
    }

    // A pause ends, the range is set from the last sale, and the line runs.
    pub fn resume(&mut self, tape: &mut [TapeLine]) -> Result<usize, Refusal>
        ensures did { Did (R.ShareOut.gifts self.old.rule) (F.StopFile.room self.old.file) (day_of days.Trading self.old.board) (Resume (length tape.old)) (when_written result) (day_of days.Trading self.new.board) (F.StopFile.stops self.new.file) tape.old tape.new }
        ensures refused { OnErr result (Unaltered self.old.board self.new.board (F.StopFile.stops self.old.file) (F.StopFile.stops self.new.file) tape.old tape.new) }
        ensures keeps { (F.StopFile.room self.new.file ≡ F.StopFile.room self.old.file) × (self.new.rule ≡ self.old.rule) }
    {
        self.board.check_resume(self.space(tape.len()))?;
        Ok(self.board.resume(&self.rule, &mut self.file, tape))
    }

    // The day ends.
    pub fn close(self) -> ClosedDay<R, F>
        ensures did { Did (R.ShareOut.gifts self.rule) (F.StopFile.room self.file) (day_of days.Trading self.board) Close Done (day_of days.Closed result.board) (F.StopFile.stops result.file) [] [] }
        ensures keeps { (result.file ≡ self.file) × (result.rule ≡ self.rule) }
    {
        let Day {
            board,
            rule,
            file,
            ..
        } = self;
        Day {
            phase: Closed,
            board,
            rule,
            file,
        }
    }
}
