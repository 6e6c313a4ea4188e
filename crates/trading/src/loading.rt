// The calls of a loading day.
ghost use Rattle.std.specs.Prelude.{◌≡◌, [], OnErr};
ghost use Rattle.replay.specs.Days as days;
ghost use Rattle.replay.specs.Days.{new_day, Set, LoadLimit, LoadStop, Open, Done};
ghost use Rattle.trading.specs.Boards.{day_of};
ghost use Rattle.trading.specs.Deeds.{Did, Unaltered, when_done, when_numbered};

use crate::board::Board;
use crate::board::checks::check_setting;
use crate::day::{BeforeOpen, Day, Loading, LoadingDay, Trading, TradingDay};
use crate::filing::file_stop;
use market::refusal::Refusal;
use market::words::{Kind, Place, PricedOrder};
use orderbook::ticket::Ticket;
use sharing::rule::ShareOut;
use stops::stop_file::StopFile;

// A new day with its rule; the stop file that it gets is emptied.
pub fn begin<R: ShareOut, F: StopFile>(rule: R, file: F) -> LoadingDay<R, F>
    ensures day { day_of days.Loading result.board ≡ new_day }
    ensures file { F.StopFile.stops result.file ≡ [] }
    ensures keeps { (F.StopFile.room result.file ≡ F.StopFile.room file) × (result.rule ≡ rule) }
{
    let mut file = file;
    file.clear();
    Day {
        phase: Loading,
        board: Board::new(),
        rule,
        file,
    }
}

impl<P: BeforeOpen, R: ShareOut, F: StopFile> Day<P, R, F> {
    // Gives class, column letter and last sale, 0 for none.
    pub fn set(&mut self, class: u32, column: char, last_sale: u32) -> Result<(), Refusal>
        ensures did { Did (R.ShareOut.gifts self.old.rule) (F.StopFile.room self.old.file) (day_of days.Loading self.old.board) (Set class column last_sale) (when_done result) (day_of days.Loading self.new.board) (F.StopFile.stops self.new.file) [] [] }
        ensures refused { OnErr result (Unaltered self.old.board self.new.board (F.StopFile.stops self.old.file) (F.StopFile.stops self.new.file) [] []) }
        ensures keeps { (F.StopFile.room self.new.file ≡ F.StopFile.room self.old.file) × (self.new.rule ≡ self.old.rule) }
    {
        let column = check_setting(class, column, last_sale)?;
        self.board.set_up(class, column, last_sale);
        Ok(())
    }

    // A limit order goes on the book; answers its number. The ticket is written out here and for a stop: as a function of its own it would
    // say in its clause what it does, and each check would have to be led through that.
    pub fn load_limit(&mut self, order: PricedOrder) -> Result<u32, Refusal>
        ensures did { Did (R.ShareOut.gifts self.old.rule) (F.StopFile.room self.old.file) (day_of days.Loading self.old.board) (LoadLimit order.side order.member order.price order.shares) (when_numbered result) (day_of days.Loading self.new.board) (F.StopFile.stops self.new.file) [] [] }
        ensures refused { OnErr result (Unaltered self.old.board self.new.board (F.StopFile.stops self.old.file) (F.StopFile.stops self.new.file) [] []) }
        ensures keeps { (F.StopFile.room self.new.file ≡ F.StopFile.room self.old.file) × (self.new.rule ≡ self.old.rule) }
    {
        let PricedOrder {
            side,
            member,
            price,
            shares,
        } = order;
        let ticket = Ticket {
            kind: Kind::Limit,
            side,
            member,
            price,
            shares,
        };
        self.board.check_limit(&ticket)?;
        Ok(self.board.admit(ticket, Place::Book))
    }

    // A stop order goes into the stop file; answers its number.
    pub fn load_stop(&mut self, order: PricedOrder) -> Result<u32, Refusal>
        ensures did { Did (R.ShareOut.gifts self.old.rule) (F.StopFile.room self.old.file) (day_of days.Loading self.old.board) (LoadStop order.side order.member order.price order.shares) (when_numbered result) (day_of days.Loading self.new.board) (F.StopFile.stops self.new.file) [] [] }
        ensures refused { OnErr result (Unaltered self.old.board self.new.board (F.StopFile.stops self.old.file) (F.StopFile.stops self.new.file) [] []) }
        ensures keeps { (F.StopFile.room self.new.file ≡ F.StopFile.room self.old.file) × (self.new.rule ≡ self.old.rule) }
    {
        let PricedOrder {
            side,
            member,
            price,
            shares,
        } = order;
        let ticket = Ticket {
            kind: Kind::Stop,
            side,
            member,
            price,
            shares,
        };
        self.board.check_stop(&ticket, self.space(0))?;
        file_stop(&mut self.file, &self.board, &ticket)?;
        Ok(self.board.admit(ticket, Place::StopFile))
    }

    // Trading begins, and the range is set from the last sale.
    pub fn open(self) -> TradingDay<R, F>
        ensures did { Did (R.ShareOut.gifts self.rule) (F.StopFile.room self.file) (day_of days.Loading self.board) Open Done (day_of days.Trading result.board) (F.StopFile.stops result.file) [] [] }
        ensures keeps { (result.file ≡ self.file) × (result.rule ≡ self.rule) }
    {
        let Day {
            mut board,
            rule,
            file,
            ..
        } = self;
        board.centre();
        Day {
            phase: Trading,
            board,
            rule,
            file,
        }
    }
}
