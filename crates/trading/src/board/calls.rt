// What the calls of a day do to a board, once they are not refused.
ghost use Rattle.std.specs.Prelude.{◌≡◌, suc, ◌+◌, ◌*◌, ◌<◌, ◌≤◌, List, [], length, take, drop};
ghost use Rattle.market.specs.declared.words.TapeLine.{TapeLine as TapeLines};
ghost use Rattle.market.specs.declared.words.Place.TheVariants.{Line as InLine};
ghost use Rattle.orderbook.specs.Trades.{next};
ghost use Rattle.replay.specs.Days.{Day, Phase};
ghost use Rattle.replay.specs.Lists.{any};
ghost use Rattle.replay.specs.Rolls.{look};
ghost use Rattle.replay.specs.Book.{is_contra};
ghost use Rattle.replay.specs.Moves.{withdraw, resumed, floored, set_up, elect, line_with, admit};
ghost use Rattle.replay.specs.Runs.{work, start_place, join};
ghost use Rattle.replay.specs.StopFile.{file_of};
ghost use Rattle.trading.specs.Boards.{orders_of, waiting_of};
ghost use Rattle.trading.specs.Deeds.{may_add};
ghost use Rattle.trading.specs.Tapes.{written, HasRoom, Grew};
ghost use Rattle.trading.specs.Shows.{Shows, Does, Carries, may_print, filed_of};

use crate::answer::Receipt;
use crate::board::Board;
use crate::board::tape::Tape;
use market::words::{Column, Kind, Place, TapeLine};
use orderbook::ticket::Ticket;
use sharing::rule::ShareOut;
use stops::stop_file::StopFile;

impl Board {
    // Class, column and last sale of the day.
    #[tactic(auto, unfolding(replay::specs::Moves::set_up))]
    pub(crate) fn set_up(&mut self, class: u32, column: Column, last_sale: u32)
        ensures { (ls : List TapeLines) → Does self.old ls self.new ls (set_up class column last_sale) }
    {
        self.class = class;
        self.column = column;
        self.last_sale = last_sale;
    }

    // An order more, at a place; whoever waits stands last in line. Room and shares are asked here and of what calls it: they are of the roll
    // and of the ticket, and a type of both would hold for one order only.
    #[tactic(auto, unfolding(replay::specs::Moves::admit))]
    pub(crate) fn admit(&mut self, ticket: Ticket, place: Place) -> u32
        requires room { length (orders_of self.old) < 512 }
        requires shares { ticket.shares ≤ 1000000 }
        ensures number { result ≡ suc (length (orders_of self.old)) }
        ensures line { waiting_of self.new ≡ line_with place result (waiting_of self.old) }
        ensures day { (ls : List TapeLines) → Does self.old ls self.new ls (λ d. admit (next ticket d.roll) place d) }
    {
        let number = self.book.admit(ticket, place).unwrap();
        if place == Place::Line {
            self.line.join(number);
        }
        number
    }

    // Where an order goes that comes in: a stop into the stop file, a limit order that meets no contra order on the book, every other
    // into the line.
    fn start_place(&self, ticket: &Ticket) -> Place
        ensures { result ≡ start_place ticket.now.kind (any (is_contra (next ticket.now (orders_of self.now))) (orders_of self.now)) }
    {
        match ticket.kind {
            Kind::Limit if !self.book.meets(&self.next_order(ticket)) => Place::Book,
            Kind::Limit | Kind::Market | Kind::ImmediateOrCancel => Place::Line,
            Kind::Stop => Place::StopFile,
        }
    }

    // In a pause an order that is to be executed at once or not at all is cancelled.
    #[tactic(auto, unfolding(replay::specs::Rolls::fresh))]
    fn turn_away(&mut self, ticket: Ticket, tape: &mut Tape) -> u32
        requires room { length (orders_of self.old) < 512 }
        requires shares { ticket.shares ≤ 1000000 }
        requires lines { HasRoom 1 tape.old }
        ensures number { result ≡ suc (length (orders_of self.old)) }
        ensures day { Does self.old (written tape.old) self.new (written tape.new) (λ d. withdraw (next ticket d.roll).number (admit (next ticket d.roll) InLine d)) }
        ensures grew { Grew tape.old tape.new }
    {
        let number = self.admit(ticket, Place::Line);
        self.withdraw(number, tape);
        number
    }

    // An order comes in; a stop is in the stop file already.
    pub(crate) fn enter<R: ShareOut, F: StopFile>(
        &mut self,
        rule: &R,
        file: &mut F,
        ticket: Ticket,
        tape: &mut [TapeLine],
    ) -> Receipt
        requires room { length (orders_of self.old) < 512 }
        requires shares { ticket.shares ≤ 1000000 }
        requires lines { may_add ticket.kind + may_print self.old (F.StopFile.stops file.old) ≤ length tape.old }
        ensures number { result.number ≡ suc (length (orders_of self.old)) }
        ensures lines { result.lines ≤ length tape.old }
        ensures keeps { F.StopFile.room file.new ≡ F.StopFile.room file.old }
        ensures day { (f : Phase) (d : Day) → Shows f self.old [] d → F.StopFile.stops file.old ≡ file_of (admit (next ticket d.roll) (start_place ticket.kind (any (is_contra (next ticket d.roll)) d.roll)) d).roll → Shows f self.new (take result.lines tape.new) (join (R.ShareOut.gifts rule.now) (next ticket d.roll) d) × (F.StopFile.stops file.new ≡ file_of (join (R.ShareOut.gifts rule.now) (next ticket d.roll) d).roll) }
        ensures others { drop result.lines tape.new ≡ drop result.lines tape.old }
    {
        let mut tape = Tape::new(tape);
        if self.paused && ticket.kind == Kind::ImmediateOrCancel {
            let number = self.turn_away(ticket, &mut tape);
            return Receipt {
                number,
                lines: tape.used,
            };
        }
        let place = self.start_place(&ticket);
        let number = self.admit(ticket, place);
        self.work(rule, file, &mut tape);
        Receipt {
            number,
            lines: tape.used,
        }
    }

    // All open shares of an order are cancelled; a filed stop leaves the stop file.
    pub(crate) fn cancel<F: StopFile>(
        &mut self,
        file: &mut F,
        number: u32,
        tape: &mut [TapeLine],
    ) -> usize
        requires { 0 < length tape.old }
        ensures lines { result ≡ 1 }
        ensures keeps { F.StopFile.room file.new ≡ F.StopFile.room file.old }
        ensures day { Carries self.old (F.StopFile.stops file.old) [] self.new (F.StopFile.stops file.new) (take result tape.new) (withdraw number) }
        ensures others { drop result tape.new ≡ drop result tape.old }
    {
        if self.is_filed(number) {
            let _ = file.remove(number);
        }
        let mut tape = Tape::new(tape);
        self.withdraw(number, &mut tape);
        tape.used
    }

    // A trade on the floor is the last sale, ends a pause and sets the range, with a line of the tape.
    fn print_floor(&mut self, price: u32, shares: u32, tape: &mut Tape)
        requires { HasRoom 1 tape.old }
        ensures used { tape.new.used ≡ tape.old.used + 1 }
        ensures line { waiting_of self.new ≡ waiting_of self.old }
        ensures day { Does self.old (written tape.old) self.new (written tape.new) (floored price shares) }
        ensures grew { Grew tape.old tape.new }
    {
        self.paused = false;
        self.last_sale = price;
        self.centre();
        tape.write(TapeLine::Floor { price, shares });
    }

    // It elects stops, and then the line runs.
    pub(crate) fn floor_trade<R: ShareOut, F: StopFile>(
        &mut self,
        rule: &R,
        file: &mut F,
        price: u32,
        shares: u32,
        tape: &mut [TapeLine],
    ) -> usize
        requires { 1 + may_print self.old (F.StopFile.stops file.old) ≤ length tape.old }
        ensures lines { result ≤ length tape.old }
        ensures keeps { F.StopFile.room file.new ≡ F.StopFile.room file.old }
        ensures day { Carries self.old (F.StopFile.stops file.old) [] self.new (F.StopFile.stops file.new) (take result tape.new) (λ d. work (R.ShareOut.gifts rule.now) (elect price (floored price shares d))) }
        ensures others { drop result tape.new ≡ drop result tape.old }
    {
        let mut tape = Tape::new(tape);
        self.print_floor(price, shares, &mut tape);
        self.elect(file, price, &mut tape);
        self.work(rule, file, &mut tape);
        tape.used
    }

    // A pause ends and the range is set from the last sale.
    fn unpause(&mut self)
        ensures line { waiting_of self.new ≡ waiting_of self.old }
        ensures day { (ls : List TapeLines) → Does self.old ls self.new ls resumed }
    {
        self.paused = false;
        self.centre();
    }

    // Then the line runs.
    pub(crate) fn resume<R: ShareOut, F: StopFile>(
        &mut self,
        rule: &R,
        file: &mut F,
        tape: &mut [TapeLine],
    ) -> usize
        requires { may_print self.old (F.StopFile.stops file.old) ≤ length tape.old }
        ensures lines { result ≤ length tape.old }
        ensures keeps { F.StopFile.room file.new ≡ F.StopFile.room file.old }
        ensures day { Carries self.old (F.StopFile.stops file.old) [] self.new (F.StopFile.stops file.new) (take result tape.new) (λ d. work (R.ShareOut.gifts rule.now) (resumed d)) }
        ensures others { drop result tape.new ≡ drop result tape.old }
    {
        self.unpause();
        let mut tape = Tape::new(tape);
        self.work(rule, file, &mut tape);
        tape.used
    }
}
