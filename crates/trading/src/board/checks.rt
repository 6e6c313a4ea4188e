// What calls are refused for, in the order of the rules.
ghost use Rattle.std.specs.Prelude.{◌≡◌, suc, ◌+◌, ◌*◌, not, ◌&&◌, ◌||◌, [], ◌∷◌, ◌++◌, length, IfOk, ◌==◌, nat_le, nat_lt};
ghost use Rattle.market.specs.Bounds.{is_price, is_shares, is_class, is_last_sale};
ghost use Rattle.replay.specs.Days.{Trading};
ghost use Rattle.replay.specs.Lists.{any};
ghost use Rattle.replay.specs.Rolls.{is_market, is_stop, look, member_of, open_of, absent};
ghost use Rattle.replay.specs.Book.{is_contra};
ghost use Rattle.replay.specs.Calls.{check, refusal, order_checks, outside, letter_l, letter_h, column_of};
ghost use Rattle.replay.specs.StopFile.{stop_of};
ghost use Rattle.replay.specs.Refusals.{bad_class, bad_column, bad_last_sale, bad_price, bad_shares, tape_short, locks_book, stop_file_full, no_such_order, other_member, nothing_open, outside_quote, not_paused};
ghost use Rattle.orderbook.specs.Trades.{next};
ghost use Rattle.trading.specs.Boards.{orders_of, waiting_of, day_of};
ghost use Rattle.trading.specs.Deeds.{refused_by};

use crate::board::Board;
use market::bounds::{ROLL, is_class, is_last_sale, is_member, is_price, is_shares};
use market::refusal::Refusal;
use market::words::{Column, Kind, Order, Stop};
use orderbook::ticket::Ticket;

// A class, a column letter and a last sale, or 0 for none; answers the column. Read by a TryFrom, the letters would stand in market,
// below their definitions, which the clauses cite.
pub(crate) fn check_setting(class: u32, column: char, last_sale: u32) -> Result<Column, Refusal>
    ensures refusal { refused_by result ≡ refusal (check (not (is_class class)) bad_class ∷ check (not (column == letter_l || column == letter_h)) bad_column ∷ check (not (is_last_sale last_sale)) bad_last_sale ∷ []) }
    ensures column { IfOk result (λ c. c ≡ column_of column) }
{
    if !is_class(class) {
        return Err(Refusal::Class);
    }
    let column = match column {
        'L' => Column::Lower,
        'H' => Column::Higher,
        _ => return Err(Refusal::Column),
    };
    if !is_last_sale(last_sale) {
        return Err(Refusal::LastSale);
    }
    Ok(column)
}

// What a call finds free: how many stops are filed, for how many there is room, and how many lines are lent.
#[derive(Clone, Copy)]
pub(crate) struct Space {
    pub(crate) filed: usize,
    pub(crate) room: usize,
    pub(crate) free: usize,
}

impl Board {
    // What every new order is refused for.
    pub(crate) fn check_order(&self, ticket: &Ticket) -> Result<(), Refusal>
        ensures { refused_by result ≡ refusal (order_checks ticket.now.kind ticket.now.member ticket.now.price ticket.now.shares (day_of Trading self.now)) }
    {
        if ticket.kind != Kind::Market && !is_price(ticket.price) {
            return Err(Refusal::Price);
        }
        if !is_shares(ticket.shares) {
            return Err(Refusal::Shares);
        }
        if !is_member(ticket.member) {
            return Err(Refusal::Member);
        }
        if self.book.len() >= ROLL {
            return Err(Refusal::RollFull);
        }
        Ok(())
    }

    // A limit order that would lock or cross the book is not loaded.
    pub(crate) fn check_limit(&self, ticket: &Ticket) -> Result<(), Refusal>
        ensures { refused_by result ≡ refusal (order_checks ticket.now.kind ticket.now.member ticket.now.price ticket.now.shares (day_of Trading self.now) ++ check (any (is_contra (next ticket.now (orders_of self.now))) (orders_of self.now)) locks_book ∷ []) }
    {
        self.check_order(ticket)?;
        if self.book.meets(&self.next_order(ticket)) {
            return Err(Refusal::LocksBook);
        }
        Ok(())
    }

    // A stop wants a place in the stop file.
    pub(crate) fn check_stop(&self, ticket: &Ticket, space: Space) -> Result<(), Refusal>
        ensures { refused_by result ≡ refusal (order_checks ticket.now.kind ticket.now.member ticket.now.price ticket.now.shares (day_of Trading self.now) ++ check (is_stop ticket.now.kind && nat_le space.room space.filed) stop_file_full ∷ []) }
    {
        self.check_order(ticket)?;
        if ticket.kind == Kind::Stop && space.room <= space.filed {
            return Err(Refusal::StopFileFull);
        }
        Ok(())
    }

    // Whether the free lines are fewer than four for each order that waits, is filed or is entered.
    fn is_short(&self, space: Space, entered: usize) -> bool
        ensures { result ≡ nat_lt space.free (4 * (length (waiting_of self.now) + space.filed + entered)) }
    {
        space.free / 4
            < self
                .line
                .len()
                .saturating_add(space.filed)
                .saturating_add(entered)
    }

    pub(crate) fn check_enter(&self, ticket: &Ticket, space: Space) -> Result<(), Refusal>
        ensures { refused_by result ≡ refusal (order_checks ticket.now.kind ticket.now.member ticket.now.price ticket.now.shares (day_of Trading self.now) ++ check (is_stop ticket.now.kind && nat_le space.room space.filed) stop_file_full ∷ check (nat_lt space.free (4 * (length (waiting_of self.now) + space.filed + 1))) tape_short ∷ []) }
    {
        self.check_stop(ticket, space)?;
        if self.is_short(space, 1) {
            return Err(Refusal::TapeShort);
        }
        Ok(())
    }

    pub(crate) fn check_cancel(&self, member: u32, number: u32, free: usize) -> Result<(), Refusal>
        ensures { refused_by result ≡ refusal (check (absent (look number (orders_of self.now))) no_such_order ∷ check (not (member_of (look number (orders_of self.now)) == member)) other_member ∷ check (open_of (look number (orders_of self.now)) == 0) nothing_open ∷ check (free == 0) tape_short ∷ []) }
    {
        let Some(order) = self.book.get(number) else {
            return Err(Refusal::NoSuchOrder);
        };
        if order.member != member {
            return Err(Refusal::OtherMember);
        }
        if order.open == 0 {
            return Err(Refusal::NothingOpen);
        }
        if free == 0 {
            return Err(Refusal::TapeShort);
        }
        Ok(())
    }

    pub(crate) fn check_floor(&self, price: u32, shares: u32, space: Space) -> Result<(), Refusal>
        ensures { refused_by result ≡ refusal (check (not (is_price price)) bad_price ∷ check (not (is_shares shares)) bad_shares ∷ check (outside price (orders_of self.now)) outside_quote ∷ check (nat_lt space.free (suc (4 * (length (waiting_of self.now) + space.filed + 0)))) tape_short ∷ []) }
    {
        if !is_price(price) {
            return Err(Refusal::Price);
        }
        if !is_shares(shares) {
            return Err(Refusal::Shares);
        }
        if self.book.is_outside(price) {
            return Err(Refusal::OutsideQuote);
        }
        // one line is the trade's own
        let Some(free) = space.free.checked_sub(1) else {
            return Err(Refusal::TapeShort);
        };
        if self.is_short(Space { free, ..space }, 0) {
            return Err(Refusal::TapeShort);
        }
        Ok(())
    }

    pub(crate) fn check_resume(&self, space: Space) -> Result<(), Refusal>
        ensures { refused_by result ≡ refusal (check (not self.now.paused) not_paused ∷ check (nat_lt space.free (4 * (length (waiting_of self.now) + space.filed + 0))) tape_short ∷ []) }
    {
        if !self.paused {
            return Err(Refusal::NotPaused);
        }
        if self.is_short(space, 0) {
            return Err(Refusal::TapeShort);
        }
        Ok(())
    }

    // The stop that a ticket would file. As a From it would stand in market, below its definition, which the clause cites.
    pub(crate) fn next_stop(&self, ticket: &Ticket) -> Stop
        ensures { result ≡ stop_of (next ticket.now (orders_of self.now)) }
    {
        let order = self.next_order(ticket);
        Stop {
            number: order.number,
            side: order.side,
            price: order.price,
            shares: order.open,
        }
    }

    // The order that a ticket would make.
    pub(crate) fn next_order(&self, ticket: &Ticket) -> Order
        ensures { result ≡ next ticket.now (orders_of self.now) }
    {
        self.book.next_order(ticket)
    }
}
