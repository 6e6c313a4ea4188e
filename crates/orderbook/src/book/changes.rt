// What the calls of a day do to a book. The tables of the two sides differ in type, so that each match on a side names both.
ghost use Rattle.std.specs.Prelude.{◌≡◌, suc, [], ◌∷◌, ◌++◌, length, cond, if◌then◌else◌, Some, None};
ghost use Rattle.market.specs.Orders.{cancel, put};
ghost use Rattle.replay.specs.Rolls.{look, alter, left};
ghost use Rattle.replay.specs.Moves.{size};
ghost use Rattle.orderbook.specs.Books.{roll_of};
ghost use Rattle.orderbook.specs.Trades.{traded, is_off, contra_of, moved, next, admits};

use crate::book::Book;
use crate::deal::trade;
use crate::numbers::change_order;
use crate::tables::{rest_on, retain};
use crate::ticket::Ticket;
use arrayvec::ArrayVec;
use market::bounds::{MOST_SHARES, ROLL};
use market::change::Change;
use market::roll::Roll;
use market::words::{Order, Place, Side};
use sharing::rule::ShareOut;

impl Book {
    // A book without orders.
    pub fn new() -> Book
        ensures { roll_of result ≡ [] }
    {
        Book {
            roll: Roll::new(),
            bids: ArrayVec::new(),
            offers: ArrayVec::new(),
        }
    }

    // An order more, with the next number, at a place. A full roll, or more shares than an order may have, is refused and nothing
    // changes.
    pub fn admit(&mut self, ticket: Ticket, place: Place) -> Option<u32>
        ensures number { result ≡ (if admits ticket (roll_of self.old) then Some (suc (length (roll_of self.old))) else None) }
        ensures roll { roll_of self.new ≡ (if admits ticket (roll_of self.old) then roll_of self.old ++ put place (next ticket (roll_of self.old)) ∷ [] else roll_of self.old) }
    {
        if self.roll.len() >= ROLL || ticket.shares > MOST_SHARES {
            return None;
        }
        let number = self.push(ticket);
        self.put(number, place);
        Some(number)
    }

    // The order of a number, if there is one and it is not on the book.
    fn off_book(&self, number: u32) -> Option<Order>
        ensures { result ≡ cond (is_off (look number (roll_of self.now))) (look number (roll_of self.now)) None }
    {
        self.get(number).filter(|order| order.place != Place::Book)
    }

    // Puts the open shares of an order that is not on the book elsewhere. Any other order stays as it is.
    pub fn put(&mut self, number: u32, place: Place)
        ensures { roll_of self.new ≡ moved place number (roll_of self.old) }
    {
        let Some(order) = self.off_book(number) else {
            return;
        };
        match place {
            Place::Nowhere => {}
            Place::Book => match order.side {
                Side::Buy => rest_on(&mut self.roll, &mut self.bids, number),
                Side::Sell => rest_on(&mut self.roll, &mut self.offers, number),
            },
            Place::Line => change_order(&mut self.roll, number, Change::Wait),
            Place::StopFile => change_order(&mut self.roll, number, Change::File),
        }
    }

    // An order that is not on the book trades at a price with the other side: orders priced better are filled whole, and the rule
    // shares out the rest. Answers the shares. Any other order trades nothing.
    pub fn trade<R: ShareOut>(&mut self, rule: &R, number: u32, price: u32) -> u32
        ensures shares { result ≡ (if is_off (look number (roll_of self.old)) then size number (contra_of (look number (roll_of self.old))) price (roll_of self.old) else 0) }
        ensures roll { roll_of self.new ≡ (if is_off (look number (roll_of self.old)) then traded (R.ShareOut.gifts rule.now) number (contra_of (look number (roll_of self.old))) price (roll_of self.old) else roll_of self.old) }
    {
        let Some(order) = self.off_book(number) else {
            return 0;
        };
        match order.side {
            Side::Buy => trade(rule, &mut self.roll, &mut self.offers, number, price),
            Side::Sell => trade(rule, &mut self.roll, &mut self.bids, number, price),
        }
    }

    // Cancels all open shares of an order, wherever they are, and answers how many.
    pub fn cancel(&mut self, number: u32) -> u32
        ensures shares { result ≡ left number (roll_of self.old) }
        ensures roll { roll_of self.new ≡ alter number cancel (roll_of self.old) }
    {
        let Some(order) = self.get(number) else {
            return 0;
        };
        change_order(&mut self.roll, number, Change::Cancel);
        if order.place == Place::Book {
            match order.side {
                Side::Buy => retain(&self.roll, &mut self.bids, order.price),
                Side::Sell => retain(&self.roll, &mut self.offers, order.price),
            }
        }
        order.open
    }
}
