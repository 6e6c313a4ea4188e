// What may be asked of a book.
ghost use Rattle.std.specs.Prelude.{◌≡◌, length, nat_lt};
ghost use Rattle.market.specs.declared.words.Side.TheVariants.{Buy, Sell};
ghost use Rattle.market.specs.Sides.{better};
ghost use Rattle.market.specs.Orders.{rests_on};
ghost use Rattle.replay.specs.Lists.{any, total};
ghost use Rattle.replay.specs.Rolls.{look, left};
ghost use Rattle.replay.specs.Book.{best, prices, row, is_contra};
ghost use Rattle.replay.specs.Calls.{outside, resting_at};
ghost use Rattle.replay.specs.Questions.{quote_of};
ghost use Rattle.orderbook.specs.Books.{roll_of};
ghost use Rattle.orderbook.specs.Sorted.{book, first_of, price_in};
ghost use Rattle.orderbook.specs.Trades.{first_in, clean_in};

use crate::book::Book;
use crate::rows::Rows;
use market::side::{Bids, Offers};
use market::words::{Order, Range, Side};

impl Book {
    // How many orders were accepted.
    pub fn len(&self) -> usize
        ensures { result ≡ length (roll_of self.now) }
    {
        self.roll.len()
    }

    // The order of a number, if there is one.
    pub fn get(&self, number: u32) -> Option<Order>
        ensures { result ≡ look number (roll_of self.now) }
    {
        let at = (number as usize).checked_sub(1)?;
        self.roll.get(at)
    }

    // The tables of the two sides differ in type, so that each match on a side below names both.
    fn bids(&self) -> Rows<'_, Bids>
        ensures { result.roll.now ≡ self.now.roll }
    {
        Rows {
            roll: &self.roll,
            rows: self.bids.as_slice(),
        }
    }

    fn offers(&self) -> Rows<'_, Offers>
        ensures { result.roll.now ≡ self.now.roll }
    {
        Rows {
            roll: &self.roll,
            rows: self.offers.as_slice(),
        }
    }

    // The best order of a side, if any rests there.
    pub fn best(&self, side: Side) -> Option<Order>
        ensures order { result ≡ first_of (book side (roll_of self.now)) }
        ensures price { price_in result ≡ best side (prices (rests_on side) (roll_of self.now)) }
    {
        match side {
            Side::Buy => self.bids().best(),
            Side::Sell => self.offers().best(),
        }
    }

    // The shares of a side at a price.
    fn level(&self, side: Side, price: u32) -> u32
        ensures { result ≡ total (λ n. n) (row side price (roll_of self.now)) }
    {
        match side {
            Side::Buy => self.bids().level(price),
            Side::Sell => self.offers().level(price),
        }
    }

    // The quote of a side: the best price and all shares there.
    pub fn quote(&self, side: Side) -> Option<(u32, u32)>
        ensures { result ≡ quote_of side (roll_of self.now) (best side (prices (rests_on side) (roll_of self.now))) }
    {
        let best = self.best(side)?;
        Some((best.price, self.level(side, best.price)))
    }

    // Whether the other side has an order within the limit of an order.
    pub fn meets(&self, order: &Order) -> bool
        ensures { result ≡ any (is_contra order.now) (roll_of self.now) }
    {
        self.best(order.side.opposite())
            .is_some_and(|best| order.in_limit(best.price))
    }

    // Whether a price lies outside the quote: under the bid or over the offer.
    pub fn is_outside(&self, price: u32) -> bool
        ensures { result ≡ outside price (roll_of self.now) }
    {
        self.is_behind(Side::Buy, price) || self.is_behind(Side::Sell, price)
    }

    // Whether a price is worse than the best of a side.
    fn is_behind(&self, side: Side, price: u32) -> bool
        ensures { result ≡ resting_at (λ b. better side b price) side (roll_of self.now) }
    {
        self.best(side)
            .is_some_and(|best| side.better(best.price, price))
    }

    // The price at which an order trades first: the best price of the other side, if it is within limit and range. Each step of a run
    // begins with the best contra order, by a rule of the project.
    pub fn first_price(&self, order: &Order, range: Option<Range>) -> Option<u32>
        ensures { result ≡ first_in order.now range (roll_of self.now) }
    {
        let Some(best) = self.best(order.side.opposite()) else {
            return None;
        };
        order.reaches(range, best.price).then_some(best.price)
    }

    // The price at which the sweep of what is left of an order ends, if the other side has any within limit and range.
    pub fn clean_up_price(&self, order: &Order, range: Option<Range>) -> Option<u32>
        ensures { result ≡ clean_in order.now range (roll_of self.now) }
    {
        let left = self.left(order.number);
        match order.side {
            Side::Buy => self.offers().clean_up(order, range, left),
            Side::Sell => self.bids().clean_up(order, range, left),
        }
    }

    // The open shares of an order; 0 where there is none.
    pub fn left(&self, number: u32) -> u32
        ensures { result ≡ left number (roll_of self.now) }
    {
        self.get(number).map_or(0, |order| order.open)
    }
}
