// Questions to one side of the book: its table over the roll, read from the front and no further than need be.
ghost use Rattle.std.specs.Prelude.{◌≡◌, ◌-◌, length, map, slice_index_or};
ghost use Rattle.std.specs.List.{take_while};
ghost use Rattle.market.specs.Changes.{blank};
ghost use Rattle.market.specs.Rolls.{listed};
ghost use Rattle.market.specs.Sides.{opposite, as_good, better};
ghost use Rattle.replay.specs.Lists.{those, total};
ghost use Rattle.replay.specs.Book.{row};
ghost use Rattle.orderbook.specs.Sorted.{book, first_of, Tied};
ghost use Rattle.orderbook.specs.Tables.{keys};
ghost use Rattle.orderbook.specs.Trades.{past_range, is_past, clean_up_to};

use crate::numbers::order_numbered;
use arrayvec::ArrayVec;
use market::bounds::ROLL;
use market::roll::Roll;
use market::side::{BookSide, Resting};
use market::words::{Order, Range};

// The rows show the book of side S of the roll.
#[derive(Drop)]
pub(crate) struct Rows<'a, S: BookSide> {
    pub(crate) roll: &'a Roll,
    pub(crate) rows: &'a [Resting<S>],
    ghost tied: { ∥ Tied S.BookSide.side (listed roll.now) (keys rows.now) ∥₁ },
}

impl<'a, S: BookSide> Rows<'a, S> {
    fn order(&self, row: &Resting<S>) -> Order
        ensures { result ≡ slice_index_or (listed self.now.roll.now) (row.now.number - 1) blank }
    {
        order_numbered(self.roll, row.number)
    }

    // The best order, if any rests.
    pub(crate) fn best(&self) -> Option<Order>
        ensures { result ≡ first_of (book S.BookSide.side (listed self.now.roll.now)) }
    {
        let row = self.rows.first()?;
        Some(self.order(row))
    }

    // How many orders are priced better than a price.
    pub(crate) fn better(&self, price: u32) -> usize
        ensures { result ≡ length (those (λ o. better S.BookSide.side o.price price) (book S.BookSide.side (listed self.now.roll.now))) }
    {
        self.rows
            .iter()
            .take_while(|row| S::better(row.price, price))
            .count()
    }

    // The rows at a price or better.
    fn front(&self, price: u32) -> &'a [Resting<S>]
        ensures { result.now ≡ take_while (λ row. as_good S.BookSide.side row.price price) self.now.rows.now }
    {
        let end = self
            .rows
            .iter()
            .take_while(|row| S::as_good(row.price, price))
            .count();
        &self.rows[..end]
    }

    // Writes the open shares of the orders at a price or better, in order of precedence, into a vector. One by one: `extend` over a chain was
    // tried, and what its closure answers was not found in the proof.
    pub(crate) fn open_shares(&self, price: u32, shares: &mut ArrayVec<u32, ROLL>)
        ensures { shares.new.items ≡ map (λ o. o.«open») (those (λ o. as_good S.BookSide.side o.price price) (book S.BookSide.side (listed self.now.roll.now))) }
    {
        shares.clear();
        for row in self.front(price) {
            shares.push(self.order(row).open);
        }
    }

    // The shares at a price.
    pub(crate) fn level(&self, price: u32) -> u32
        ensures { result ≡ total (λ n. n) (row S.BookSide.side price (listed self.now.roll.now)) }
    {
        self.front(price)
            .iter()
            .filter(|row| row.price == price)
            .map(|row| self.order(row).open)
            .sum()
    }

    // The price at which a quantity is cleaned up, in one pass: the shares up to each order are summed, and the first price in
    // reach at which they cover the quantity is the one; if none does, the last in reach.
    pub(crate) fn clean_up(&self, order: &Order, range: Option<Range>, quantity: u32) -> Option<u32>
        requires { S.BookSide.side ≡ opposite order.now.side }
        ensures { result ≡ clean_up_to quantity order.now range (listed self.now.roll.now) }
    {
        let mut sum = 0;
        let mut last = None;
        for row in self.rows {
            sum += self.order(row).open;
            if order.reaches(range, row.price) {
                last = Some(row.price);
                if quantity <= sum {
                    return last;
                }
            } else if is_past::<S>(order, range, row.price) {
                return last;
            }
        }
        last
    }
}

// Whether a price is beyond the far end of the range.
fn past_range<S: BookSide>(range: Option<Range>, price: u32) -> bool
    ensures { result ≡ past_range S.BookSide.side range price }
{
    range.is_some_and(|range| S::better(range.low, price) && S::better(range.high, price))
}

// Whether neither a price nor any worse one is within limit and range.
fn is_past<S: BookSide>(order: &Order, range: Option<Range>, price: u32) -> bool
    ensures { result ≡ is_past S.BookSide.side order.now range price }
{
    !order.in_limit(price) || past_range::<S>(range, price)
}
