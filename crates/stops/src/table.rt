// One table of the price file, written once for both sides.
ghost use Rattle.std.specs.Prelude.{◌≡◌, ℕ, ◌+◌, ◌<◌, ◌≤◌, [], map, nat_le, nat_lt, length, take, IfSome, IfNone, MatchOption};
ghost use Rattle.std.specs.List.{list_all, position, remove, slice_get, slice_index_or};
ghost use Rattle.market.specs.Files.{InOrder};
ghost use Rattle.stops.specs.declared.rows.PricedStop.{PricedStop as Row};
ghost use Rattle.stops.specs.Stops.{numbered};
ghost use Rattle.stops.specs.Tables.{stop_of, ranks, in_order_prop, Beside};
ghost use Rattle.stops.specs.Seats.{elected_len};

use crate::rows::{PricedStop, is_elected};
use crate::seats::Found;
use crate::tables::CAPACITY;
use market::file::{insert, remove_at};
use market::side::BookSide;
use market::words::Stop;

// The stops of one side, in the order in which rising or falling prices elect them. The first `held` rows are in use, and what lies
// behind them is free: so to let all go is to set the count, where an ArrayVec would blank each row.
#[derive(Drop)]
pub(crate) struct Table<S: BookSide> {
    rows: [PricedStop<S>; CAPACITY],
    held: usize,
    ghost long: { length rows ≡ 512 },
    ghost fits: { held ≤ 512 },
    ghost ranked: { InOrder (ranks S.BookSide.side) (take held rows) } by { in_order_prop (ranks S.BookSide.side) (take held rows) },
}

impl<S: BookSide + Default> Table<S> {
    pub(crate) fn new() -> Table<S>
        ensures { take result.held result.rows ≡ [] }
    {
        let free = PricedStop {
            number: 0,
            price: 0,
            shares: 0,
            side: S::default(),
        };
        Table {
            rows: [free; CAPACITY],
            held: 0,
        }
    }

    pub(crate) fn clear(&mut self)
        ensures { take self.new.held self.new.rows ≡ [] }
    {
        self.held = 0;
    }

    pub(crate) fn len(&self) -> usize
        ensures count { result ≡ length (take self.now.held self.now.rows) }
        ensures within { result ≤ 512 }
    {
        self.held
    }

    // The rows in use.
    fn in_use(&self) -> &[PricedStop<S>]
        ensures { result.now ≡ take self.now.held self.now.rows }
    {
        &self.rows[..self.held]
    }

    // Whether a number is above those of all rows.
    pub(crate) fn is_above_all(&self, number: u32) -> bool
        ensures { result ≡ list_all (λ row. nat_lt row.number number) (take self.now.held self.now.rows) }
    {
        // the loop of `all` takes a step more a row
        self.place_from(number).is_none()
    }

    // The place of the first row with a number or one above it.
    fn place_from(&self, number: u32) -> Option<usize>
        ensures { result ≡ position (λ row. nat_le number row.number) (take self.now.held self.now.rows) }
    {
        self.in_use().iter().position(|row| row.number >= number)
    }

    // The place of a number.
    pub(crate) fn place_of(&self, number: u32) -> Option<usize>
        ensures { result ≡ position (λ u. numbered number (stop_of S.BookSide.side u)) (take self.now.held self.now.rows) }
    {
        self.in_use().iter().position(|row| row.number == number)
    }

    // The row with the lowest number among those that a price elects: nothing behind them is looked at.
    pub(crate) fn lowest_elected(&self, price: u32) -> Option<Found>
        ensures none { IfNone result (elected_len S.BookSide.side price (take self.now.held self.now.rows) ≡ 0) }
        ensures place { IfSome result (λ r. r.place < elected_len S.BookSide.side price (take self.now.held self.now.rows)) }
        ensures number { IfSome result (λ r. (d : Row S) → r.number ≡ (slice_index_or (take self.now.held self.now.rows) r.place d).number) }
        ensures lowest { IfSome result (λ r. (k : ℕ) (d : Row S) → k < elected_len S.BookSide.side price (take self.now.held self.now.rows) → r.number ≤ (slice_index_or (take self.now.held self.now.rows) k d).number) }
    {
        let rows = self.in_use();
        let end = elected_len(rows, price);
        lowest_row(&rows[..end])
    }

    // Takes the stop at a place out.
    pub(crate) fn pull(&mut self, at: usize) -> Option<Stop>
        ensures value { result ≡ slice_get (map (stop_of S.BookSide.side) (take self.old.held self.old.rows)) at }
        ensures left { MatchOption result (map (stop_of S.BookSide.side) (take self.new.held self.new.rows) ≡ map (stop_of S.BookSide.side) (take self.old.held self.old.rows)) (λ s. Beside s (map (stop_of S.BookSide.side) (take self.old.held self.old.rows)) (map (stop_of S.BookSide.side) (take self.new.held self.new.rows))) }
        ensures fewer { length (take self.new.held self.new.rows) ≤ length (take self.old.held self.old.rows) }
    {
        self.take_out(at).map(Stop::from)
    }

    // Takes the row at a place out.
    fn take_out(&mut self, at: usize) -> Option<PricedStop<S>>
        ensures value { result ≡ slice_get (take self.old.held self.old.rows) at }
        ensures listed { take self.new.held self.new.rows ≡ remove (take self.old.held self.old.rows) at }
    {
        let row = remove_at(&mut self.rows, self.held, at)?;
        self.held -= 1;
        Some(row)
    }

    // Files a stop of this side, where there is room.
    pub(crate) fn file(&mut self, stop: Stop)
        requires here { stop.side ≡ S.BookSide.side }
        requires room { length (take self.old.held self.old.rows) < 512 }
        ensures joined { Beside stop (map (stop_of S.BookSide.side) (take self.new.held self.new.rows)) (map (stop_of S.BookSide.side) (take self.old.held self.old.rows)) }
        ensures longer { length (take self.new.held self.new.rows) ≡ length (take self.old.held self.old.rows) + 1 }
    {
        let row = PricedStop {
            number: stop.number,
            price: stop.price,
            shares: stop.shares,
            side: S::default(),
        };
        // there is room, so the row is not refused
        let _ = insert(&mut self.rows, self.held, row);
        self.held += 1;
    }
}

// How many rows a price elects: they stand in front.
fn elected_len<S: BookSide>(rows: &[PricedStop<S>], price: u32) -> usize
    ensures count { result ≡ elected_len S.BookSide.side price rows.now }
    ensures within { result ≤ length rows.now }
{
    rows.iter()
        .take_while(|row| is_elected(S::side(), row.price, price))
        .count()
}

// The row with the lowest number. By a loop of its own, which does nothing at a row that is no lower, where min_by_key chooses three
// values anew at each.
fn lowest_row<S: BookSide>(rows: &[PricedStop<S>]) -> Option<Found>
    ensures none { IfNone result (length rows.now ≡ 0) }
    ensures place { IfSome result (λ r. r.place < length rows.now) }
    ensures number { IfSome result (λ r. (d : Row S) → r.number ≡ (slice_index_or rows.now r.place d).number) }
    ensures lowest { IfSome result (λ r. (k : ℕ) (d : Row S) → k < length rows.now → r.number ≤ (slice_index_or rows.now k d).number) }
{
    if rows.is_empty() {
        return None;
    }
    let mut best = 0;
    for i in 1..rows.len() {
        if rows[i].number < rows[best].number {
            best = i;
        }
    }
    Some(Found {
        place: best,
        number: rows[best].number,
    })
}
