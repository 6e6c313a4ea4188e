// A stop file that keeps its stops by side and price, in two tables of its own, which differ in type: each match on a side or a seat names
// both.
ghost use Rattle.std.specs.Prelude.{◌≡◌, ◌<◌, true, [], ◌∷◌, ◌++◌, length, MatchOption};
ghost use Rattle.stops.specs.Stops.{elects, numbered, above_all, first_by, without_by};
ghost use Rattle.stops.specs.Laws.{Ascends, lowest_by};
ghost use Rattle.stops.specs.Rising.{ascends_reached};
ghost use Rattle.stops.specs.Tables.{by_number, Beside};
ghost use Rattle.stops.specs.Seats.{seated, Leads};
ghost use Rattle.stops.specs.Priced.{buys_of, sells_of, held_by, held_fits};

use crate::seats::{Seat, lower_seat};
use crate::stop_file::{NotAdded, StopFile};
use crate::table::Table;
use crate::tables::{CAPACITY, PriceFile};
use market::words::{Side, Stop};

impl PriceFile {
    // An empty file.
    pub fn new() -> PriceFile
        ensures { (buys_of result ≡ []) × (sells_of result ≡ []) }
    {
        PriceFile {
            buys: Table::new(),
            sells: Table::new(),
        }
    }

    // Whether a number is above every number held.
    fn is_above(&self, number: u32) -> bool
        ensures { result ≡ above_all number (by_number (held_by self.now)) }
    {
        self.buys.is_above_all(number) && self.sells.is_above_all(number)
    }

    // Where the stop of a number stands.
    fn seat_of(&self, number: u32) -> Option<Seat>
        ensures { Leads (numbered number) (seated (buys_of self.now) (sells_of self.now) result) (held_by self.now) }
    {
        let buy = self.buys.place_of(number).map(Seat::Buys);
        buy.or_else(|| self.sells.place_of(number).map(Seat::Sells))
    }

    // Where the lowest-numbered stop stands that a price elects: those stand in front, so nothing behind them is looked at.
    fn seat_at(&self, price: u32) -> Option<Seat>
        ensures { Leads (elects price) (seated (buys_of self.now) (sells_of self.now) result) (held_by self.now) }
    {
        let buy = self.buys.lowest_elected(price);
        let sell = self.sells.lowest_elected(price);
        lower_seat(buy, sell)
    }

    // Takes the stop at a seat out.
    fn pull(&mut self, seat: Option<Seat>) -> Option<Stop>
        ensures value { result ≡ seated (buys_of self.old) (sells_of self.old) seat }
        ensures left { MatchOption result (held_by self.new ≡ held_by self.old) (λ s. Beside s (held_by self.old) (held_by self.new)) }
    {
        match seat? {
            Seat::Buys(i) => self.buys.pull(i),
            Seat::Sells(i) => self.sells.pull(i),
        }
    }

    // Takes the stop of a number out.
    fn pull_numbered(&mut self, number: u32) -> Option<Stop>
        ensures value { result ≡ first_by (numbered number) (by_number (held_by self.old)) }
        ensures listed { by_number (held_by self.new) ≡ without_by (numbered number) (by_number (held_by self.old)) }
    {
        let seat = self.seat_of(number);
        self.pull(seat)
    }

    // Takes the lowest-numbered stop out that a price elects.
    fn pull_elected(&mut self, price: u32) -> Option<Stop>
        ensures value { result ≡ first_by (elects price) (by_number (held_by self.old)) }
        ensures lowest { Ascends (by_number (held_by self.old)) → result ≡ lowest_by (elects price) (by_number (held_by self.old)) }
        ensures listed { by_number (held_by self.new) ≡ without_by (elects price) (by_number (held_by self.old)) }
    {
        let seat = self.seat_at(price);
        self.pull(seat)
    }

    // Files a stop whose number is above all, where there is room.
    #[tactic(auto, using(crate::specs::Priced::length_held))]
    fn file(&mut self, stop: Stop)
        requires above { above_all stop.number (by_number (held_by self.old)) ≡ true }
        requires room { length (by_number (held_by self.old)) < 512 }
        ensures { by_number (held_by self.new) ≡ by_number (held_by self.old) ++ stop ∷ [] }
    {
        match stop.side {
            Side::Buy => self.buys.file(stop),
            Side::Sell => self.sells.file(stop),
        }
    }
}

impl StopFile for PriceFile {
    ghost stops = { λ f. by_number (held_by f) };

    ghost room = { λ _. 512 };

    ghost fits = { held_fits };

    ghost rises = { λ _. ascends_reached 512 };

    fn clear(&mut self) {
        self.buys.clear();
        self.sells.clear();
    }

    #[tactic(auto, using(crate::specs::Priced::length_held))]
    fn add(&mut self, stop: Stop) -> Result<(), NotAdded> {
        if !self.is_above(stop.number) {
            return Err(NotAdded::NotAbove);
        }
        if self.count() == CAPACITY {
            return Err(NotAdded::Full);
        }
        self.file(stop);
        Ok(())
    }

    fn remove(&mut self, number: u32) -> Option<u32> {
        self.pull_numbered(number).map(|stop| stop.shares)
    }

    fn take_at(&mut self, price: u32) -> Option<Stop> {
        self.pull_elected(price)
    }

    #[tactic(auto, using(crate::specs::Priced::length_held))]
    fn count(&self) -> usize {
        self.buys.len() + self.sells.len()
    }

    fn capacity(&self) -> usize {
        CAPACITY
    }
}
