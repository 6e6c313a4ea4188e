// A stop file that keeps its stops in order of arrival, in slots that the caller lends.
ghost use Rattle.std.specs.Prelude.{◌≡◌, ◌<◌, [], ◌∷◌, ◌++◌, length, nat_le};
ghost use Rattle.std.specs.List.{position, remove, slice_get};
ghost use Rattle.stops.specs.Slots.{filled, filled_fits};
ghost use Rattle.stops.specs.Stops.{elects, numbered, above_all};
ghost use Rattle.stops.specs.Rising.{ascends_reached};

use crate::rows::is_elected;
use crate::stop_file::{NotAdded, StopFile};
use market::file::remove_at;
use market::words::Stop;

// The caller lends the slots, since memory is fixed: so the count stands beside them, and no ArrayVec owns both.
// There is no ghost field, so that a day can hold the file by value: a `held` past the slots counts as all of them.
#[derive(Drop)]
pub struct ArrivalFile<'a> {
    slots: &'a mut [Stop],
    held: usize,
}

impl<'a> ArrivalFile<'a> {
    // An empty file; what the slots held before does not matter.
    pub fn new(slots: &'a mut [Stop]) -> ArrivalFile<'a>
        ensures { (result.held ≡ 0) × (result.slots.now ≡ slots.old) }
    {
        ArrivalFile { slots, held: 0 }
    }

    // The stops, in order of arrival.
    fn stops(&self) -> &[Stop]
        ensures { result.now ≡ filled self.now.held self.now.slots.now }
    {
        &self.slots[..self.count()]
    }

    // Whether a number is above every number held.
    fn is_above(&self, number: u32) -> bool
        ensures { result ≡ above_all number (filled self.now.held self.now.slots.now) }
    {
        // the loop of `all` takes a step more a stop
        self.place_from(number).is_none()
    }

    // The place of the first stop with a number or one above it.
    fn place_from(&self, number: u32) -> Option<usize>
        ensures { result ≡ position (λ stop. nat_le number stop.number) (filled self.now.held self.now.slots.now) }
    {
        self.stops().iter().position(|stop| stop.number >= number)
    }

    // The place of a number.
    fn place_of(&self, number: u32) -> Option<usize>
        ensures { result ≡ position (numbered number) (filled self.now.held self.now.slots.now) }
    {
        self.stops().iter().position(|stop| stop.number == number)
    }

    // The place of the first stop that the price elects.
    fn place_at(&self, price: u32) -> Option<usize>
        ensures { result ≡ position (elects price) (filled self.now.held self.now.slots.now) }
    {
        self.stops()
            .iter()
            .position(|stop| is_elected(stop.side, stop.price, price))
    }

    // Takes the stop at a place out.
    fn pull(&mut self, at: usize) -> Option<Stop>
        ensures value { result ≡ slice_get (filled self.old.held self.old.slots.now) at }
        ensures listed { filled self.new.held self.new.slots.now ≡ remove (filled self.old.held self.old.slots.now) at }
        ensures keeps { length self.new.slots.now ≡ length self.old.slots.now }
    {
        let n = self.count();
        let stop = remove_at(self.slots, n, at)?;
        self.held = n - 1;
        Some(stop)
    }

    // Writes a stop behind the others.
    fn push(&mut self, stop: Stop)
        requires { length (filled self.old.held self.old.slots.now) < length self.old.slots.now }
        ensures listed { filled self.new.held self.new.slots.now ≡ filled self.old.held self.old.slots.now ++ stop ∷ [] }
        ensures keeps { length self.new.slots.now ≡ length self.old.slots.now }
    {
        let n = self.count();
        self.slots[n] = stop;
        self.held = n + 1;
    }
}

impl<'a> StopFile for ArrivalFile<'a> {
    ghost stops = { λ f. filled f.held f.slots.now };

    ghost room = { λ f. length f.slots.now };

    ghost fits = { λ f. filled_fits f.held f.slots.now };

    ghost rises = { λ f. ascends_reached (length f.slots.now) };

    fn clear(&mut self) {
        self.held = 0;
    }

    fn add(&mut self, stop: Stop) -> Result<(), NotAdded> {
        if !self.is_above(stop.number) {
            return Err(NotAdded::NotAbove);
        }
        if self.count() == self.capacity() {
            return Err(NotAdded::Full);
        }
        self.push(stop);
        Ok(())
    }

    fn remove(&mut self, number: u32) -> Option<u32> {
        let at = self.place_of(number)?;
        self.pull(at).map(|stop| stop.shares)
    }

    fn take_at(&mut self, price: u32) -> Option<Stop> {
        let at = self.place_at(price)?;
        self.pull(at)
    }

    fn count(&self) -> usize {
        self.held.min(self.capacity())
    }

    fn capacity(&self) -> usize {
        self.slots.len()
    }
}
