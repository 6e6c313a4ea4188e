// The roll: every order that was accepted, in the order of their numbers.
ghost use Rattle.std.specs.Prelude.{◌≡◌, ◌≤◌, [], ◌∷◌, ◌++◌, length, if◌then◌else◌, Ok, Err, nat_lt};

use crate::bounds::ROLL;
use crate::change::Change;
use crate::refusal::Refusal;
use crate::words::Order;
use arrayvec::ArrayVec;

// Orders are added at the end, and changed one at a time through their own methods.
#[derive(Drop)]
pub struct Roll {
    orders: ArrayVec<Order, ROLL>,
    // said here too, as callers see the items of an ArrayVec but not how many it holds at most
    ghost within: { length orders.items ≤ 512 },
}

impl Roll {
    ghost use Rattle.market.specs.Changes.{order_at, allowed_at, does_at};
    ghost use Rattle.market.specs.Rolls.{listed};
    ghost use Rattle.market.specs.declared.refusal.Refusal.TheVariants.{RollFull};

    pub fn new() -> Roll
        ensures { listed result ≡ [] }
    {
        Roll {
            orders: ArrayVec::new(),
        }
    }

    // How many orders were accepted.
    pub fn len(&self) -> usize
        ensures { result ≡ length (listed self.now) }
    {
        self.orders.len()
    }

    pub fn get(&self, at: usize) -> Option<Order>
        ensures { result ≡ order_at at (listed self.now) }
    {
        self.as_slice().get(at).copied()
    }

    // Every order, by number.
    pub fn as_slice(&self) -> &[Order]
        ensures { result.now ≡ listed self.now }
    {
        self.orders.as_slice()
    }

    // Adds an order at the end and says at which place; a full roll refuses it and stays as it is.
    pub fn push(&mut self, order: Order) -> Result<usize, Refusal>
        ensures answer { result ≡ (if nat_lt (length (listed self.old)) 512 then Ok (length (listed self.old)) else Err RollFull) }
        ensures roll { listed self.new ≡ (if nat_lt (length (listed self.old)) 512 then listed self.old ++ order ∷ [] else listed self.old) }
    {
        let at = self.len();
        self.orders.try_push(order).map_err(|_| Refusal::RollFull)?;
        Ok(at)
    }

    // Changes the order at a place and says whether that could be done; else the roll is as it was.
    pub fn change(&mut self, at: usize, change: Change) -> bool
        ensures answer { result ≡ allowed_at change at (listed self.old) }
        ensures roll { listed self.new ≡ does_at change at (listed self.old) }
    {
        let Some(order) = self.orders.get_mut(at) else {
            return false;
        };
        order.apply(change)
    }
}
