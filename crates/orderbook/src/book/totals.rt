// Sums over the whole roll.
ghost use Rattle.std.specs.Prelude.{◌≡◌, ◌/◌};
ghost use Rattle.replay.specs.Lists.{total};
ghost use Rattle.orderbook.specs.Books.{roll_of};

use crate::book::Book;

// Accepted, printed, cancelled and open shares. Each print fills a buy and a sell, so that printed is half of filled.
#[derive(Clone, Copy)]
pub struct Totals {
    pub accepted: u64,
    pub printed: u64,
    pub cancelled: u64,
    pub open: u64,
}

impl Book {
    pub fn totals(&self) -> Totals
        ensures accepted { result.accepted ≡ total (λ o. o.accepted) (roll_of self.now) }
        ensures printed { result.printed ≡ total (λ o. o.filled) (roll_of self.now) / 2 }
        ensures cancelled { result.cancelled ≡ total (λ o. o.cancelled) (roll_of self.now) }
        ensures amount { result.«open» ≡ total (λ o. o.«open») (roll_of self.now) }
    {
        let mut accepted = 0;
        let mut filled = 0;
        let mut cancelled = 0;
        let mut open = 0;
        for order in self.roll.as_slice() {
            accepted += u64::from(order.accepted);
            filled += u64::from(order.filled);
            cancelled += u64::from(order.cancelled);
            open += u64::from(order.open);
        }
        Totals {
            accepted,
            printed: filled / 2,
            cancelled,
            open,
        }
    }
}
