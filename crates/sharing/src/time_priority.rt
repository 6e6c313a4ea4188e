ghost use Rattle.std.specs.Prelude.{◌≡◌, true};
ghost use Rattle.sharing.specs.Shares.{shareable};
ghost use Rattle.sharing.specs.Turns.{by_time, KeepsOrder, Alone};
ghost use Rattle.sharing.specs.Keeps.{time_lawful};

use crate::rule::{ShareOut, can_share, give_in_order, give_nothing};

// Fills the entries in row order.
#[derive(Clone, Copy, PartialEq, Eq, Debug)]
pub struct TimePriority;

impl ShareOut for TimePriority {
    ghost gifts = { λ _. by_time };

    ghost lawful = { λ _. time_lawful };

    // The gifts keep the order of the row, and no other gifts do.
    fn share_out(&self, row: &mut [u32], quantity: u32)
        ensures gifts { row.new ≡ by_time row.old quantity }
        ensures alone { shareable row.old quantity ≡ true → Alone KeepsOrder row.old quantity row.new }
    {
        if can_share(row, quantity) {
            // Nothing was given before, and no entry gets more than the quantity.
            give_in_order(row, 0, quantity, quantity);
        } else {
            give_nothing(row);
        }
    }
}
