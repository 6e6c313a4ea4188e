// The roll with the book of each side: a table of the orders that rest there, in order of precedence.
ghost use Rattle.market.specs.Rolls.{listed};
ghost use Rattle.orderbook.specs.Tables.{Kept, keys};

use crate::tables::Table;
use market::roll::Roll;
use market::side::{Bids, Offers};

mod changes;
mod questions;
mod tickets;
pub mod totals;

// Each table shows the book of its side.
#[derive(Drop)]
pub struct Book {
    roll: Roll,
    bids: Table<Bids>,
    offers: Table<Offers>,
    ghost kept: { ∥ Kept (listed roll) (keys bids.items) (keys offers.items) ∥₁ },
}
