// The two tables of the price file.
ghost use Rattle.std.specs.Prelude.{◌+◌, ◌≤◌, length, take};
ghost use Rattle.stops.specs.Tables.{Apart, apart_prop, both};

use crate::table::Table;
use market::side::{Bids, Offers};

// How many stops both tables hold together at most.
pub const CAPACITY: usize = 512;

#[derive(Drop)]
pub struct PriceFile {
    pub(crate) buys: Table<Bids>,
    pub(crate) sells: Table<Offers>,
    ghost within: { length (take buys.held buys.rows) + length (take sells.held sells.rows) ≤ 512 },
    ghost distinct: { Apart (both (take buys.held buys.rows) (take sells.held sells.rows)) } by { apart_prop (both (take buys.held buys.rows) (take sells.held sells.rows)) },
}
