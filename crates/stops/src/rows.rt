// The rows of the price file, each a stop of one side, and what elects a stop of either file.
ghost use Rattle.std.specs.Prelude.{◌≡◌};
ghost use Rattle.stops.specs.Ranking.{ranks_strict};
ghost use Rattle.stops.specs.Stops.{reaches};
ghost use Rattle.stops.specs.Tables.{stop_of, ranks};

use market::file::Ranked;
use market::side::BookSide;
use market::words::{Side, Stop};

// Whether a price elects a stop: a buy priced at it or lower, a sell priced at it or higher.
pub(crate) fn is_elected(side: Side, stop_price: u32, price: u32) -> bool
    ensures { result ≡ reaches side price stop_price }
{
    side.as_good(price, stop_price)
}

// A stop whose side is its type.
#[derive(Clone, Copy, Default)]
pub(crate) struct PricedStop<S> {
    pub(crate) number: u32,
    pub(crate) price: u32,
    pub(crate) shares: u32,
    pub(crate) side: S,
}

impl<S: BookSide> From<PricedStop<S>> for Stop {
    ghost from_gives = { λ row stop. stop ≡ stop_of S.BookSide.side row };

    fn from(row: PricedStop<S>) -> Stop {
        Stop {
            number: row.number,
            side: S::side(),
            price: row.price,
            shares: row.shares,
        }
    }
}

// Those that a price elects stand in front, as resting orders of the opposite side do: of buys the lower price first, of sells the higher; at
// one price the lower number.
impl<S: BookSide> Ranked for PricedStop<S> {
    ghost before = { ranks S.BookSide.side };

    ghost strict = { ranks_strict S.BookSide.side };

    fn precedes(&self, other: &PricedStop<S>) -> bool {
        // by its fields, each read only where it decides
        let side = S::side().opposite();
        side.better(self.price, other.price)
            || (self.price == other.price && self.number < other.number)
    }
}
