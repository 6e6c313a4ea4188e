// What lies opposite a side, and which price a side prefers.
ghost use Rattle.std.specs.Prelude.{◌≡◌};
ghost use Rattle.market.specs.Sides.{opposite, same_side, better, as_good, precedence};

use crate::words::Side;

impl Side {
    pub fn opposite(self) -> Side
        ensures { result ≡ opposite self }
    {
        match self {
            Side::Buy => Side::Sell,
            Side::Sell => Side::Buy,
        }
    }

    // What == answers, in the word of the definitions: public, so it stays.
    pub fn same(self, other: Side) -> bool
        ensures { result ≡ same_side self other }
    {
        self == other
    }

    // Whether a price of this side is better than another.
    pub fn better(self, price: u32, other: u32) -> bool
        ensures { result ≡ better self price other }
    {
        match self {
            Side::Buy => price > other,
            Side::Sell => price < other,
        }
    }

    // Whether a price of this side is as good as another, or better.
    pub fn as_good(self, price: u32, other: u32) -> bool
        ensures { result ≡ as_good self price other }
    {
        match self {
            Side::Buy => price >= other,
            Side::Sell => price <= other,
        }
    }

    // Whether a price with an order number comes before another of this side: the better price first, and at one price the order that
    // came first, which has the lower number.
    pub fn ranks_before(self, place: (u32, u32), other: (u32, u32)) -> bool
        ensures { result ≡ precedence self place.0 place.1 other.0 other.1 }
    {
        self.better(place.0, other.0) || (place.0 == other.0 && place.1 < other.1)
    }
}
