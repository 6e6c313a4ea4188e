// The two sides of the book as types, so that code over a side is written once.
ghost use Rattle.std.specs.Prelude.{◌≡◌};
ghost use Rattle.market.specs.Sides.{better, as_good, precedence, PriceOrder};
ghost use Rattle.market.specs.Prices.{price_order, resting_strict};
ghost use Rattle.market.specs.declared.words.Side.{Side as SideOf};
ghost use Rattle.market.specs.declared.words.Side.TheVariants.{Buy, Sell};

use crate::file::Ranked;
use crate::words::Side;

// A side as a type: it names its opposite, and says which of two prices is better.
pub trait BookSide: Copy {
    type Opposite;

    ghost side: { SideOf };

    ghost prices: { PriceOrder side };

    fn side() -> Side
        ensures { result ≡ side };

    fn better(price: u32, other: u32) -> bool
        ensures { result ≡ better side price other }
    {
        Self::side().better(price, other)
    }

    fn as_good(price: u32, other: u32) -> bool
        ensures { result ≡ as_good side price other }
    {
        Self::side().as_good(price, other)
    }
}

// Where buys rest: the higher price is better.
#[derive(Clone, Copy, Default)]
pub struct Bids;

// Where sells rest: the lower price is better.
#[derive(Clone, Copy, Default)]
pub struct Offers;

impl BookSide for Bids {
    type Opposite = Offers;

    ghost side = { Buy };

    ghost prices = { price_order Buy };

    fn side() -> Side {
        Side::Buy
    }
}

impl BookSide for Offers {
    type Opposite = Bids;

    ghost side = { Sell };

    ghost prices = { price_order Sell };

    fn side() -> Side {
        Side::Sell
    }
}

// The place of a resting order in the book of side S.
#[derive(Clone, Copy, Default)]
pub struct Resting<S> {
    pub price: u32,
    pub number: u32,
    pub side: S,
}

// The better price first; at one price the order that came first, which has the lower number. Written out, as an order is filed by many such
// comparisons: `ranks_before` would read each number before it is known whether the prices are one.
impl<S: BookSide> Ranked for Resting<S> {
    ghost before = { λ a b. precedence S.BookSide.side a.price a.number b.price b.number };

    ghost strict = { resting_strict S.BookSide.side (λ x. x.price) (λ x. x.number) };

    fn precedes(&self, other: &Resting<S>) -> bool {
        S::better(self.price, other.price)
            || (self.price == other.price && self.number < other.number)
    }
}
