// What may be asked on any day; no answer changes it.
ghost use Rattle.std.specs.Prelude.{◌≡◌};
ghost use Rattle.replay.specs.Days.{Phase};
ghost use Rattle.replay.specs.Questions.{quote, is_paused, in_force, record_of, totals};
ghost use Rattle.trading.specs.Boards.{day_of};
ghost use Rattle.trading.specs.Asked.{found_in, totals_of};

use crate::board::Board;
use market::refusal::Refusal;
use market::words::{Order, Range, Side};
use orderbook::book::totals::Totals;

impl Board {
    // The quote of a side: its best price and all shares there; an empty side has none.
    #[tactic(auto, unfolding(replay::specs::Questions::quote))]
    pub fn quote(&self, side: Side) -> Option<(u32, u32)>
        ensures { (f : Phase) → result ≡ quote side (day_of f self.now) }
    {
        self.book.quote(side)
    }

    // Whether trading is paused.
    pub fn is_paused(&self) -> bool
        ensures { (f : Phase) → result ≡ is_paused (day_of f self.now) }
    {
        self.paused
    }

    // The range in force, if there is one.
    pub fn range(&self) -> Option<Range>
        ensures { (f : Phase) → result ≡ in_force (day_of f self.now) }
    {
        self.range
    }

    // An order of the roll by its number.
    pub fn order(&self, number: u32) -> Result<Order, Refusal>
        ensures { (f : Phase) → found_in result ≡ record_of number (day_of f self.now) }
    {
        self.book.get(number).ok_or(Refusal::NoSuchOrder)
    }

    // Accepted, printed, cancelled and open shares of all orders of the roll.
    #[tactic(auto, unfolding(replay::specs::Questions::totals))]
    pub fn totals(&self) -> Totals
        ensures { (f : Phase) → totals_of result ≡ totals (day_of f self.now) }
    {
        self.book.totals()
    }
}
