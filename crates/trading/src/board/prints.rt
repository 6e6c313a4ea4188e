// The prints of a run: at the best contra price, and then at the clean-up price.
ghost use Rattle.std.specs.Prelude.{◌≡◌, ◌+◌, ◌≤◌, List};
ghost use Rattle.market.specs.declared.words.TapeLine.{TapeLine as TapeLines};
ghost use Rattle.replay.specs.Days.{Day, Phase};
ghost use Rattle.replay.specs.Runs.{next_price, print_at};
ghost use Rattle.trading.specs.Boards.{orders_of};
ghost use Rattle.trading.specs.Tapes.{written, HasRoom, Grew};
ghost use Rattle.trading.specs.Shows.{Shows, Does, Runner, Printed};

use crate::board::Board;
use crate::board::tape::Tape;
use market::words::Order;
use sharing::rule::ShareOut;

// The prices at which an order printed.
#[derive(Clone, Copy)]
pub(crate) struct Prints {
    pub(crate) first: Option<u32>,
    pub(crate) second: Option<u32>,
}

impl Board {
    // Prints at a price, if there is one.
    fn print_at<R: ShareOut>(
        &mut self,
        rule: &R,
        order: &Order,
        price: Option<u32>,
        tape: &mut Tape,
    )
        requires runner { Runner (orders_of self.old) order.now }
        requires room { HasRoom 1 tape.old }
        ensures used { tape.new.used ≤ tape.old.used + 1 }
        ensures day { Does self.old (written tape.old) self.new (written tape.new) (print_at (R.ShareOut.gifts rule.now) order.now price) }
        ensures runner { Runner (orders_of self.new) order.now }
        ensures grew { Grew tape.old tape.new }
    {
        if let Some(price) = price {
            self.print(rule, order, price, tape);
        }
    }

    // The second price of a run, if it had a first one and shares are left: the clean-up price. Each step of a run begins with the best
    // contra order, by a rule of the project.
    fn second_price(&self, order: &Order, first: Option<u32>) -> Option<u32>
        ensures { (f : Phase) (ls : List TapeLines) (d : Day) → Shows f self.now ls d → result ≡ next_price first order.now d }
    {
        let Some(_) = self.book.best(order.side.opposite()) else {
            return None;
        };
        first?;
        if self.book.left(order.number) == 0 {
            return None;
        }
        self.book.clean_up_price(order, self.range)
    }

    // Both prints.
    pub(crate) fn prints<R: ShareOut>(&mut self, rule: &R, order: &Order, tape: &mut Tape) -> Prints
        requires runner { Runner (orders_of self.old) order.now }
        requires room { HasRoom 2 tape.old }
        ensures used { tape.new.used ≤ tape.old.used + 2 }
        ensures day { (f : Phase) (d : Day) → Shows f self.old (written tape.old) d → Printed (R.ShareOut.gifts rule.now) order.now f result.first result.second self.new (written tape.new) d }
        ensures runner { Runner (orders_of self.new) order.now }
        ensures grew { Grew tape.old tape.new }
    {
        let first = self.book.first_price(order, self.range);
        self.print_at(rule, order, first, tape);
        let second = self.second_price(order, first);
        self.print_at(rule, order, second, tape);
        Prints { first, second }
    }
}
