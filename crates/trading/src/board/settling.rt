// What becomes of an order after its prints.
ghost use Rattle.std.specs.Prelude.{◌≡◌, ◌+◌, ◌≤◌, true, false};
ghost use Rattle.replay.specs.Runs.{residual, settle};
ghost use Rattle.trading.specs.Boards.{orders_of};
ghost use Rattle.trading.specs.Tapes.{written, HasRoom, Grew};
ghost use Rattle.trading.specs.Shows.{Does, Runner};

use crate::board::Board;
use crate::board::tape::Tape;
use market::words::{Kind, Order};

impl Board {
    // A residual that could still trade within its limit: trading is paused, and it stays first in line, unless it was to be executed
    // at once or not at all.
    fn hold(&mut self, order: &Order, tape: &mut Tape)
        requires room { HasRoom 1 tape.old }
        ensures used { tape.new.used ≤ tape.old.used + 1 }
        ensures day { Does self.old (written tape.old) self.new (written tape.new) (residual order.now.number true order.now.kind) }
        ensures grew { Grew tape.old tape.new }
    {
        if order.kind == Kind::ImmediateOrCancel {
            self.withdraw(order.number, tape);
        }
        self.pause();
    }

    // A residual that could not: a limit order rests, any other is cancelled.
    fn let_go(&mut self, order: &Order, tape: &mut Tape)
        requires runner { Runner (orders_of self.old) order.now }
        requires room { HasRoom 1 tape.old }
        ensures used { tape.new.used ≤ tape.old.used + 1 }
        ensures day { Does self.old (written tape.old) self.new (written tape.new) (residual order.now.number false order.now.kind) }
        ensures grew { Grew tape.old tape.new }
    {
        if order.kind == Kind::Limit {
            self.rest(order.number);
        } else {
            self.withdraw(order.number, tape);
        }
    }

    // An order that is filled leaves the line; else its residual is held or let go.
    #[tactic(auto, unfolding(replay::specs::Runs::settle))]
    pub(crate) fn settle(&mut self, order: &Order, tape: &mut Tape)
        requires runner { Runner (orders_of self.old) order.now }
        requires room { HasRoom 1 tape.old }
        ensures used { tape.new.used ≤ tape.old.used + 1 }
        ensures day { Does self.old (written tape.old) self.new (written tape.new) (settle order.now) }
        ensures grew { Grew tape.old tape.new }
    {
        if self.book.left(order.number) == 0 {
            self.leave(order.number);
        } else if self.book.meets(order) {
            self.hold(order, tape);
        } else {
            self.let_go(order, tape);
        }
    }
}
