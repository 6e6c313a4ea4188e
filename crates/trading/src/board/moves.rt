// The moves of a board: each makes of the day that the board shows what the definition of that move says.
ghost use Rattle.std.specs.Prelude.{◌≡◌, ◌+◌, true, List};
ghost use Rattle.market.specs.declared.words.TapeLine.{TapeLine as TapeLines};
ghost use Rattle.market.specs.Sides.{opposite};
ghost use Rattle.orderbook.specs.Trades.{is_off};
ghost use Rattle.replay.specs.Days.{Loading, new_day};
ghost use Rattle.replay.specs.Rolls.{look};
ghost use Rattle.replay.specs.Moves.{low_of, high_of, trade, leave, withdraw, rest, pause, centre};
ghost use Rattle.trading.specs.Boards.{orders_of, day_of};
ghost use Rattle.trading.specs.Tapes.{written, HasRoom, Grew};
ghost use Rattle.trading.specs.Shows.{Does, Runner};

use crate::board::Board;
use crate::board::tape::Tape;
use crate::line::Line;
use market::range::range_around;
use market::words::{Column, Order, Place, TapeLine};
use orderbook::book::Book;
use sharing::rule::ShareOut;

impl Board {
    // A new day: class 1, lower values, no last sale, nobody there.
    #[tactic(auto, unfolding(replay::specs::Days::new_day))]
    pub(crate) fn new() -> Board
        ensures { day_of Loading result ≡ new_day }
    {
        Board {
            book: Book::new(),
            line: Line::new(),
            paused: false,
            range: None,
            last_sale: 0,
            class: 1,
            column: Column::Lower,
        }
    }

    // An order that is filled leaves the line.
    #[tactic(auto, unfolding(replay::specs::Moves::leave))]
    pub(crate) fn leave(&mut self, number: u32)
        ensures { (ls : List TapeLines) → Does self.old ls self.new ls (leave number) }
    {
        self.line.leave(number);
    }

    // An order that is not on the book goes there, out of the line.
    #[tactic(auto, unfolding(replay::specs::Moves::rest))]
    pub(crate) fn rest(&mut self, number: u32)
        requires { is_off (look number (orders_of self.old)) ≡ true }
        ensures { (ls : List TapeLines) → Does self.old ls self.new ls (rest number) }
    {
        self.book.put(number, Place::Book);
        self.line.leave(number);
    }

    // All open shares of an order are cancelled, wherever they are, with a line of the tape.
    #[tactic(auto, unfolding(replay::specs::Moves::withdraw))]
    pub(crate) fn withdraw(&mut self, number: u32, tape: &mut Tape)
        requires { HasRoom 1 tape.old }
        ensures used { tape.new.used ≡ tape.old.used + 1 }
        ensures day { Does self.old (written tape.old) self.new (written tape.new) (withdraw number) }
        ensures grew { Grew tape.old tape.new }
    {
        let shares = self.book.cancel(number);
        self.line.leave(number);
        tape.write(TapeLine::Cancel {
            order: number,
            shares,
        });
    }

    // Trading is paused.
    #[tactic(auto, unfolding(replay::specs::Moves::pause))]
    pub(crate) fn pause(&mut self)
        ensures { (ls : List TapeLines) → Does self.old ls self.new ls (pause true) }
    {
        self.paused = true;
    }

    // The range is set from the last sale.
    #[tactic(auto, unfolding(replay::specs::Moves::centre))]
    pub(crate) fn centre(&mut self)
        ensures { (ls : List TapeLines) → Does self.old ls self.new ls centre }
    {
        self.range = range_around(self.class, self.column, self.last_sale);
    }

    // An order trades at a price with the other side, with a line of the tape. It stands beside the board here and in what follows: a
    // struct that lent out both would have each of these functions say that it keeps either.
    #[tactic(auto, unfolding(replay::specs::Moves::trade))]
    pub(crate) fn print<R: ShareOut>(
        &mut self,
        rule: &R,
        order: &Order,
        price: u32,
        tape: &mut Tape,
    )
        requires runner { Runner (orders_of self.old) order.now }
        requires room { HasRoom 1 tape.old }
        ensures used { tape.new.used ≡ tape.old.used + 1 }
        ensures day { Does self.old (written tape.old) self.new (written tape.new) (trade (R.ShareOut.gifts rule.now) order.now.number (opposite order.now.side) price) }
        ensures runner { Runner (orders_of self.new) order.now }
        ensures grew { Grew tape.old tape.new }
    {
        let shares = self.book.trade(rule, order.number, price);
        self.last_sale = price;
        let (low, high) = self.shown_range();
        tape.write(TapeLine::Print {
            order: order.number,
            price,
            shares,
            low,
            high,
        });
    }

    // The range as a print's line shows it: 0 and 0 without one, as it is printed.
    pub(crate) fn shown_range(&self) -> (u32, u32)
        ensures { result ≡ (low_of self.now.range, high_of self.now.range) }
    {
        self.range.map_or((0, 0), |range| (range.low, range.high))
    }
}
