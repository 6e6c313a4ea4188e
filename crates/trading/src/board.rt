// The state of a day, apart from its rule and its stop file.
ghost use Rattle.orderbook.specs.Books.{roll_of};
ghost use Rattle.trading.specs.Waiting.{line_of, joined_of};
ghost use Rattle.trading.specs.Ruling.{Ruled};

use crate::line::Line;
use market::words::{Column, Range};
use orderbook::book::Book;

mod calls;
pub(crate) mod checks;
mod elections;
mod moves;
mod prints;
mod questions;
mod runs;
mod settling;
pub(crate) mod tape;

#[derive(Drop)]
pub struct Board {
    book: Book,
    line: Line,
    paused: bool,
    range: Option<Range>,
    // 0 for none, as the call that sets it gives it and range_around takes it: an Option would be made of it and unmade again
    last_sale: u32,
    // A number, as in every definition. Class, column and last sale are no struct: each print sets the last sale alone.
    class: u32,
    column: Column,
    ghost ruled: { ∥ Ruled (roll_of book) (line_of line) (joined_of line) ∥₁ },
}
