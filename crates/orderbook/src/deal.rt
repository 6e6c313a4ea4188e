// One print: what it does to the roll and to the table of the side that gives.
ghost use Rattle.std.specs.Prelude.{◌≡◌, ◌-◌, ◌≤◌, false, length, min, slice_index_or};
ghost use Rattle.market.specs.Changes.{blank};
ghost use Rattle.market.specs.Orders.{is_book};
ghost use Rattle.market.specs.Rolls.{listed};
ghost use Rattle.replay.specs.Book.{depth};
ghost use Rattle.replay.specs.Moves.{size};
ghost use Rattle.orderbook.specs.Sorted.{Tied};
ghost use Rattle.orderbook.specs.Tables.{keys};
ghost use Rattle.orderbook.specs.Trades.{given, traded};

use crate::numbers::{change_order, order_numbered};
use crate::rows::Rows;
use crate::tables::{Table, retain};
use arrayvec::ArrayVec;
use market::bounds::ROLL;
use market::change::Change;
use market::roll::Roll;
use market::side::BookSide;
use sharing::rule::ShareOut;

// What an order that has so many shares open trades at a price. What each order of the other side gives, from the best on, goes into a
// vector that the caller lends, as it is too large to be handed on: orders priced better give all that they have open, and the rule
// shares out the rest among those at the price; orders behind give nothing.
fn print_of<S: BookSide, R: ShareOut>(
    rule: &R,
    rows: &Rows<'_, S>,
    open: u32,
    price: u32,
    gifts: &mut ArrayVec<u32, ROLL>,
) -> u32
    ensures shares { result ≡ min «open» (depth S.BookSide.side price (listed rows.now.roll.now)) }
    ensures given { gifts.new.items ≡ given (R.ShareOut.gifts rule.now) result S.BookSide.side price (listed rows.now.roll.now) }
{
    rows.open_shares(price, gifts);
    let better = rows.better(price);
    let shares = open.min(gifts.iter().sum());
    let ahead: u32 = gifts[..better].iter().sum();
    rule.share_out(&mut gifts[better..], shares.saturating_sub(ahead));
    shares
}

// An order that is not on the book trades at a price with the orders of side S priced there or better.
pub(crate) fn trade<S: BookSide + Default, R: ShareOut>(
    rule: &R,
    roll: &mut Roll,
    table: &mut Table<S>,
    number: u32,
    price: u32,
) -> u32
    requires tied { Tied S.BookSide.side (listed roll.old) (keys table.old.items) }
    requires there { (1 ≤ number) × (number ≤ length (listed roll.old)) }
    requires off { is_book (slice_index_or (listed roll.old) (number - 1) blank).place ≡ false }
    ensures shares { result ≡ size number S.BookSide.side price (listed roll.old) }
    ensures roll { listed roll.new ≡ traded (R.ShareOut.gifts rule.now) number S.BookSide.side price (listed roll.old) }
    ensures tied { Tied S.BookSide.side (listed roll.new) (keys table.new.items) }
{
    let rows = Rows {
        roll,
        rows: table.as_slice(),
    };
    let open = order_numbered(roll, number).open;
    let mut gifts = ArrayVec::new();
    let shares = print_of(rule, &rows, open, price, &mut gifts);
    for (row, gift) in table.iter().zip(&gifts) {
        change_order(roll, row.number, Change::Fill(*gift));
    }
    change_order(roll, number, Change::Fill(shares));
    retain(roll, table, price);
    shares
}
