// What becomes of a table of resting orders.
ghost use Rattle.std.specs.Prelude.{◌≡◌, ◌-◌, ◌≤◌, false, length, take, filter, slice_index_or};
ghost use Rattle.market.specs.declared.words.Place.TheVariants.{Book};
ghost use Rattle.market.specs.Changes.{blank};
ghost use Rattle.market.specs.Orders.{is_book, put};
ghost use Rattle.market.specs.Rolls.{listed};
ghost use Rattle.replay.specs.Rolls.{alter};
ghost use Rattle.orderbook.specs.Sorted.{Tied};
ghost use Rattle.orderbook.specs.Tables.{keys, stays};

use crate::numbers::{change_order, order_numbered};
use arrayvec::ArrayVec;
use market::bounds::ROLL;
use market::change::Change;
use market::file::insert_in_order;
use market::roll::Roll;
use market::side::{BookSide, Resting};
use market::words::Place;

// The resting orders of side S, in order of precedence.
pub(crate) type Table<S> = ArrayVec<Resting<S>, ROLL>;

// Whether the order of a row is on the book; a row that is not as good as a price is not looked up.
fn is_kept<S: BookSide>(roll: &Roll, row: &Resting<S>, price: u32) -> bool
    ensures { result ≡ stays S.BookSide.side price (listed roll.now) row.now }
{
    !S::as_good(row.price, price) || order_numbered(roll, row.number).place == Place::Book
}

// What changes roll and table takes either by itself: between its writes they are not tied, as `Rows` are.
// Takes the rows out of a table whose orders have left the book, none of which is worse than a price.
pub(crate) fn retain<S: BookSide + Default>(roll: &Roll, table: &mut Table<S>, price: u32)
    ensures { table.new.items ≡ filter (stays S.BookSide.side price (listed roll.now)) table.old.items }
{
    let kept = move_kept(roll, table.as_mut_slice(), price);
    table.truncate(kept);
}

// Moves the rows that stay to the front, in their order, and says how many they are. A row that stays is written over one that goes:
// `retain` of the library swaps the two, and so carries a row that goes through all that stand behind it.
fn move_kept<S: BookSide>(roll: &Roll, rows: &mut [Resting<S>], price: u32) -> usize
    ensures { take result rows.new ≡ filter (stays S.BookSide.side price (listed roll.now)) rows.old }
{
    let mut kept = 0;
    for at in 0..rows.len() {
        let row = rows[at];
        if is_kept(roll, &row, price) {
            rows[kept] = row;
            kept += 1;
        }
    }
    kept
}

// An order that is not on the book comes to rest on its side.
pub(crate) fn rest_on<S: BookSide + Default>(roll: &mut Roll, table: &mut Table<S>, number: u32)
    requires tied { Tied S.BookSide.side (listed roll.old) (keys table.old.items) }
    requires there { (1 ≤ number) × (number ≤ length (listed roll.old)) }
    requires off { is_book (slice_index_or (listed roll.old) (number - 1) blank).place ≡ false }
    requires on { (slice_index_or (listed roll.old) (number - 1) blank).side ≡ S.BookSide.side }
    ensures roll { listed roll.new ≡ alter number (put Book) (listed roll.old) }
    ensures tied { Tied S.BookSide.side (listed roll.new) (keys table.new.items) }
{
    let price = order_numbered(roll, number).price;
    change_order(roll, number, Change::Rest);
    let _ = insert_in_order(
        table,
        Resting {
            price,
            number,
            side: S::default(),
        },
    );
}
