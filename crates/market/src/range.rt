// The range of prices at which orders execute automatically.
ghost use Rattle.std.specs.Prelude.{◌≡◌, ◌<◌, ◌≤◌, true, IfSome, nat_lt, length};
ghost use Rattle.std.specs.List.{prefix_len};
ghost use Rattle.market.specs.Ranges.{holds, in_range, bands, band_of, row_of, column_of, value_in, range_around, Examples};

use crate::bounds::{is_class, is_price};
use crate::words::{Column, Range};

// By class (the first, the others), by band of the last sale, by column, in cents.
const VALUES: [[[u32; 2]; 6]; 2] = [
    [[5, 10], [10, 25], [15, 35], [35, 75], [60, 125], [100, 200]],
    [[5, 10], [10, 20], [10, 25], [25, 50], [50, 100], [100, 200]],
];

// Where each band but the last ends.
const BAND_TOPS: [u32; 5] = [999, 2_499, 4_999, 9_999, 14_999];

impl Range {
    pub fn holds(self, price: u32) -> bool
        ensures { result ≡ holds self price }
    {
        (self.low..=self.high).contains(&price)
    }
}

// Whether a price is within range; while no range is in force every price is.
pub fn within(range: Option<Range>, price: u32) -> bool
    ensures { result ≡ in_range range price }
{
    range.is_none_or(|range| range.holds(price))
}

// The range around a last sale. There is none without a last sale (0),
// nor for a last sale above the highest price or a class that is not 1 to 3.
pub fn range_around(class: u32, column: Column, last_sale: u32) -> Option<Range>
    ensures range { result ≡ range_around class column last_sale }
    ensures around { IfSome result (λ g. holds g last_sale ≡ true) }
    ensures examples { Examples }
{
    if !is_class(class) || !is_price(last_sale) {
        return None;
    }
    let value = value_at(class, column, last_sale);
    Some(Range {
        low: last_sale.saturating_sub(value).max(1),
        high: last_sale + value,
    })
}

fn value_at(class: u32, column: Column, last_sale: u32) -> u32
    requires { last_sale ≤ 100000 }
    ensures value { result ≡ value_in bands class column last_sale }
    ensures small { result ≤ 200 }
{
    VALUES[row(class)][band(last_sale)][column_at(column)]
}

fn row(class: u32) -> usize
    ensures { result ≡ row_of class }
{
    if class == 1 { 0 } else { 1 }
}

fn band(last_sale: u32) -> usize
    requires { last_sale ≤ 100000 }
    ensures band { result ≡ band_of last_sale bands }
    ensures there { result < 6 }
{
    ends_below(&BAND_TOPS, last_sale)
}

fn ends_below(tops: &[u32], last_sale: u32) -> usize
    ensures below { result ≡ prefix_len (λ top. nat_lt top last_sale) tops.now }
    ensures within { result ≤ length tops.now }
{
    tops.iter().take_while(|top| **top < last_sale).count()
}

fn column_at(column: Column) -> usize
    ensures { result ≡ column_of column }
{
    column as usize
}
