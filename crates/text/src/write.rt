// Writing a day line at the start of a buffer.
ghost use Rattle.std.specs.Prelude.{◌≡◌, ◌≤◌, [], ◌∷◌, ◌++◌, length, nat_le};
ghost use Rattle.text.specs.Written.{text_of, bytes_for, all_fit, priced_numbers, numbers_of, line_for, put_length, put_buffer};
ghost use Rattle.text.specs.RoundTrips.{ReadsBack};

use crate::letter::Lettered;
use crate::line::Line;
use crate::record::Record;
use crate::refusal::Refusal;
use market::words::PricedOrder;

// The most that a line holds: 7 digits.
const LARGEST: u32 = 9_999_999;

fn fits(n: u32) -> bool
    ensures { result ≡ nat_le n 9999999 }
{
    n <= LARGEST
}

fn priced_fits(order: PricedOrder) -> bool
    ensures { result ≡ all_fit (priced_numbers order) }
{
    fits(order.member) && fits(order.price) && fits(order.shares)
}

// Whether a line can hold every number of the record.
fn numbers_fit(record: Record) -> bool
    ensures { result ≡ all_fit (numbers_of «record») }
{
    match record {
        Record::Set {
            class,
            last_sale,
            ..
        } => fits(class) && fits(last_sale),
        Record::Limit(order) | Record::ImmediateOrCancel(order) | Record::Stop(order) => {
            priced_fits(order)
        }
        Record::Market { member, shares, .. } => fits(member) && fits(shares),
        Record::Cancel { member, number } => fits(member) && fits(number),
        Record::FloorTrade { price, shares } => fits(price) && fits(shares),
        Record::Resume | Record::Open | Record::Close => true,
    }
}

// The line of a record without its end.
fn fields_of(record: Record) -> Line
    ensures text { text_of result ≡ bytes_for «record» }
    ensures within { length (text_of result) ≤ 56 }
{
    let mut line = Line::new(record.kind().letter());
    match record {
        Record::Set {
            class,
            column,
            last_sale,
        } => {
            line.field(class);
            line.field(column);
            line.field(last_sale);
        }
        Record::Limit(order) | Record::ImmediateOrCancel(order) | Record::Stop(order) => {
            line.field(order.side);
            line.field(order.member);
            line.field(order.price);
            line.field(order.shares);
        }
        Record::Market {
            side,
            member,
            shares,
        } => {
            line.field(side);
            line.field(member);
            line.field(shares);
        }
        Record::Cancel { member, number } => {
            line.field(member);
            line.field(number);
        }
        Record::FloorTrade { price, shares } => {
            line.field(price);
            line.field(shares);
        }
        Record::Resume | Record::Open | Record::Close => {}
    }
    line
}

// The line of a record, with its end.
pub(crate) fn line_of(record: Record) -> Line
    ensures { text_of result ≡ bytes_for «record» ++ 10 ∷ [] }
{
    let mut line = fields_of(record);
    line.end();
    line
}

// Puts the record's line and its end at the buffer's start, and answers how many bytes that are.
pub fn write_line(record: Record, buffer: &mut [u8]) -> Result<usize, Refusal>
    ensures answer { result ≡ put_length (line_for «record») buffer.old }
    ensures buffer { buffer.new ≡ put_buffer (line_for «record») buffer.old }
    ensures back { ReadsBack «record» result buffer.old buffer.new }
{
    if !numbers_fit(record) {
        return Err(Refusal::NumberTooLarge);
    }
    line_of(record).copy_to(buffer)
}
