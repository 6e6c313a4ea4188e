// Reading a day line: the record and the unread rest, or the fault.
ghost use Rattle.std.specs.Prelude.{◌≡◌};
ghost use Rattle.text.specs.Cuts.{past};
ghost use Rattle.text.specs.Reading.{set_in, priced_in, market_in, pair_in, fields_as, record_in, read_of, seen};
ghost use Rattle.text.specs.RoundTrips.{WritesBack};

use crate::cut::{count_marks, split_at_mark};
use crate::fault::LineFault;
use crate::field::{FieldValue, Fields};
use crate::record::{Record, RecordKind};
use crate::refusal::Refusal;
use market::words::{Column, PricedOrder, Side};

// Why a line was refused, its field's place (0, the whole line, is printed as such), and where the next line begins, which is known only
// to whoever read the text.
#[derive(Clone, Copy)]
pub struct Fault {
    pub cause: Refusal,
    pub field: u32,
    pub next: usize,
}

// A record, and the unread rest of the caller's text.
#[derive(Drop)]
pub struct Read<'a> {
    pub record: Record,
    pub rest: &'a [u8],
}

// The fields behind the letter.
fn behind_letter(line: &[u8]) -> Fields<'_>
    ensures rest { result.rest.now ≡ past 9 line.now }
    ensures place { result.place ≡ 2 }
{
    let (_, rest) = split_at_mark(line, b'\t');
    Fields { rest, place: 2 }
}

fn read_set(line: &[u8]) -> Result<Record, LineFault>
    ensures { result ≡ set_in line.now }
{
    let mut fields = behind_letter(line);
    let class: u32 = fields.take_value()?;
    let column: Column = fields.take_value()?;
    let last_sale: u32 = fields.take_value()?;
    Ok(Record::Set {
        class,
        column,
        last_sale,
    })
}

fn read_priced(line: &[u8]) -> Result<PricedOrder, LineFault>
    ensures { result ≡ priced_in line.now }
{
    let mut fields = behind_letter(line);
    let side: Side = fields.take_value()?;
    let member: u32 = fields.take_value()?;
    let price: u32 = fields.take_value()?;
    let shares: u32 = fields.take_value()?;
    Ok(PricedOrder {
        side,
        member,
        price,
        shares,
    })
}

fn read_market(line: &[u8]) -> Result<Record, LineFault>
    ensures { result ≡ market_in line.now }
{
    let mut fields = behind_letter(line);
    let side: Side = fields.take_value()?;
    let member: u32 = fields.take_value()?;
    let shares: u32 = fields.take_value()?;
    Ok(Record::Market {
        side,
        member,
        shares,
    })
}

fn read_pair(line: &[u8]) -> Result<(u32, u32), LineFault>
    ensures { result ≡ pair_in line.now }
{
    let mut fields = behind_letter(line);
    let first: u32 = fields.take_value()?;
    let second: u32 = fields.take_value()?;
    Ok((first, second))
}

// The record of a line that has as many fields as its kind asks.
fn read_fields(kind: RecordKind, line: &[u8]) -> Result<Record, LineFault>
    ensures { result ≡ fields_as kind line.now }
{
    match kind {
        RecordKind::Set => read_set(line),
        RecordKind::Limit => Ok(Record::Limit(read_priced(line)?)),
        RecordKind::ImmediateOrCancel => Ok(Record::ImmediateOrCancel(read_priced(line)?)),
        RecordKind::Stop => Ok(Record::Stop(read_priced(line)?)),
        RecordKind::Market => read_market(line),
        RecordKind::Cancel => {
            let (member, number) = read_pair(line)?;
            Ok(Record::Cancel { member, number })
        }
        RecordKind::FloorTrade => {
            let (price, shares) = read_pair(line)?;
            Ok(Record::FloorTrade { price, shares })
        }
        RecordKind::Resume => Ok(Record::Resume),
        RecordKind::Open => Ok(Record::Open),
        RecordKind::Close => Ok(Record::Close),
    }
}

// The record of a line, its end left out: first the letter, then the count of fields, then each field.
pub(crate) fn read_record(line: &[u8]) -> Result<Record, LineFault>
    ensures { result ≡ record_in line.now }
{
    let (letter, _) = split_at_mark(line, b'\t');
    let kind = RecordKind::in_field(letter).ok_or(LineFault {
        cause: Refusal::UnknownLetter,
        field: 0,
    })?;
    if count_marks(line, b'\t') + 1 != kind.field_count() {
        return Err(LineFault {
            cause: Refusal::FieldCount,
            field: 0,
        });
    }
    read_fields(kind, line)
}

// The record of the first line and the unread rest of the text, or what is wrong with that line.
pub fn read_line(text: &[u8]) -> Result<Read<'_>, Fault>
    ensures answer { seen result ≡ read_of text.now }
    ensures again { WritesBack result text.now }
{
    if text.is_empty() {
        return Err(Fault {
            cause: Refusal::EmptyText,
            field: 0,
            next: 0,
        });
    }
    let (line, rest) = split_at_mark(text, b'\n');
    let record = read_record(line).map_err(|fault| Fault {
        cause: fault.cause,
        field: fault.field,
        next: text.len() - rest.len(),
    })?;
    Ok(Read { record, rest })
}
