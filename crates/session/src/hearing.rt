// What a line of a text says: the call that its record stands for.
ghost use Rattle.std.specs.Prelude.{◌≡◌, ◌<◌, length};
ghost use Rattle.replay.specs.Days.{Phase, Loading};
ghost use Rattle.replay.specs.Calls.{is_phase};
ghost use Rattle.text.specs.Letters.{column_letter};
ghost use Rattle.text.specs.Cuts.{line_of, rest_of, next_of};
ghost use Rattle.text.specs.Reading.{record_in};
ghost use Rattle.session.specs.Hearing.{ticket_of, call_for, ending_at};

use market::words::{Column, Kind, PricedOrder};
use orderbook::ticket::Ticket;
use playback::call::Call;
use text::read::{Fault, read_line};
use text::record::Record;

// The record of a text's first line, or what is wrong with it, and the text behind it.
#[derive(Drop)]
pub(crate) struct FirstLine<'a> {
    pub(crate) record: Result<Record, Fault>,
    pub(crate) rest: &'a [u8],
}

pub(crate) fn first_line(text: &[u8]) -> FirstLine<'_>
    requires { 0 < length text.now }
    ensures answer { result.«record» ≡ ending_at (next_of text.now) (record_in (line_of text.now)) }
    ensures rest { result.rest.now ≡ rest_of text.now }
{
    match read_line(text) {
        Ok(read) => FirstLine {
            record: Ok(read.record),
            rest: read.rest,
        },
        Err(fault) => FirstLine {
            record: Err(fault),
            rest: &text[fault.next..],
        },
    }
}

fn letter_of(column: Column) -> char
    ensures { result ≡ column_letter column }
{
    match column {
        Column::Lower => 'L',
        Column::Higher => 'H',
    }
}

fn ticket_of(kind: Kind, order: PricedOrder) -> Ticket
    ensures { result ≡ ticket_of kind order }
{
    let PricedOrder {
        side,
        member,
        price,
        shares,
    } = order;
    Ticket {
        kind,
        side,
        member,
        price,
        shares,
    }
}

// The call that a record stands for. While a day is loading, limit orders and stops are loaded; later they are entered.
pub(crate) fn call_for(loading: bool, record: Record) -> Call
    ensures { (f : Phase) → loading ≡ is_phase Loading f → result ≡ call_for f «record» }
{
    match record {
        Record::Set {
            class,
            column,
            last_sale,
        } => Call::Set {
            class,
            column: letter_of(column),
            last_sale,
        },
        Record::Limit(order) if loading => Call::LoadLimit(order),
        Record::Limit(order) => Call::Enter(ticket_of(Kind::Limit, order)),
        Record::ImmediateOrCancel(order) => Call::Enter(ticket_of(Kind::ImmediateOrCancel, order)),
        Record::Stop(order) if loading => Call::LoadStop(order),
        Record::Stop(order) => Call::Enter(ticket_of(Kind::Stop, order)),
        Record::Market {
            side,
            member,
            shares,
        } => Call::Enter(Ticket {
            kind: Kind::Market,
            side,
            member,
            price: 0,
            shares,
        }),
        Record::Cancel { member, number } => Call::Cancel { member, number },
        Record::FloorTrade { price, shares } => Call::FloorTrade { price, shares },
        Record::Resume => Call::Resume,
        Record::Open => Call::Open,
        Record::Close => Call::Close,
    }
}
