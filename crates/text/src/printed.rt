// The lines that programs print of a day, each with its end.
ghost use Rattle.std.specs.Prelude.{◌≡◌, ◌∷◌, decimal, map};
ghost use Rattle.streams.specs.Sinks.{Took};
ghost use Rattle.text.specs.Written.{text_of};
ghost use Rattle.text.specs.declared.printed.Printed.TheVariants.{Accepted, Tape, Totals};
ghost use Rattle.text.specs.Printed.{layer_letter, refused_bytes, printed_bytes, bytes_of};

use crate::line::Line;
use crate::tape::write_tape_line;
use itoa::Buffer;
use market::words::TapeLine;
use streams::sink::Sink;

// Room for a line of the tape.
const ROOM: usize = 64;

// Which layer refused a line.
#[derive(Clone, Copy)]
pub enum Layer {
    Text,
    Session,
    Market,
}

impl Layer {
    fn letter(self) -> u8
        ensures { result ≡ layer_letter self }
    {
        match self {
            Layer::Text => b'T',
            Layer::Session => b'S',
            Layer::Market => b'M',
        }
    }
}

#[derive(Clone, Copy)]
pub enum Printed {
    // an order got this number
    Accepted(u32),
    Tape(TapeLine),
    Refused {
        line: u32,
        layer: Layer,
        number: u32,
        field: u32,
    },
    Totals {
        accepted: u64,
        printed: u64,
        cancelled: u64,
        open: u64,
    },
}

pub(crate) fn refused_line(line: u32, layer: Layer, number: u32, field: u32) -> Line
    ensures { text_of result ≡ refused_bytes line layer number field }
{
    let mut refusal = Line::new(b'!');
    refusal.field(line);
    refusal.letter(layer.letter());
    refusal.field(number);
    refusal.field(field);
    refusal.end();
    refusal
}

fn accepted_line(number: u32) -> Line
    ensures { text_of result ≡ printed_bytes (Accepted number) }
{
    let mut line = Line::new(b'A');
    line.field(number);
    line.end();
    line
}

// One of the totals, behind a tab. They are wider than what a line under construction holds.
fn put_total<K: Sink>(sink: &mut K, total: u64)
    ensures { Took (K.state sink.old) (K.state sink.new) (9 ∷ decimal total) }
{
    sink.put(b"\t");
    sink.put(Buffer::new().format(total).as_bytes());
}

fn put_totals<K: Sink>(sink: &mut K, accepted: u64, printed: u64, cancelled: u64, open: u64)
    ensures { Took (K.state sink.old) (K.state sink.new) (printed_bytes (Totals accepted printed cancelled «open»)) }
{
    sink.put(b"Z");
    put_total(sink, accepted);
    put_total(sink, printed);
    put_total(sink, cancelled);
    put_total(sink, open);
    sink.put(b"\n");
}

// Puts a line of the tape by way of some room.
fn put_tape<K: Sink>(sink: &mut K, line: TapeLine, room: &mut [u8; ROOM])
    ensures { Took (K.state sink.old) (K.state sink.new) (printed_bytes (Tape line)) }
{
    match write_tape_line(line, room) {
        Ok(count) => sink.put(&room[..count]),
        Err(_) => unreachable!(),
    }
}

// Puts a printed line.
pub fn print_line<K: Sink>(sink: &mut K, printed: Printed)
    ensures { Took (K.state sink.old) (K.state sink.new) (printed_bytes printed) }
{
    match printed {
        Printed::Accepted(number) => sink.put(accepted_line(number).as_slice()),
        Printed::Tape(line) => put_tape(sink, line, &mut [0; ROOM]),
        Printed::Refused {
            line,
            layer,
            number,
            field,
        } => sink.put(refused_line(line, layer, number, field).as_slice()),
        Printed::Totals {
            accepted,
            printed,
            cancelled,
            open,
        } => put_totals(sink, accepted, printed, cancelled, open),
    }
}

// Puts lines of the tape, by way of the same room.
pub fn print_tape<K: Sink>(sink: &mut K, lines: &[TapeLine])
    ensures { Took (K.state sink.old) (K.state sink.new) (bytes_of (map Tape lines.now)) }
{
    let mut room = [0; ROOM];
    for line in lines {
        put_tape(sink, *line, &mut room);
    }
}
