// A day file shown line by line, before anything is replayed.
ghost use Rattle.std.specs.Prelude.{◌≡◌, ◌+◌, ◌^◌, ◌<◌, ◌≤◌, length, is_ok, is_err};
ghost use Rattle.streams.specs.Sinks.{Took};
ghost use Rattle.streams.specs.Relays.{Relayed, ShowsAll};
ghost use Rattle.text.specs.Written.{text_of};
ghost use Rattle.text.specs.Cuts.{line_of, rest_of};
ghost use Rattle.text.specs.Reading.{record_in};
ghost use Rattle.text.specs.declared.printed.Layer.TheVariants.{Text};
ghost use Rattle.text.specs.Refusals.{code_of};
ghost use Rattle.text.specs.Printed.{refused_bytes};
ghost use Rattle.text.specs.Inspection.{lines_of, summary_line, shown_as, shown_from, one, good_in, refused_in, inspected};

use crate::line::Line;
use crate::printed::{Layer, refused_line};
use crate::read::read_line;
use crate::refusal::Refusal;
use crate::write::line_of;
use std::io;
use std::io::{Read, Write};
use streams::kept::Kept;
use streams::relay::{Show, relay};
use streams::sink::Sink;
use streams::source::Source;

// The longest input that is read, in bytes.
pub const INPUT_LIMIT: usize = 32_768;

// How many lines hold a record, and how many are refused.
#[derive(Clone, Copy)]
struct Tally {
    good: u32,
    refused: u32,
}

fn refusal_line(number: u32, cause: Refusal, field: u32) -> Line
    ensures { text_of result ≡ refused_bytes number Text (code_of cause) field }
{
    refused_line(number, Layer::Text, cause.code(), field)
}

fn summary_line(tally: Tally) -> Line
    ensures { text_of result ≡ summary_line tally.good tally.refused }
{
    let Tally { good, refused } = tally;
    let mut line = Line::new(b'#');
    line.field(good);
    line.field(refused);
    line.end();
    line
}

// Shows the first line of a text and counts it. Answers what is left.
fn inspect_line<'a, K: Sink>(sink: &mut K, tally: &mut Tally, text: &'a [u8]) -> &'a [u8]
    requires some { 0 < length text.now }
    requires few { tally.old.good + tally.old.refused + 1 < 2 ^ 32 }
    ensures shown { Took (K.state sink.old) (K.state sink.new) (shown_as (tally.old.good + tally.old.refused + 1) (record_in (line_of text.now))) }
    ensures good { tally.new.good ≡ tally.old.good + one (is_ok (record_in (line_of text.now))) }
    ensures refused { tally.new.refused ≡ tally.old.refused + one (is_err (record_in (line_of text.now))) }
    ensures rest { result.now ≡ rest_of text.now }
{
    match read_line(text) {
        Ok(read) => {
            sink.put(line_of(read.record).as_slice());
            tally.good += 1;
            read.rest
        }
        Err(fault) => {
            let number = tally.good + tally.refused + 1;
            sink.put(refusal_line(number, fault.cause, fault.field).as_slice());
            tally.refused += 1;
            &text[fault.next..]
        }
    }
}

// Shows every line of a text, and counts them.
fn inspect_lines<K: Sink>(sink: &mut K, text: &[u8]) -> Tally
    requires { length text.now ≤ 32768 }
    ensures shown { Took (K.state sink.old) (K.state sink.new) (shown_from 1 (lines_of text.now)) }
    ensures good { result.good ≡ good_in (lines_of text.now) }
    ensures refused { result.refused ≡ refused_in (lines_of text.now) }
{
    let mut rest = text;
    let mut tally = Tally {
        good: 0,
        refused: 0,
    };
    while !rest.is_empty() {
        rest = inspect_line(sink, &mut tally, rest);
    }
    tally
}

// Puts everything that is printed of an input: each line or its refusal, and the count of both.
pub fn inspect<K: Sink>(sink: &mut K, text: &[u8])
    ensures { Took (K.state sink.old) (K.state sink.new) (inspected text.now) }
{
    if text.len() > INPUT_LIMIT {
        sink.put(refusal_line(0, Refusal::InputTooLong, 0).as_slice());
        return;
    }
    if text.is_empty() {
        return;
    }
    let tally = inspect_lines(sink, text);
    sink.put(summary_line(tally).as_slice());
}

#[derive(Drop)]
struct Inspection;

impl Show for Inspection {
    ghost shown = { λ _. inspected };

    fn show<K: Sink>(&mut self, text: &[u8], sink: &mut K) {
        inspect(sink, text);
    }
}

// Reads an input and shows it. One byte past the limit tells that there is more.
pub fn inspect_stream<R: Read, W: Write>(source: &mut Kept<R>, sink: &mut Kept<W>) -> io::Result<()>
    ensures relayed { Relayed inspected 32769 (⟦<Kept<R> as Source>⟧.state source.old) (⟦<Kept<R> as Source>⟧.state source.new) (⟦<Kept<W> as Sink>⟧.state sink.old) (⟦<Kept<W> as Sink>⟧.state sink.new) (is_ok result) }
    ensures all { ShowsAll inspected (⟦<Kept<R> as Source>⟧.state source.old) (⟦<Kept<R> as Source>⟧.state source.new) (⟦<Kept<W> as Sink>⟧.state sink.old) (⟦<Kept<W> as Sink>⟧.state sink.new) }
{
    let mut input = [0; INPUT_LIMIT + 1];
    relay(&mut Inspection, source, sink, &mut input)
}
