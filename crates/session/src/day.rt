// A day as the program replays it.
ghost use Rattle.std.specs.Prelude.{ℕ, List, is_ok};
ghost use Rattle.streams.specs.Sinks.{Took};
ghost use Rattle.streams.specs.Relays.{Relayed, ShowsAll};
ghost use Rattle.sharing.specs.Turns.{by_time};
ghost use Rattle.session.specs.Laws.{TextLaws};
ghost use Rattle.session.specs.Transcripts.{day_shown};

use crate::transcript::transcript;
use market::words::{Side, Stop, TapeLine};
use sharing::time_priority::TimePriority;
use std::io;
use std::io::{Read, Write};
use stops::arrival::ArrivalFile;
use streams::kept::Kept;
use streams::relay::{Show, relay};
use streams::sink::Sink;
use streams::source::Source;
use text::inspection::INPUT_LIMIT;

// As many as the roll has places.
const STOP_SLOTS: usize = 512;

// No call of a day can come to more.
const TAPE_LINES: usize = 2_049;

const NO_STOP: Stop = Stop {
    number: 0,
    side: Side::Buy,
    price: 0,
    shares: 0,
};

// Prints the transcript of a text by time priority, with stops filed by arrival and 2,049 lines lent to each call.
pub fn replay_day<K: Sink>(text: &[u8], sink: &mut K)
    ensures printed { Took (K.state sink.old) (K.state sink.new) (day_shown text.now) }
    ensures laws { TextLaws by_time 512 2049 text.now }
{
    let mut slots = [NO_STOP; STOP_SLOTS];
    let mut lines = [TapeLine::Elect { order: 0 }; TAPE_LINES];
    transcript(
        TimePriority,
        ArrivalFile::new(&mut slots),
        &mut lines,
        text,
        sink,
    );
}

#[derive(Drop)]
struct ProgramDay;

impl Show for ProgramDay {
    ghost shown = { λ _. day_shown };

    fn show<K: Sink>(&mut self, text: &[u8], sink: &mut K) {
        replay_day(text, sink);
    }
}

// Reads a day file and prints its transcript. One byte past the limit tells that there is more.
pub fn replay_stream<R: Read, W: Write>(source: &mut Kept<R>, sink: &mut Kept<W>) -> io::Result<()>
    ensures relayed { Relayed day_shown 32769 (⟦<Kept<R> as Source>⟧.state source.old) (⟦<Kept<R> as Source>⟧.state source.new) (⟦<Kept<W> as Sink>⟧.state sink.old) (⟦<Kept<W> as Sink>⟧.state sink.new) (is_ok result) }
    ensures all { ShowsAll day_shown (⟦<Kept<R> as Source>⟧.state source.old) (⟦<Kept<R> as Source>⟧.state source.new) (⟦<Kept<W> as Sink>⟧.state sink.old) (⟦<Kept<W> as Sink>⟧.state sink.new) }
    ensures laws { (text : List ℕ) → TextLaws by_time 512 2049 text }
{
    let mut input = [0; INPUT_LIMIT + 1];
    relay(&mut ProgramDay, source, sink, &mut input)
}
