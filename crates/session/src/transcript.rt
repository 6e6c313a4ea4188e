// Everything that is printed of a text: a new day is begun, and each line is put to it.
ghost use Rattle.std.specs.Prelude.{◌≡◌, ◌≤◌, map, length};
ghost use Rattle.streams.specs.Sinks.{Took};
ghost use Rattle.text.specs.Printed.{bytes_of};
ghost use Rattle.replay.specs.Days.{new_day};
ghost use Rattle.session.specs.Faults.{refused};
ghost use Rattle.playback.specs.Stages.{call_of};
ghost use Rattle.playback.specs.Lent.{lent};
ghost use Rattle.session.specs.Hearing.{heard, calls_among};
ghost use Rattle.session.specs.Laws.{TextLaws};
ghost use Rattle.session.specs.Transcripts.{too_long, printed, transcript, lines_after};

use crate::fault::{Cause, Fault};
use crate::hearing::first_line;
use crate::showing::show;
use crate::turn::{is_closed, just_closed, put_line};
use market::words::TapeLine;
use playback::reached::ReachedDay;
use sharing::rule::ShareOut;
use stops::stop_file::StopFile;
use streams::sink::Sink;
use text::inspection::INPUT_LIMIT;
use text::printed::print_line;
use text::read::Fault as TextFault;
use text::refusal::Refusal;

// A text that is longer than what is read is refused whole: no line follows.
fn too_long(text: &[u8]) -> Fault
    ensures { refused result ≡ too_long }
{
    Fault {
        line: 0,
        cause: Cause::Text(TextFault {
            cause: Refusal::InputTooLong,
            field: 0,
            next: text.len(),
        }),
    }
}

// Puts each line of a text to a new day and prints what comes of it.
fn play<R: ShareOut + Drop, F: StopFile + Drop, K: Sink>(
    rule: R,
    file: F,
    lines: &mut [TapeLine],
    text: &[u8],
    sink: &mut K,
)
    requires { length text.now ≤ 32768 }
    ensures printed { Took (K.state sink.old) (K.state sink.new) (bytes_of (printed (R.ShareOut.gifts rule) (F.StopFile.room file) (length lines.old) 1 new_day (heard text.now))) }
    ensures lines { lines.new ≡ lent (R.ShareOut.gifts rule) (F.StopFile.room file) new_day (map (call_of (length lines.old)) (calls_among (heard text.now))) lines.old }
{
    let mut day = ReachedDay::begin(rule, file);
    let mut rest = text;
    let mut line = 0;
    while !rest.is_empty() {
        line += 1;
        let first = first_line(rest);
        let was_closed = is_closed(&day);
        let reply = put_line(&mut day, first.record, lines);
        let closed = just_closed(was_closed, &day);
        show(sink, line, reply, lines, closed, day.board());
        rest = first.rest;
    }
}

// Prints the transcript of a text, for a day with this rule and stop file whose calls are each lent these lines.
pub fn transcript<R: ShareOut + Drop, F: StopFile + Drop, K: Sink>(
    rule: R,
    file: F,
    lines: &mut [TapeLine],
    text: &[u8],
    sink: &mut K,
)
    ensures printed { Took (K.state sink.old) (K.state sink.new) (bytes_of (transcript (R.ShareOut.gifts rule) (F.StopFile.room file) (length lines.old) text.now)) }
    ensures lines { lines.new ≡ lines_after (R.ShareOut.gifts rule) (F.StopFile.room file) (length lines.old) text.now lines.old }
    ensures laws { TextLaws (R.ShareOut.gifts rule) (F.StopFile.room file) (length lines.old) text.now }
{
    if text.len() > INPUT_LIMIT {
        print_line(sink, too_long(text).printed());
    } else {
        play(rule, file, lines, text, sink);
    }
}
