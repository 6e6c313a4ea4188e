// What is printed of a line's turn: the reply, then the lines of the tape, then the totals if the day has just closed.
ghost use Rattle.std.specs.Prelude.{◌≡◌, ◌≤◌, cond, [], ◌∷◌, length};
ghost use Rattle.streams.specs.Sinks.{Took};
ghost use Rattle.text.specs.Printed.{bytes_of};
ghost use Rattle.replay.specs.Days.{Closed};
ghost use Rattle.replay.specs.Questions.{totals};
ghost use Rattle.trading.specs.Boards.{day_of};
ghost use Rattle.session.specs.Transcripts.{totals_line};
ghost use Rattle.session.specs.Turns.{first_said, lines_in, shown};

use crate::fault::{Cause, Fault};
use market::words::TapeLine;
use playback::reply::Reply;
use streams::sink::Sink;
use text::printed::{Printed, print_line, print_tape};
use trading::board::Board;

// The reply to a line, or its refusal: here the line gets its number.
fn show_reply<K: Sink>(sink: &mut K, line: u32, reply: Result<Reply, Cause>)
    ensures { Took (K.state sink.old) (K.state sink.new) (bytes_of (first_said line reply)) }
{
    match reply {
        Ok(Reply::Done | Reply::Lines(_)) => {}
        Ok(Reply::Number(number)) => print_line(sink, Printed::Accepted(number)),
        Ok(Reply::Entered(receipt)) => print_line(sink, Printed::Accepted(receipt.number)),
        Err(cause) => print_line(sink, Fault { line, cause }.printed()),
    }
}

// The totals, if the day has just closed.
fn show_totals<K: Sink>(sink: &mut K, closed: bool, board: &Board)
    ensures { Took (K.state sink.old) (K.state sink.new) (bytes_of (cond closed (totals_line (totals (day_of Closed board.now)) ∷ []) [])) }
{
    if closed {
        let totals = board.totals();
        print_line(
            sink,
            Printed::Totals {
                accepted: totals.accepted,
                printed: totals.printed,
                cancelled: totals.cancelled,
                open: totals.open,
            },
        );
    }
}

fn lines_written(reply: Result<Reply, Cause>) -> usize
    ensures { result ≡ lines_in reply }
{
    reply.map_or(0, Reply::lines)
}

// The reply to a line, the lines that its call wrote into those that it was lent, and the totals of a day that it closed.
pub(crate) fn show<K: Sink>(
    sink: &mut K,
    line: u32,
    reply: Result<Reply, Cause>,
    lines: &[TapeLine],
    closed: bool,
    board: &Board,
)
    requires { lines_in reply ≤ length lines.now }
    ensures { Took (K.state sink.old) (K.state sink.new) (bytes_of (shown line reply lines.now closed (totals (day_of Closed board.now)))) }
{
    show_reply(sink, line, reply);
    print_tape(sink, &lines[..lines_written(reply)]);
    show_totals(sink, closed, board);
}
