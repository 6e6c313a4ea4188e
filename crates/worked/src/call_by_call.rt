// A session is put call by call to a day, under both rules and with both stop files.
use crate::lent::{NO_LINE, NO_STOP};
use crate::questions::{Asked, are_answered};
use crate::replays::verdict;
use crate::seen::{Line, answer_of, line_of, mode_of};
use crate::sessions::{Row, Session};
use market::words::TapeLine;
use playback::reached::ReachedDay;
use playback::reply::{Reply, View};
use sharing::rotation::Rotation;
use sharing::rule::ShareOut;
use sharing::time_priority::TimePriority;
use std::io;
use stops::arrival::ArrivalFile;
use stops::stop_file::StopFile;
use stops::tables::PriceFile;

// The lines that a call wrote are the next of the tape, and what the tape has beyond them.
fn is_next<'a>(written: &[TapeLine], tape: &'a [Line]) -> Option<&'a [Line]> {
    let next = tape.get(..written.len())?;
    let same = written
        .iter()
        .zip(next)
        .all(|(line, expected)| line_of(*line) == *expected);
    if same {
        tape.get(written.len()..)
    } else {
        None
    }
}

// A call answers and leaves the day as its row says, and writes the next lines of the tape: what the tape has beyond them.
pub(crate) fn put_row<'a, R: ShareOut, F: StopFile>(
    day: &mut ReachedDay<R, F>,
    row: Row,
    tape: &'a [Line],
    lines: &mut [TapeLine],
) -> Option<&'a [Line]> {
    let Row(step, answer, mode) = row;
    let reply = day.put(step.call(), lines);
    let written = lines.get(..reply.map_or(0, Reply::lines))?;
    let beyond = is_next(written, tape)?;
    if answer_of(reply) == answer && mode_of(View::of(day.board())) == mode {
        Some(beyond)
    } else {
        None
    }
}

// Each call goes as its row says, and what is asked after it is answered as expected; none is asked after a call that is not there.
fn goes_as_expected<R: ShareOut, F: StopFile>(
    day: &mut ReachedDay<R, F>,
    session: &Session<'_>,
    tape: &[Line],
    lines: &mut [TapeLine],
) -> bool {
    let mut rest = tape;
    for (index, row) in session.rows.iter().enumerate() {
        let Some(beyond) = put_row(day, *row, rest, lines) else {
            return false;
        };
        rest = beyond;
        if !are_answered(day.board(), session.asked, index) {
            return false;
        }
    }
    let calls = session.rows.len();
    rest.is_empty() && session.asked.iter().all(|Asked(after, _)| *after < calls)
}

// With either stop file; the lines suffice for any call.
fn goes_with_both<R: ShareOut + Copy + Drop>(
    rule: R,
    session: &Session<'_>,
    tape: &[Line],
) -> bool {
    let mut slots = [NO_STOP; 512];
    let mut lines = [NO_LINE; 2049];
    let mut arrival = ReachedDay::begin(rule, ArrivalFile::new(&mut slots));
    let mut price = ReachedDay::begin(rule, PriceFile::new());
    goes_as_expected(&mut arrival, session, tape, &mut lines)
        && goes_as_expected(&mut price, session, tape, &mut lines)
}

pub(crate) fn show(rt: &impl Print, session: &Session<'_>) -> io::Result<()> {
    let good = goes_with_both(TimePriority, session, session.by_time)
        && goes_with_both(Rotation, session, session.by_turns);
    println!(rt; "{}, call by call: {}", session.name, verdict(good))
}

// With few slots for stops and few lines, by arrival alone.
pub(crate) fn show_narrow(rt: &impl Print, session: &Session<'_>) -> io::Result<()> {
    let mut slots = [NO_STOP; 2];
    let mut lines = [NO_LINE; 11];
    let mut day = ReachedDay::begin(TimePriority, ArrivalFile::new(&mut slots));
    let good = goes_as_expected(&mut day, session, session.by_time, &mut lines);
    println!(rt; "{}, call by call: {}", session.name, verdict(good))
}
