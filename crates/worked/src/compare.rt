// What was seen of a day against what is expected, and against what was seen of another day.
use crate::seen::{Line, answer_of, line_of, mode_of};
use crate::sessions::Row;
use market::words::TapeLine;
use playback::places::Places;
use playback::reply::View;

fn is_tape(lines: &[TapeLine], expected: &[Line]) -> bool {
    lines.len() == expected.len()
        && lines
            .iter()
            .zip(expected)
            .all(|(line, expected)| line_of(*line) == *expected)
}

// Each call answered and left the day as its row says, and the tape is the expected one.
pub(crate) fn is_as_expected(noted: &Places<'_>, rows: &[Row], tape: &[Line]) -> bool {
    noted.is_whole()
        && noted.replies().len() == rows.len()
        && noted.views().len() == rows.len()
        && noted
            .replies()
            .iter()
            .zip(rows)
            .all(|(reply, row)| answer_of(*reply) == row.1)
        && noted
            .views()
            .iter()
            .zip(rows)
            .all(|(view, row)| mode_of(*view) == row.2)
        && is_tape(noted.tape(), tape)
}

// Both quotes, the pause and the range.
fn is_same_view(one: View, other: View) -> bool {
    one.bid == other.bid && one.offer == other.offer && mode_of(one) == mode_of(other)
}

// The same replies, views and tape.
pub(crate) fn is_same(one: &Places<'_>, other: &Places<'_>) -> bool {
    one.replies().len() == other.replies().len()
        && one.views().len() == other.views().len()
        && one.tape().len() == other.tape().len()
        && one
            .replies()
            .iter()
            .zip(other.replies())
            .all(|(a, b)| answer_of(*a) == answer_of(*b))
        && one
            .views()
            .iter()
            .zip(other.views())
            .all(|(a, b)| is_same_view(*a, *b))
        && one
            .tape()
            .iter()
            .zip(other.tape())
            .all(|(a, b)| line_of(*a) == line_of(*b))
}

// The same lines, but for the shares of cancellations.
pub(crate) fn prints_alike(one: &Places<'_>, other: &Places<'_>) -> bool {
    one.tape().len() == other.tape().len()
        && one
            .tape()
            .iter()
            .zip(other.tape())
            .all(|(a, b)| is_same_print(line_of(*a), line_of(*b)))
}

fn is_same_print(one: Line, other: Line) -> bool {
    match (one, other) {
        (Line::X(a, _), Line::X(b, _)) => a == b,
        _ => one == other,
    }
}
