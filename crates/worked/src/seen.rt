// What is seen of a day, in few words that can be compared.
use market::words::{Range, TapeLine};
use playback::reply::{CallRefusal, Reply, View};

#[derive(Clone, Copy, PartialEq, Eq)]
pub(crate) enum Answer {
    Done,
    Number(u32),
    Lines(usize),
    // number and lines
    Entered(u32, usize),
    Refused(u32),
}

// A line of the tape, by its letter.
#[derive(Clone, Copy, PartialEq, Eq)]
pub(crate) enum Line {
    // who ran, at which price, how many shares, and the ends of the range
    P(u32, u32, u32, u32, u32),
    // order, shares
    X(u32, u32),
    E(u32),
    // price, shares
    F(u32, u32),
}

// The ends of the range, if there is one, and whether trading is paused.
#[derive(Clone, Copy, PartialEq, Eq)]
pub(crate) enum Mode {
    NoRange,
    Going(u32, u32),
    Paused(u32, u32),
}

pub(crate) fn answer_of(reply: Result<Reply, CallRefusal>) -> Answer {
    match reply {
        Ok(Reply::Done) => Answer::Done,
        Ok(Reply::Number(number)) => Answer::Number(number),
        Ok(Reply::Lines(lines)) => Answer::Lines(lines),
        Ok(Reply::Entered(receipt)) => Answer::Entered(receipt.number, receipt.lines),
        Err(refusal) => Answer::Refused(refusal.number()),
    }
}

pub(crate) fn line_of(line: TapeLine) -> Line {
    match line {
        TapeLine::Print {
            order,
            price,
            shares,
            low,
            high,
        } => Line::P(order, price, shares, low, high),
        TapeLine::Cancel { order, shares } => Line::X(order, shares),
        TapeLine::Elect { order } => Line::E(order),
        TapeLine::Floor { price, shares } => Line::F(price, shares),
    }
}

pub(crate) fn mode_of(view: View) -> Mode {
    match view.range {
        None => Mode::NoRange,
        Some(Range { low, high }) if view.paused => Mode::Paused(low, high),
        Some(Range { low, high }) => Mode::Going(low, high),
    }
}
