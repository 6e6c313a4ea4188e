// What is lent to a session: as much as the longest takes.
use crate::sessions::Row;
use market::words::{Side, Stop, TapeLine};
use playback::call::Call;
use playback::reply::{CallRefusal, Reply, View};

pub(crate) const MOST_CALLS: usize = 515;

const MOST_LINES: usize = 16;

pub(crate) const NO_STOP: Stop = Stop {
    number: 0,
    side: Side::Buy,
    price: 0,
    shares: 0,
};

pub(crate) const NO_LINE: TapeLine = TapeLine::Elect { order: 0 };

const NO_VIEW: View = View {
    bid: None,
    offer: None,
    paused: false,
    range: None,
};

// Memory for what comes of a session.
#[derive(Drop)]
pub(crate) struct Memory {
    pub(crate) replies: [Result<Reply, CallRefusal>; MOST_CALLS],
    pub(crate) views: [View; MOST_CALLS],
    pub(crate) tape: [TapeLine; MOST_LINES],
}

impl Memory {
    pub(crate) fn new() -> Memory {
        Memory {
            replies: [Ok(Reply::Done); MOST_CALLS],
            views: [NO_VIEW; MOST_CALLS],
            tape: [NO_LINE; MOST_LINES],
        }
    }
}

// The calls of a session, written to the front of a slice.
pub(crate) fn calls_of<'a>(rows: &[Row], calls: &'a mut [Call]) -> &'a [Call] {
    for (call, row) in calls.iter_mut().zip(rows) {
        *call = row.0.call();
    }
    let count = rows.len().min(calls.len());
    &calls[..count]
}
