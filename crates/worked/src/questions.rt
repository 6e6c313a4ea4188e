// What is asked of a day after one of its calls, with the answer that is expected.
use market::words::{Place, Side};
use trading::board::Board;

#[derive(Clone, Copy)]
pub(crate) enum Question {
    // an order, where its open shares are, and how many
    Open(u32, Place, u32),
    // the best price and all shares there
    Bid(Option<(u32, u32)>),
    Offer(Option<(u32, u32)>),
    // accepted, printed, cancelled and open shares
    Totals(u64, u64, u64, u64),
}

// The index of the call, and the question.
#[derive(Clone, Copy)]
pub(crate) struct Asked(pub(crate) usize, pub(crate) Question);

fn is_order(board: &Board, number: u32, place: Place, open: u32) -> bool {
    match board.order(number) {
        Ok(found) => found.place == place && found.open == open,
        Err(_) => false,
    }
}

fn is_answered(board: &Board, question: Question) -> bool {
    match question {
        Question::Open(number, place, open) => is_order(board, number, place, open),
        Question::Bid(quote) => board.quote(Side::Buy) == quote,
        Question::Offer(quote) => board.quote(Side::Sell) == quote,
        Question::Totals(accepted, printed, cancelled, open) => {
            let totals = board.totals();
            totals.accepted == accepted
                && totals.printed == printed
                && totals.cancelled == cancelled
                && totals.open == open
        }
    }
}

// All that is asked after the call of that index is answered as expected.
pub(crate) fn are_answered(board: &Board, asked: &[Asked], index: usize) -> bool {
    asked.iter().all(|Asked(after, question)| *after != index || is_answered(board, *question))
}
