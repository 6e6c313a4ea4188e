// What a call answers or is refused for, and what is seen of the day after it.
ghost use Rattle.std.specs.Prelude.{◌≡◌};
ghost use Rattle.replay.specs.Days.{Phase};
ghost use Rattle.trading.specs.Boards.{day_of};
ghost use Rattle.playback.specs.Replies.{lines_in, number_of};
ghost use Rattle.playback.specs.declared.reply.CallRefusal.TheVariants.{Market};
ghost use Rattle.playback.specs.Views.{view_of};

use market::refusal::Refusal;
use market::words::{Range, Side};
use trading::answer::Receipt;
use trading::board::Board;

#[derive(Clone, Copy)]
pub enum Reply {
    Done,
    // the number of an order
    Number(u32),
    // how many lines were written
    Lines(usize),
    // both
    Entered(Receipt),
}

impl Reply {
    // How many lines the call wrote.
    pub fn lines(self) -> usize
        ensures { result ≡ lines_in self }
    {
        match self {
            Reply::Done | Reply::Number(_) => 0,
            Reply::Lines(lines) => lines,
            Reply::Entered(receipt) => receipt.lines,
        }
    }
}

#[derive(Clone, Copy)]
pub enum CallRefusal {
    // the call does not belong to the phase of the day
    OtherPhase,
    // the market refuses it
    Market(Refusal),
}

// The number of a call that does not belong to the phase of the day.
pub const OTHER_PHASE: u32 = 21;

impl From<Refusal> for CallRefusal {
    ghost from_gives = { λ refusal whole. whole ≡ Market refusal };

    fn from(refusal: Refusal) -> CallRefusal {
        Self::Market(refusal)
    }
}

impl CallRefusal {
    pub fn number(self) -> u32
        ensures { result ≡ number_of self }
    {
        match self {
            CallRefusal::OtherPhase => OTHER_PHASE,
            CallRefusal::Market(refusal) => refusal.number(),
        }
    }
}

// Both quotes, whether trading is paused, and the range in force.
#[derive(Clone, Copy)]
pub struct View {
    pub bid: Option<(u32, u32)>,
    pub offer: Option<(u32, u32)>,
    pub paused: bool,
    pub range: Option<Range>,
}

impl View {
    // What is seen of a board.
    pub fn of(board: &Board) -> View
        ensures { (f : Phase) → result ≡ view_of (day_of f board.now) }
    {
        View {
            bid: board.quote(Side::Buy),
            offer: board.quote(Side::Sell),
            paused: board.is_paused(),
            range: board.range(),
        }
    }
}
