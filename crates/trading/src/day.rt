// A day in one of its three phases: what leads to the next phase uses up the day that it is given.
ghost use Rattle.std.specs.Prelude.{◌≡◌, length, refl};
ghost use Rattle.replay.specs.Days as days;
ghost use Rattle.replay.specs.Days.{Phase as PhaseOf};
ghost use Rattle.trading.specs.Deeds.{Filed};

use crate::board::Board;
use crate::board::checks::Space;
use stops::stop_file::StopFile;

// A phase of a day.
pub trait Phase: Copy {
    ghost phase: { PhaseOf };
}

// A phase in which class, column and last sale are set and orders are loaded.
pub trait BeforeOpen: Phase {
    ghost loading: { Self.phase ≡ days.Loading };
}

// A phase in which orders are entered and cancelled, and run.
pub trait WhileOpen: Phase {
    ghost trading: { Self.phase ≡ days.Trading };
}

#[derive(Clone, Copy)]
pub struct Loading;

#[derive(Clone, Copy)]
pub struct Trading;

// Only questions are left.
#[derive(Clone, Copy)]
pub struct Closed;

impl Phase for Loading {
    ghost phase = { days.Loading };
}

impl Phase for Trading {
    ghost phase = { days.Trading };
}

impl Phase for Closed {
    ghost phase = { days.Closed };
}

impl BeforeOpen for Loading {
    ghost loading = { refl };
}

impl WhileOpen for Trading {
    ghost trading = { refl };
}

// A day in phase P, which says which calls it takes. The stop file lists the stops of the roll that are filed.
#[derive(Drop)]
pub struct Day<P, R, F: StopFile> {
    pub(crate) phase: P,
    pub(crate) board: Board,
    pub(crate) rule: R,
    pub(crate) file: F,
    ghost filed: { Filed (F.StopFile.stops file) board },
}

pub type LoadingDay<R, F> = Day<Loading, R, F>;

pub type TradingDay<R, F> = Day<Trading, R, F>;

pub type ClosedDay<R, F> = Day<Closed, R, F>;

impl<P, R, F: StopFile> Day<P, R, F> {
    // What questions may be put to on any day.
    pub fn board(&self) -> &Board
        ensures { result.now ≡ self.now.board }
    {
        &self.board
    }

    // What a call finds free that is lent so many lines.
    pub(crate) fn space(&self, free: usize) -> Space
        ensures filed { result.filed ≡ length (F.StopFile.stops self.now.file) }
        ensures room { result.room ≡ F.StopFile.room self.now.file }
        ensures free { result.free ≡ free }
    {
        Space {
            filed: self.file.count(),
            room: self.file.capacity(),
            free,
        }
    }
}
