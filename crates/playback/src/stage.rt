// A day in whichever phase it is, as it is kept.
use stops::stop_file::StopFile;
use trading::day::{ClosedDay, LoadingDay, TradingDay};

pub(crate) mod steps;

#[derive(Drop)]
pub(crate) enum Stage<R, F: StopFile> {
    Load(LoadingDay<R, F>),
    Trade(TradingDay<R, F>),
    Shut(ClosedDay<R, F>),
}
