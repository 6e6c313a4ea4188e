// Calls are put to a day one by one, and each is lent as many lines as stand before it.
use crate::call_by_call::put_row;
use crate::faults::{FAULTS, FAULTS_TAPE, FILE_FULL};
use crate::lent::{NO_LINE, NO_STOP};
use crate::replays::verdict;
use crate::seen::Line;
use crate::sessions::Row;
use market::words::TapeLine;
use playback::reached::ReachedDay;
use sharing::rotation::Rotation;
use sharing::rule::ShareOut;
use sharing::time_priority::TimePriority;
use std::io;
use stops::arrival::ArrivalFile;
use stops::stop_file::StopFile;
use stops::tables::PriceFile;

fn goes_as_expected<R: ShareOut, F: StopFile>(
    day: &mut ReachedDay<R, F>,
    rows: &[(usize, Row)],
    tape: &[Line],
    lines: &mut [TapeLine],
) -> bool {
    let mut rest = tape;
    for (free, row) in rows {
        let Some(lent) = lines.get_mut(..*free) else {
            return false;
        };
        let Some(beyond) = put_row(day, *row, rest, lent) else {
            return false;
        };
        rest = beyond;
    }
    rest.is_empty()
}

fn faults_with_both<R: ShareOut + Copy + Drop>(rule: R) -> bool {
    let mut slots = [NO_STOP; 512];
    let mut lines = [NO_LINE; 4];
    let mut arrival = ReachedDay::begin(rule, ArrivalFile::new(&mut slots));
    let mut price = ReachedDay::begin(rule, PriceFile::new());
    goes_as_expected(&mut arrival, &FAULTS, &FAULTS_TAPE, &mut lines)
        && goes_as_expected(&mut price, &FAULTS, &FAULTS_TAPE, &mut lines)
}

// By arrival alone: the file by price has room for 512 stops.
fn file_is_full<R: ShareOut + Copy + Drop>(rule: R) -> bool {
    let mut slots = [NO_STOP; 1];
    let mut lines = [NO_LINE; 8];
    let mut day = ReachedDay::begin(rule, ArrivalFile::new(&mut slots));
    goes_as_expected(&mut day, &FILE_FULL, &[], &mut lines)
}

pub(crate) fn show(rt: &impl Print) -> io::Result<()> {
    let faults = faults_with_both(TimePriority) && faults_with_both(Rotation);
    println!(rt;
        "the first reason that applies, call by call: {}",
        verdict(faults)
    )?;
    let full = file_is_full(TimePriority) && file_is_full(Rotation);
    println!(rt; "a stop file of 1, call by call: {}", verdict(full))
}
