// The worked examples of refusals that are computed from the definitions (`Examples` of `replay`). Each call stands with the number of free
// lines that it is lent.
use crate::seen::Answer::{Done, Entered, Lines, Number, Refused};
use crate::seen::Line::{self, X};
use crate::seen::Mode::{Going, NoRange};
use crate::sessions::Row;
use crate::steps::Step::{Cancel, Close, Limit, Load, LoadStop, Open, Resume, Set, Stop};
use market::words::Side::{Buy, Sell};

// Calls that are refused, for the first reason that applies, between some that are not.
pub(crate) static FAULTS: [(usize, Row); 25] = [
    (0, Row(Set(4, 'A', 100_001), Refused(31), NoRange)),
    (0, Row(Set(3, 'A', 100_001), Refused(32), NoRange)),
    (0, Row(Set(3, 'H', 100_001), Refused(33), NoRange)),
    (0, Row(Set(3, 'H', 100_000), Done, NoRange)),
    (0, Row(Load(Buy, 1, 100, 50), Refused(42), NoRange)),
    (0, Row(Load(Buy, 1, 100, 1_000_100), Refused(42), NoRange)),
    (0, Row(Load(Buy, 1, 100, 100), Number(1), NoRange)),
    (0, Row(Load(Sell, 1, 100, 1_000_000), Refused(45), NoRange)),
    (0, Row(Load(Sell, 1, 101, 1_000_000), Number(2), NoRange)),
    (0, Row(Load(Sell, 0, 0, 0), Refused(41), NoRange)),
    (0, Row(Load(Sell, 0, 1, 0), Refused(42), NoRange)),
    (0, Row(Load(Sell, 0, 1, 100), Refused(47), NoRange)),
    (0, Row(Resume, Refused(21), NoRange)),
    (0, Row(Open, Done, Going(99_800, 100_200))),
    (0, Row(Resume, Refused(71), Going(99_800, 100_200))),
    (
        3,
        Row(Limit(Buy, 1, 5, 100), Refused(44), Going(99_800, 100_200)),
    ),
    (
        4,
        Row(Limit(Buy, 1, 5, 100), Entered(3, 0), Going(99_800, 100_200)),
    ),
    (0, Row(Cancel(1, 9), Refused(51), Going(99_800, 100_200))),
    (0, Row(Cancel(2, 1), Refused(52), Going(99_800, 100_200))),
    (0, Row(Cancel(1, 1), Refused(44), Going(99_800, 100_200))),
    (1, Row(Cancel(1, 1), Lines(1), Going(99_800, 100_200))),
    (1, Row(Cancel(1, 1), Refused(53), Going(99_800, 100_200))),
    (0, Row(Set(1, 'L', 0), Refused(21), Going(99_800, 100_200))),
    (0, Row(Close, Done, Going(99_800, 100_200))),
    (0, Row(Close, Refused(21), Going(99_800, 100_200))),
];

pub(crate) static FAULTS_TAPE: [Line; 1] = [X(1, 100)];

// With a stop file of one place.
pub(crate) static FILE_FULL: [(usize, Row); 5] = [
    (0, Row(LoadStop(Buy, 1, 100, 100), Number(1), NoRange)),
    (0, Row(LoadStop(Buy, 1, 100, 100), Refused(46), NoRange)),
    (0, Row(Open, Done, NoRange)),
    (8, Row(Stop(Sell, 1, 100, 100), Refused(46), NoRange)),
    (8, Row(Limit(Sell, 1, 100, 100), Entered(2, 0), NoRange)),
];
