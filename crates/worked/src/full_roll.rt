// Days on which 512 orders are accepted and the next is refused.
use crate::seen::Answer::{Done, Entered, Number, Refused};
use crate::seen::Mode::NoRange;
use crate::sessions::Row;
use crate::steps::Step::{Limit, Load, Open};
use market::words::Side::Buy;

// All are loaded, one more is refused, and so is one entered after the opening.
pub(crate) fn loaded() -> [Row; 515] {
    let mut rows = [Row(Load(Buy, 1, 2000, 100), Refused(43), NoRange); 515];
    for (row, number) in rows.iter_mut().zip(1..513) {
        *row = Row(Load(Buy, 1, 2000, 100), Number(number), NoRange);
    }
    rows[513] = Row(Open, Done, NoRange);
    rows[514] = Row(Limit(Buy, 1, 2000, 100), Refused(43), NoRange);
    rows
}

// All are entered after the opening, and one more is refused.
pub(crate) fn entered() -> [Row; 514] {
    let mut rows = [Row(Limit(Buy, 1, 2000, 100), Refused(43), NoRange); 514];
    for (row, number) in rows.iter_mut().zip(0..513) {
        *row = Row(Limit(Buy, 1, 2000, 100), Entered(number, 0), NoRange);
    }
    rows[0] = Row(Open, Done, NoRange);
    rows
}
