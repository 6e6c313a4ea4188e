// The worked examples that are computed from the definitions (`Examples` of `replay`), as sessions: what comes in while trading is paused,
// and what then ends the pause.
use crate::questions::{Asked, Question};
use crate::seen::Answer::{Done, Entered, Lines, Number};
use crate::seen::Line::{self, E, F, P, X};
use crate::seen::Mode::{Going, NoRange, Paused};
use crate::sessions::{Row, Session};
use crate::steps::Step::{
    AtOnce, Cancel, Floor, Limit, Load, LoadStop, Market, Open, Resume, Set, Stop,
};
use market::words::Place;
use market::words::Side::{Buy, Sell};

// Stops filed in a pause, though the last sale, 2012, already reaches both. Resume elects nobody; the next print, at 2015, elects both: the
// buy stop takes the other half of the offer, the sell stop meets nobody.
const PRINT_LATER: [Row; 10] = [
    Row(Set(2, 'L', 2010), Done, NoRange),
    Row(Load(Sell, 1, 2012, 100), Number(1), NoRange),
    Row(Load(Sell, 1, 2030, 100), Number(2), NoRange),
    Row(Open, Done, Going(2000, 2020)),
    Row(AtOnce(Buy, 2, 2030, 200), Entered(3, 2), Paused(2000, 2020)),
    Row(Stop(Buy, 3, 2005, 100), Entered(4, 0), Paused(2000, 2020)),
    Row(Stop(Sell, 3, 2015, 100), Entered(5, 0), Paused(2000, 2020)),
    Row(Resume, Lines(0), Going(2002, 2022)),
    Row(Limit(Sell, 1, 2015, 200), Entered(6, 0), Going(2002, 2022)),
    Row(Market(Buy, 2, 100), Entered(7, 5), Going(2002, 2022)),
];

const PRINT_LATER_TAPE: [Line; 7] = [
    P(3, 2012, 100, 2000, 2020),
    X(3, 100),
    P(7, 2015, 100, 2002, 2022),
    E(4),
    E(5),
    P(4, 2015, 100, 2002, 2022),
    X(5, 100),
];

const PRINT_LATER_ASKED: [Asked; 4] = [
    Asked(7, Question::Open(4, Place::StopFile, 100)),
    Asked(7, Question::Open(5, Place::StopFile, 100)),
    Asked(9, Question::Open(6, Place::Nowhere, 0)),
    Asked(9, Question::Totals(900, 300, 200, 100)),
];

// A floor trade at 2004 elects the sell stop alone. One at 2005 elects the buy stop too, which waits: the offer is out of the new range.
const FLOOR_LATER: [Row; 10] = [
    Row(Set(2, 'L', 2010), Done, NoRange),
    Row(Load(Sell, 1, 2012, 100), Number(1), NoRange),
    Row(Load(Sell, 1, 2030, 100), Number(2), NoRange),
    Row(Open, Done, Going(2000, 2020)),
    Row(AtOnce(Buy, 2, 2030, 200), Entered(3, 2), Paused(2000, 2020)),
    Row(Stop(Buy, 3, 2005, 100), Entered(4, 0), Paused(2000, 2020)),
    Row(Stop(Sell, 3, 2015, 100), Entered(5, 0), Paused(2000, 2020)),
    Row(Resume, Lines(0), Going(2002, 2022)),
    Row(Floor(2004, 100), Lines(3), Going(1994, 2014)),
    Row(Floor(2005, 100), Lines(2), Paused(1995, 2015)),
];

const FLOOR_LATER_TAPE: [Line; 7] = [
    P(3, 2012, 100, 2000, 2020),
    X(3, 100),
    F(2004, 100),
    E(5),
    X(5, 100),
    F(2005, 100),
    E(4),
];

const FLOOR_LATER_ASKED: [Asked; 3] = [
    Asked(8, Question::Open(4, Place::StopFile, 100)),
    Asked(9, Question::Open(4, Place::Line, 100)),
    Asked(9, Question::Totals(600, 100, 200, 200)),
];

// Sells of three kinds, each entered in a pause, and each of which would trade at the bid. After Resume the residual, first in line, still
// finds its offer out of range, and trading is paused again.
const SELLS_RESUMED: [Row; 10] = [
    Row(Set(2, 'L', 2010), Done, NoRange),
    Row(Load(Buy, 1, 2010, 200), Number(1), NoRange),
    Row(Load(Sell, 2, 2012, 100), Number(2), NoRange),
    Row(Load(Sell, 3, 2030, 300), Number(3), NoRange),
    Row(Open, Done, Going(2000, 2020)),
    Row(Market(Buy, 4, 300), Entered(4, 1), Paused(2000, 2020)),
    Row(Limit(Sell, 5, 2010, 100), Entered(5, 0), Paused(2000, 2020)),
    Row(Market(Sell, 6, 100), Entered(6, 0), Paused(2000, 2020)),
    Row(
        AtOnce(Sell, 7, 2010, 100),
        Entered(7, 1),
        Paused(2000, 2020),
    ),
    Row(Resume, Lines(0), Paused(2002, 2022)),
];

const SELLS_RESUMED_TAPE: [Line; 2] = [P(4, 2012, 100, 2000, 2020), X(7, 100)];

const SELLS_RESUMED_ASKED: [Asked; 9] = [
    Asked(8, Question::Open(4, Place::Line, 200)),
    Asked(8, Question::Open(5, Place::Line, 100)),
    Asked(8, Question::Open(6, Place::Line, 100)),
    Asked(8, Question::Bid(Some((2010, 200)))),
    Asked(8, Question::Offer(Some((2030, 300)))),
    Asked(9, Question::Open(4, Place::Line, 200)),
    Asked(9, Question::Open(5, Place::Line, 100)),
    Asked(9, Question::Open(6, Place::Line, 100)),
    Asked(9, Question::Totals(1200, 100, 100, 900)),
];

// With the residual cancelled a sell is first in line; nobody runs until Resume. The last sell finds no bid and rests.
const SELLS_FIRST_RESUMED: [Row; 12] = [
    Row(Set(2, 'L', 2010), Done, NoRange),
    Row(Load(Buy, 1, 2010, 200), Number(1), NoRange),
    Row(Load(Sell, 2, 2012, 100), Number(2), NoRange),
    Row(Load(Sell, 3, 2030, 300), Number(3), NoRange),
    Row(Open, Done, Going(2000, 2020)),
    Row(Market(Buy, 4, 300), Entered(4, 1), Paused(2000, 2020)),
    Row(Limit(Sell, 5, 2010, 100), Entered(5, 0), Paused(2000, 2020)),
    Row(Market(Sell, 6, 100), Entered(6, 0), Paused(2000, 2020)),
    Row(
        AtOnce(Sell, 7, 2010, 100),
        Entered(7, 1),
        Paused(2000, 2020),
    ),
    Row(Cancel(4, 4), Lines(1), Paused(2000, 2020)),
    Row(Limit(Sell, 8, 2010, 100), Entered(8, 0), Paused(2000, 2020)),
    Row(Resume, Lines(2), Going(2002, 2022)),
];

const SELLS_FIRST_RESUMED_TAPE: [Line; 5] = [
    P(4, 2012, 100, 2000, 2020),
    X(7, 100),
    X(4, 200),
    P(5, 2010, 100, 2002, 2022),
    P(6, 2010, 100, 2002, 2022),
];

const SELLS_FIRST_RESUMED_ASKED: [Asked; 5] = [
    Asked(10, Question::Open(8, Place::Line, 100)),
    Asked(10, Question::Bid(Some((2010, 200)))),
    Asked(11, Question::Open(8, Place::Book, 100)),
    Asked(11, Question::Offer(Some((2010, 100)))),
    Asked(11, Question::Totals(1300, 300, 300, 400)),
];

// A floor trade brings the offer into range. Who waits gives nothing: the residual trades with the offer alone, then the sells with the bid.
const SELLS_RUN: [Row; 10] = [
    Row(Set(2, 'L', 2010), Done, NoRange),
    Row(Load(Buy, 1, 2010, 200), Number(1), NoRange),
    Row(Load(Sell, 2, 2012, 100), Number(2), NoRange),
    Row(Load(Sell, 3, 2030, 300), Number(3), NoRange),
    Row(Open, Done, Going(2000, 2020)),
    Row(Market(Buy, 4, 300), Entered(4, 1), Paused(2000, 2020)),
    Row(Limit(Sell, 5, 2010, 100), Entered(5, 0), Paused(2000, 2020)),
    Row(Market(Sell, 6, 100), Entered(6, 0), Paused(2000, 2020)),
    Row(
        AtOnce(Sell, 7, 2010, 100),
        Entered(7, 1),
        Paused(2000, 2020),
    ),
    Row(Floor(2020, 100), Lines(4), Going(2010, 2030)),
];

const SELLS_RUN_TAPE: [Line; 6] = [
    P(4, 2012, 100, 2000, 2020),
    X(7, 100),
    F(2020, 100),
    P(4, 2030, 200, 2010, 2030),
    P(5, 2010, 100, 2010, 2030),
    P(6, 2010, 100, 2010, 2030),
];

const SELLS_RUN_ASKED: [Asked; 3] = [
    Asked(9, Question::Bid(None)),
    Asked(9, Question::Offer(Some((2030, 100)))),
    Asked(9, Question::Totals(1200, 500, 100, 100)),
];

// Stops on both sides are elected by the run that pauses trading, and wait behind its residual. After a floor trade all run in that order.
const STOPS_WAITED: [Row; 9] = [
    Row(Set(2, 'L', 2010), Done, NoRange),
    Row(Load(Buy, 1, 2010, 200), Number(1), NoRange),
    Row(LoadStop(Sell, 4, 2030, 100), Number(2), NoRange),
    Row(LoadStop(Buy, 4, 2012, 100), Number(3), NoRange),
    Row(Load(Sell, 2, 2012, 100), Number(4), NoRange),
    Row(Load(Sell, 3, 2030, 300), Number(5), NoRange),
    Row(Open, Done, Going(2000, 2020)),
    Row(Market(Buy, 5, 300), Entered(6, 3), Paused(2000, 2020)),
    Row(Floor(2020, 100), Lines(4), Going(2010, 2030)),
];

const STOPS_WAITED_TAPE: [Line; 7] = [
    P(6, 2012, 100, 2000, 2020),
    E(2),
    E(3),
    F(2020, 100),
    P(6, 2030, 200, 2010, 2030),
    P(2, 2010, 100, 2010, 2030),
    P(3, 2030, 100, 2010, 2030),
];

const STOPS_WAITED_ASKED: [Asked; 6] = [
    Asked(7, Question::Open(6, Place::Line, 200)),
    Asked(7, Question::Open(2, Place::Line, 100)),
    Asked(7, Question::Open(3, Place::Line, 100)),
    Asked(8, Question::Bid(Some((2010, 100)))),
    Asked(8, Question::Offer(None)),
    Asked(8, Question::Totals(1100, 500, 0, 100)),
];

// Any stop file and tape will do for these too.
pub(crate) static PAUSES: [Session<'static>; 6] = [
    Session {
        name: "stops filed in a pause, then a print",
        rows: &PRINT_LATER,
        by_time: &PRINT_LATER_TAPE,
        by_turns: &PRINT_LATER_TAPE,
        asked: &PRINT_LATER_ASKED,
    },
    Session {
        name: "stops filed in a pause, then floor trades",
        rows: &FLOOR_LATER,
        by_time: &FLOOR_LATER_TAPE,
        by_turns: &FLOOR_LATER_TAPE,
        asked: &FLOOR_LATER_ASKED,
    },
    Session {
        name: "sells in a pause, then Resume",
        rows: &SELLS_RESUMED,
        by_time: &SELLS_RESUMED_TAPE,
        by_turns: &SELLS_RESUMED_TAPE,
        asked: &SELLS_RESUMED_ASKED,
    },
    Session {
        name: "sells in a pause, residual cancelled, then Resume",
        rows: &SELLS_FIRST_RESUMED,
        by_time: &SELLS_FIRST_RESUMED_TAPE,
        by_turns: &SELLS_FIRST_RESUMED_TAPE,
        asked: &SELLS_FIRST_RESUMED_ASKED,
    },
    Session {
        name: "sells in a pause, then a floor trade",
        rows: &SELLS_RUN,
        by_time: &SELLS_RUN_TAPE,
        by_turns: &SELLS_RUN_TAPE,
        asked: &SELLS_RUN_ASKED,
    },
    Session {
        name: "stops elected by the run that pauses",
        rows: &STOPS_WAITED,
        by_time: &STOPS_WAITED_TAPE,
        by_turns: &STOPS_WAITED_TAPE,
        asked: &STOPS_WAITED_ASKED,
    },
];
