// The worked examples that are computed from the definitions (`Examples` of `replay`), as sessions: sweeps, elections, days without a last
// sale, orders that rest or are cancelled, a row that is shared out.
use crate::questions::{Asked, Question};
use crate::seen::Answer::{Done, Entered, Lines, Number, Refused};
use crate::seen::Line::{self, E, P, X};
use crate::seen::Mode::{Going, NoRange, Paused};
use crate::sessions::{Row, Session};
use crate::steps::Step::{AtOnce, Cancel, Close, Limit, Load, LoadStop, Market, Open, Resume, Set};
use market::words::Place;
use market::words::Side::{Buy, Sell};

// A market sell that the bids in range fill, and one that they do not.
const SELL_SWEPT: [Row; 9] = [
    Row(Set(2, 'L', 2010), Done, NoRange),
    Row(Load(Sell, 1, 2012, 200), Number(1), NoRange),
    Row(Load(Buy, 2, 2008, 300), Number(2), NoRange),
    Row(Load(Buy, 3, 2007, 500), Number(3), NoRange),
    Row(Load(Buy, 4, 2005, 400), Number(4), NoRange),
    Row(Load(Buy, 5, 1990, 1000), Number(5), NoRange),
    Row(Open, Done, Going(2000, 2020)),
    Row(Market(Sell, 6, 1000), Entered(6, 2), Going(2000, 2020)),
    Row(Market(Sell, 7, 500), Entered(7, 1), Paused(2000, 2020)),
];

const SELL_SWEPT_TAPE: [Line; 3] = [
    P(6, 2008, 300, 2000, 2020),
    P(6, 2005, 700, 2000, 2020),
    P(7, 2005, 200, 2000, 2020),
];

const SELL_SWEPT_ASKED: [Asked; 2] = [
    Asked(8, Question::Bid(Some((1990, 1000)))),
    Asked(8, Question::Open(7, Place::Line, 300)),
];

// The residual of a sweep is cancelled in line, and Resume then ends the pause.
const CANCELLED_IN_LINE: [Row; 12] = [
    Row(Set(2, 'L', 2010), Done, NoRange),
    Row(Load(Buy, 1, 2008, 200), Number(1), NoRange),
    Row(Load(Sell, 2, 2012, 300), Number(2), NoRange),
    Row(Load(Sell, 3, 2013, 500), Number(3), NoRange),
    Row(Load(Sell, 4, 2015, 400), Number(4), NoRange),
    Row(Load(Sell, 5, 2030, 1000), Number(5), NoRange),
    Row(Open, Done, Going(2000, 2020)),
    Row(Market(Buy, 6, 1000), Entered(6, 2), Going(2000, 2020)),
    Row(Market(Buy, 7, 500), Entered(7, 1), Paused(2000, 2020)),
    Row(Cancel(7, 7), Lines(1), Paused(2000, 2020)),
    Row(Resume, Lines(0), Going(2005, 2025)),
    Row(Resume, Refused(71), Going(2005, 2025)),
];

const CANCELLED_IN_LINE_TAPE: [Line; 4] = [
    P(6, 2012, 300, 2000, 2020),
    P(6, 2015, 700, 2000, 2020),
    P(7, 2015, 200, 2000, 2020),
    X(7, 300),
];

// Stops on both sides at and next to the price of a print: those a cent beyond stay filed.
const STOPS_AROUND: [Row; 8] = [
    Row(Set(2, 'L', 2010), Done, NoRange),
    Row(Load(Sell, 1, 2020, 100), Number(1), NoRange),
    Row(LoadStop(Buy, 2, 2020, 100), Number(2), NoRange),
    Row(LoadStop(Sell, 2, 2020, 100), Number(3), NoRange),
    Row(LoadStop(Buy, 2, 2021, 100), Number(4), NoRange),
    Row(LoadStop(Sell, 2, 2019, 100), Number(5), NoRange),
    Row(Open, Done, Going(2000, 2020)),
    Row(Market(Buy, 6, 100), Entered(6, 5), Going(2000, 2020)),
];

const STOPS_AROUND_TAPE: [Line; 5] = [
    P(6, 2020, 100, 2000, 2020),
    E(2),
    E(3),
    X(2, 100),
    X(3, 100),
];

const STOPS_AROUND_ASKED: [Asked; 2] = [
    Asked(7, Question::Open(4, Place::StopFile, 100)),
    Asked(7, Question::Open(5, Place::StopFile, 100)),
];

// An elected stop finds an offer in the same call.
const STOP_RUNS: [Row; 8] = [
    Row(Set(2, 'L', 2010), Done, NoRange),
    Row(Load(Sell, 7, 2012, 300), Number(1), NoRange),
    Row(Load(Sell, 8, 2015, 900), Number(2), NoRange),
    Row(LoadStop(Buy, 9, 2015, 200), Number(3), NoRange),
    Row(Open, Done, Going(2000, 2020)),
    Row(Market(Buy, 5, 800), Entered(4, 4), Going(2000, 2020)),
    Row(Cancel(6, 2), Refused(52), Going(2000, 2020)),
    Row(Close, Done, Going(2000, 2020)),
];

const STOP_RUNS_TAPE: [Line; 4] = [
    P(4, 2012, 300, 2000, 2020),
    P(4, 2015, 500, 2000, 2020),
    E(3),
    P(3, 2015, 200, 2000, 2020),
];

const STOP_RUNS_ASKED: [Asked; 1] = [Asked(7, Question::Totals(2200, 1000, 0, 200))];

// Two prints of a run, each of which elects a stop: that of the first has the higher number.
const TWO_PRINTS: [Row; 7] = [
    Row(Set(2, 'L', 2010), Done, NoRange),
    Row(Load(Sell, 1, 2012, 100), Number(1), NoRange),
    Row(Load(Sell, 1, 2014, 100), Number(2), NoRange),
    Row(LoadStop(Buy, 2, 2014, 300), Number(3), NoRange),
    Row(LoadStop(Buy, 2, 2012, 200), Number(4), NoRange),
    Row(Open, Done, Going(2000, 2020)),
    Row(Market(Buy, 3, 200), Entered(5, 6), Going(2000, 2020)),
];

const TWO_PRINTS_TAPE: [Line; 6] = [
    P(5, 2012, 100, 2000, 2020),
    P(5, 2014, 100, 2000, 2020),
    E(4),
    E(3),
    X(4, 200),
    X(3, 300),
];

// Two prints of a run, of which only the first reaches the stop.
const FIRST_REACHES: [Row; 6] = [
    Row(Set(2, 'L', 2010), Done, NoRange),
    Row(Load(Sell, 1, 2012, 100), Number(1), NoRange),
    Row(Load(Sell, 1, 2014, 100), Number(2), NoRange),
    Row(LoadStop(Sell, 2, 2013, 300), Number(3), NoRange),
    Row(Open, Done, Going(2000, 2020)),
    Row(Market(Buy, 3, 200), Entered(4, 4), Going(2000, 2020)),
];

const FIRST_REACHES_TAPE: [Line; 4] = [
    P(4, 2012, 100, 2000, 2020),
    P(4, 2014, 100, 2000, 2020),
    E(3),
    X(3, 300),
];

// Without a last sale no range is in force until the first order has run.
const NO_SALE: [Row; 6] = [
    Row(Set(2, 'L', 0), Done, NoRange),
    Row(Load(Sell, 1, 2012, 300), Number(1), NoRange),
    Row(Load(Sell, 1, 2500, 300), Number(2), NoRange),
    Row(Open, Done, NoRange),
    Row(Market(Buy, 2, 400), Entered(3, 2), Going(2490, 2510)),
    Row(Market(Buy, 2, 100), Entered(4, 1), Going(2490, 2510)),
];

const NO_SALE_TAPE: [Line; 3] = [
    P(3, 2012, 300, 0, 0),
    P(3, 2500, 100, 0, 0),
    P(4, 2500, 100, 2490, 2510),
];

const NO_SALE_ASKED: [Asked; 2] = [
    Asked(0, Question::Bid(None)),
    Asked(5, Question::Offer(Some((2500, 100)))),
];

// Immediate-or-cancel orders: a residual that meets an offer within its limit and out of range, and one entered in the pause; then a limit
// order, which rests.
const AT_ONCE: [Row; 7] = [
    Row(Set(2, 'L', 2010), Done, NoRange),
    Row(Load(Sell, 1, 2012, 100), Number(1), NoRange),
    Row(Load(Sell, 1, 2030, 100), Number(2), NoRange),
    Row(Open, Done, Going(2000, 2020)),
    Row(AtOnce(Buy, 2, 2030, 300), Entered(3, 2), Paused(2000, 2020)),
    Row(AtOnce(Buy, 2, 2030, 100), Entered(4, 1), Paused(2000, 2020)),
    Row(Limit(Buy, 2, 2001, 400), Entered(5, 0), Paused(2000, 2020)),
];

const AT_ONCE_TAPE: [Line; 3] = [P(3, 2012, 100, 2000, 2020), X(3, 200), X(4, 100)];

const AT_ONCE_ASKED: [Asked; 2] = [
    Asked(6, Question::Bid(Some((2001, 400)))),
    Asked(6, Question::Totals(1000, 100, 300, 500)),
];

// A limit order takes what it can and rests.
const TAKES_AND_RESTS: [Row; 5] = [
    Row(Set(2, 'L', 2010), Done, NoRange),
    Row(Load(Sell, 1, 2012, 100), Number(1), NoRange),
    Row(Load(Sell, 1, 2014, 100), Number(2), NoRange),
    Row(Open, Done, Going(2000, 2020)),
    Row(Limit(Buy, 2, 2013, 300), Entered(3, 1), Going(2000, 2020)),
];

const TAKES_AND_RESTS_TAPE: [Line; 1] = [P(3, 2012, 100, 2000, 2020)];

const TAKES_AND_RESTS_ASKED: [Asked; 2] = [
    Asked(4, Question::Bid(Some((2013, 200)))),
    Asked(4, Question::Offer(Some((2014, 100)))),
];

// Three offers at one price, and a market buy of fewer shares. By rotation 100, 0 and 300 of the three are left, by time 0, 0 and 400: what
// is cancelled of the third shows it, and whether the last order still finds the 100 of the first.
const ONE_ROW: [Row; 10] = [
    Row(Set(2, 'L', 2010), Done, NoRange),
    Row(Load(Sell, 1, 2012, 300), Number(1), NoRange),
    Row(Load(Sell, 1, 2012, 100), Number(2), NoRange),
    Row(Load(Sell, 1, 2012, 500), Number(3), NoRange),
    Row(Open, Done, Going(2000, 2020)),
    Row(Market(Buy, 2, 500), Entered(4, 1), Going(2000, 2020)),
    Row(Cancel(1, 2), Refused(53), Going(2000, 2020)),
    Row(Cancel(2, 4), Refused(53), Going(2000, 2020)),
    Row(Cancel(1, 3), Lines(1), Going(2000, 2020)),
    Row(Market(Buy, 2, 100), Entered(5, 1), Going(2000, 2020)),
];

const ONE_ROW_BY_TIME: [Line; 3] = [P(4, 2012, 500, 2000, 2020), X(3, 400), X(5, 100)];

const ONE_ROW_BY_TURNS: [Line; 3] = [
    P(4, 2012, 500, 2000, 2020),
    X(3, 300),
    P(5, 2012, 100, 2000, 2020),
];

const ONE_ROW_ASKED: [Asked; 2] = [
    Asked(5, Question::Offer(Some((2012, 400)))),
    Asked(9, Question::Offer(None)),
];

// A market buy finds too few shares; the buy stop that its print elects, and a market sell, find nobody.
const MEETS_NOBODY: [Row; 6] = [
    Row(Set(2, 'L', 2010), Done, NoRange),
    Row(Load(Sell, 1, 2012, 100), Number(1), NoRange),
    Row(LoadStop(Buy, 4, 2012, 100), Number(2), NoRange),
    Row(Open, Done, Going(2000, 2020)),
    Row(Market(Buy, 2, 300), Entered(3, 4), Going(2000, 2020)),
    Row(Market(Sell, 3, 200), Entered(4, 1), Going(2000, 2020)),
];

const MEETS_NOBODY_TAPE: [Line; 5] = [
    P(3, 2012, 100, 2000, 2020),
    X(3, 200),
    E(2),
    X(2, 100),
    X(4, 200),
];

const MEETS_NOBODY_ASKED: [Asked; 3] = [
    Asked(5, Question::Bid(None)),
    Asked(5, Question::Offer(None)),
    Asked(5, Question::Totals(700, 100, 500, 0)),
];

// Any stop file and tape will do for these too.
pub(crate) static EXAMPLES: [Session<'static>; 11] = [
    Session {
        name: "a sweep of the bids",
        rows: &SELL_SWEPT,
        by_time: &SELL_SWEPT_TAPE,
        by_turns: &SELL_SWEPT_TAPE,
        asked: &SELL_SWEPT_ASKED,
    },
    Session {
        name: "a residual cancelled in line",
        rows: &CANCELLED_IN_LINE,
        by_time: &CANCELLED_IN_LINE_TAPE,
        by_turns: &CANCELLED_IN_LINE_TAPE,
        asked: &[],
    },
    Session {
        name: "stops around a print",
        rows: &STOPS_AROUND,
        by_time: &STOPS_AROUND_TAPE,
        by_turns: &STOPS_AROUND_TAPE,
        asked: &STOPS_AROUND_ASKED,
    },
    Session {
        name: "an elected stop runs",
        rows: &STOP_RUNS,
        by_time: &STOP_RUNS_TAPE,
        by_turns: &STOP_RUNS_TAPE,
        asked: &STOP_RUNS_ASKED,
    },
    Session {
        name: "each of two prints elects",
        rows: &TWO_PRINTS,
        by_time: &TWO_PRINTS_TAPE,
        by_turns: &TWO_PRINTS_TAPE,
        asked: &[],
    },
    Session {
        name: "the first of two prints elects",
        rows: &FIRST_REACHES,
        by_time: &FIRST_REACHES_TAPE,
        by_turns: &FIRST_REACHES_TAPE,
        asked: &[],
    },
    Session {
        name: "no last sale",
        rows: &NO_SALE,
        by_time: &NO_SALE_TAPE,
        by_turns: &NO_SALE_TAPE,
        asked: &NO_SALE_ASKED,
    },
    Session {
        name: "immediate-or-cancel orders",
        rows: &AT_ONCE,
        by_time: &AT_ONCE_TAPE,
        by_turns: &AT_ONCE_TAPE,
        asked: &AT_ONCE_ASKED,
    },
    Session {
        name: "a limit order takes and rests",
        rows: &TAKES_AND_RESTS,
        by_time: &TAKES_AND_RESTS_TAPE,
        by_turns: &TAKES_AND_RESTS_TAPE,
        asked: &TAKES_AND_RESTS_ASKED,
    },
    Session {
        name: "one row shared out",
        rows: &ONE_ROW,
        by_time: &ONE_ROW_BY_TIME,
        by_turns: &ONE_ROW_BY_TURNS,
        asked: &ONE_ROW_ASKED,
    },
    Session {
        name: "market orders that meet nobody",
        rows: &MEETS_NOBODY,
        by_time: &MEETS_NOBODY_TAPE,
        by_turns: &MEETS_NOBODY_TAPE,
        asked: &MEETS_NOBODY_ASKED,
    },
];
