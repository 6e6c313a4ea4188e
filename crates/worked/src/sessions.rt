// The sessions: the calls of a day, what each answers, whether trading goes on and in which range, and the tape. All values were worked
// out by hand from the rules.
use crate::questions::{Asked, Question};
use crate::seen::Answer::{self, Done, Entered, Lines, Number, Refused};
use crate::seen::Line::{self, E, F, P, X};
use crate::seen::Mode::{self, Going, NoRange, Paused};
use crate::steps::Step::{
    self, AtOnce, Cancel, Close, Floor, Limit, Load, LoadStop, Market, Open, Resume, Set, Stop,
};
use market::words::Place;
use market::words::Side::{Buy, Sell};

#[derive(Clone, Copy)]
pub(crate) struct Row(pub(crate) Step, pub(crate) Answer, pub(crate) Mode);

// A list of calls, and the tape under each share-out rule. Questions are asked where the calls are put one by one.
#[derive(Clone, Copy)]
pub(crate) struct Session<'a> {
    pub(crate) name: &'a str,
    pub(crate) rows: &'a [Row],
    pub(crate) by_time: &'a [Line],
    pub(crate) by_turns: &'a [Line],
    pub(crate) asked: &'a [Asked],
}

const LOTS: [Row; 13] = [
    Row(Load(Buy, 1, 2000, 100), Number(1), NoRange),
    Row(Load(Buy, 1, 2000, 1_000_000), Number(2), NoRange),
    Row(Load(Buy, 1, 2000, 50), Refused(42), NoRange),
    Row(Load(Buy, 1, 2000, 1_000_100), Refused(42), NoRange),
    Row(Open, Done, NoRange),
    Row(Limit(Buy, 1, 2000, 100), Entered(3, 0), NoRange),
    Row(Limit(Buy, 1, 2000, 1_000_000), Entered(4, 0), NoRange),
    Row(Limit(Buy, 1, 2000, 50), Refused(42), NoRange),
    Row(Market(Sell, 1, 1_000_100), Refused(42), NoRange),
    Row(Floor(2000, 100), Lines(1), Going(1990, 2010)),
    Row(Floor(2000, 1_000_000), Lines(1), Going(1990, 2010)),
    Row(Floor(2000, 50), Refused(42), Going(1990, 2010)),
    Row(Floor(2000, 1_000_100), Refused(42), Going(1990, 2010)),
];

const LOTS_TAPE: [Line; 2] = [F(2000, 100), F(2000, 1_000_000)];

// Order 6 takes the best price and then sweeps up to 2015. 300 shares of order 7 wait until a floor trade brings 2030 into range.
const SWEEP: [Row; 12] = [
    Row(Set(2, 'L', 2010), Done, NoRange),
    Row(Load(Buy, 1, 2008, 200), Number(1), NoRange),
    Row(Load(Sell, 2, 2012, 300), Number(2), NoRange),
    Row(Load(Sell, 3, 2013, 500), Number(3), NoRange),
    Row(Load(Sell, 4, 2015, 400), Number(4), NoRange),
    Row(Load(Sell, 5, 2030, 1000), Number(5), NoRange),
    Row(Open, Done, Going(2000, 2020)),
    Row(Market(Buy, 6, 1000), Entered(6, 2), Going(2000, 2020)),
    Row(Market(Buy, 7, 500), Entered(7, 1), Paused(2000, 2020)),
    Row(Resume, Lines(0), Paused(2005, 2025)),
    Row(Floor(2031, 100), Refused(61), Paused(2005, 2025)),
    Row(Floor(2028, 100), Lines(2), Going(2018, 2038)),
];

// Trading is paused after the second market order, after Resume and after the floor trade that is refused.
const SWEEP_ASKED: [Asked; 15] = [
    Asked(6, Question::Bid(Some((2008, 200)))),
    Asked(6, Question::Offer(Some((2012, 300)))),
    Asked(7, Question::Offer(Some((2015, 200)))),
    Asked(8, Question::Open(7, Place::Line, 300)),
    Asked(8, Question::Bid(Some((2008, 200)))),
    Asked(8, Question::Offer(Some((2030, 1000)))),
    Asked(8, Question::Totals(3900, 1200, 0, 1500)),
    Asked(9, Question::Open(7, Place::Line, 300)),
    Asked(9, Question::Bid(Some((2008, 200)))),
    Asked(9, Question::Offer(Some((2030, 1000)))),
    Asked(10, Question::Open(7, Place::Line, 300)),
    Asked(10, Question::Offer(Some((2030, 1000)))),
    Asked(11, Question::Open(7, Place::Nowhere, 0)),
    Asked(11, Question::Offer(Some((2030, 700)))),
    Asked(11, Question::Totals(3900, 1500, 0, 900)),
];

const SWEEP_TAPE: [Line; 5] = [
    P(6, 2012, 300, 2000, 2020),
    P(6, 2015, 700, 2000, 2020),
    P(7, 2015, 200, 2000, 2020),
    F(2028, 100),
    P(7, 2030, 300, 2018, 2038),
];

// A print at 2020 elects stops 3 and 5, priced at it, and neither 2 nor 4, a cent beyond: these can still be cancelled.
const ELECTION: [Row; 11] = [
    Row(Set(2, 'L', 2015), Done, NoRange),
    Row(Load(Sell, 1, 2020, 100), Number(1), NoRange),
    Row(LoadStop(Buy, 2, 2021, 100), Number(2), NoRange),
    Row(LoadStop(Buy, 3, 2020, 200), Number(3), NoRange),
    Row(LoadStop(Sell, 4, 2019, 300), Number(4), NoRange),
    Row(LoadStop(Sell, 5, 2020, 400), Number(5), NoRange),
    Row(Open, Done, Going(2005, 2025)),
    Row(Market(Buy, 6, 100), Entered(6, 5), Going(2005, 2025)),
    Row(Cancel(3, 3), Refused(53), Going(2005, 2025)),
    Row(Cancel(2, 2), Lines(1), Going(2005, 2025)),
    Row(Cancel(4, 4), Lines(1), Going(2005, 2025)),
];

const ELECTION_TAPE: [Line; 7] = [
    P(6, 2020, 100, 2005, 2025),
    E(3),
    E(5),
    X(3, 200),
    X(5, 400),
    X(2, 100),
    X(4, 300),
];

// Orders 7 and 5 trade with a row of three, which is shared out: what is cancelled of the three afterwards shows who was filled.
const DAY: [Row; 27] = [
    Row(Set(1, 'H', 3000), Done, NoRange),
    Row(Load(Sell, 1, 3010, 600), Number(1), NoRange),
    Row(Load(Sell, 2, 3010, 400), Number(2), NoRange),
    Row(Load(Sell, 3, 3010, 500), Number(3), NoRange),
    Row(Load(Buy, 1, 2990, 400), Number(4), NoRange),
    Row(LoadStop(Buy, 4, 3010, 300), Number(5), NoRange),
    Row(LoadStop(Sell, 5, 2980, 200), Number(6), NoRange),
    Row(Load(Buy, 1, 3010, 100), Refused(45), NoRange),
    Row(Open, Done, Going(2965, 3035)),
    Row(Market(Buy, 6, 200), Entered(7, 3), Going(2965, 3035)),
    Row(Market(Sell, 7, 500), Entered(8, 2), Going(2965, 3035)),
    Row(Cancel(2, 1), Refused(52), Going(2965, 3035)),
    Row(Cancel(1, 1), Lines(1), Going(2965, 3035)),
    Row(Cancel(2, 2), Lines(1), Going(2965, 3035)),
    Row(Cancel(3, 3), Lines(1), Going(2965, 3035)),
    Row(Cancel(1, 1), Refused(53), Going(2965, 3035)),
    Row(Limit(Sell, 1, 3100, 200), Entered(9, 0), Going(2965, 3035)),
    Row(Market(Buy, 6, 100), Entered(10, 0), Paused(2965, 3035)),
    Row(
        AtOnce(Buy, 7, 3100, 100),
        Entered(11, 1),
        Paused(2965, 3035),
    ),
    Row(Stop(Buy, 4, 3100, 100), Entered(12, 0), Paused(2965, 3035)),
    Row(Resume, Lines(0), Paused(2955, 3025)),
    Row(Floor(2970, 100), Lines(2), Paused(2935, 3005)),
    Row(Cancel(5, 6), Lines(1), Paused(2935, 3005)),
    Row(Floor(3090, 100), Lines(4), Going(3055, 3125)),
    Row(Resume, Refused(71), Going(3055, 3125)),
    Row(Close, Done, Going(3055, 3125)),
    Row(Floor(3090, 100), Refused(21), Going(3055, 3125)),
];

const DAY_BY_TIME: [Line; 16] = [
    P(7, 3010, 200, 2965, 3035),
    E(5),
    P(5, 3010, 300, 2965, 3035),
    P(8, 2990, 400, 2965, 3035),
    X(8, 100),
    X(1, 100),
    X(2, 400),
    X(3, 500),
    X(11, 100),
    F(2970, 100),
    E(6),
    X(6, 200),
    F(3090, 100),
    P(10, 3100, 100, 3055, 3125),
    E(12),
    P(12, 3100, 100, 3055, 3125),
];

const DAY_BY_TURNS: [Line; 16] = [
    P(7, 3010, 200, 2965, 3035),
    E(5),
    P(5, 3010, 300, 2965, 3035),
    P(8, 2990, 400, 2965, 3035),
    X(8, 100),
    X(1, 400),
    X(2, 200),
    X(3, 400),
    X(11, 100),
    F(2970, 100),
    E(6),
    X(6, 200),
    F(3090, 100),
    P(10, 3100, 100, 3055, 3125),
    E(12),
    P(12, 3100, 100, 3055, 3125),
];

// Those that any stop file and tape will do for.
pub(crate) static SESSIONS: [Session<'static>; 4] = [
    Session {
        name: "shares from 100 to 1,000,000",
        rows: &LOTS,
        by_time: &LOTS_TAPE,
        by_turns: &LOTS_TAPE,
        asked: &[],
    },
    Session {
        name: "sweep, pause, floor trade",
        rows: &SWEEP,
        by_time: &SWEEP_TAPE,
        by_turns: &SWEEP_TAPE,
        asked: &SWEEP_ASKED,
    },
    Session {
        name: "stops at a print's price",
        rows: &ELECTION,
        by_time: &ELECTION_TAPE,
        by_turns: &ELECTION_TAPE,
        asked: &[],
    },
    Session {
        name: "rows shared out",
        rows: &DAY,
        by_time: &DAY_BY_TIME,
        by_turns: &DAY_BY_TURNS,
        asked: &[],
    },
];

// What is expected here is wrong on purpose, in one place each, so that it is seen that a difference is told.
pub(crate) static MISTOLD: [Session<'static>; 3] = [
    Session {
        name: "a wrong answer",
        rows: &[Row(Open, Refused(21), NoRange)],
        by_time: &[],
        by_turns: &[],
        asked: &[],
    },
    Session {
        name: "a wrong range",
        rows: &[Row(Open, Done, Going(2000, 2020))],
        by_time: &[],
        by_turns: &[],
        asked: &[],
    },
    Session {
        name: "a wrong tape",
        rows: &LOTS,
        by_time: &[F(2000, 100), F(2000, 999_900)],
        by_turns: &LOTS_TAPE,
        asked: &[],
    },
];

// Here a question is told wrong, or stands behind the last call.
pub(crate) static MISASKED: [Session<'static>; 2] = [
    Session {
        name: "a wrong quote",
        rows: &[Row(Open, Done, NoRange)],
        by_time: &[],
        by_turns: &[],
        asked: &[Asked(0, Question::Bid(Some((2000, 100))))],
    },
    Session {
        name: "a question behind the last call",
        rows: &[Row(Open, Done, NoRange)],
        by_time: &[],
        by_turns: &[],
        asked: &[Asked(1, Question::Bid(None))],
    },
];

const REFUSALS: [Row; 21] = [
    Row(Limit(Buy, 1, 2000, 100), Refused(21), NoRange),
    Row(Set(4, 'L', 2010), Refused(31), NoRange),
    Row(Set(2, 'X', 2010), Refused(32), NoRange),
    Row(Set(2, 'L', 100_001), Refused(33), NoRange),
    Row(Set(2, 'L', 2010), Done, NoRange),
    Row(Load(Buy, 1, 0, 100), Refused(41), NoRange),
    Row(Load(Buy, 1, 2000, 150), Refused(42), NoRange),
    Row(Load(Buy, 256, 2000, 100), Refused(47), NoRange),
    Row(Load(Buy, 1, 2000, 100), Number(1), NoRange),
    Row(Load(Sell, 1, 2000, 100), Refused(45), NoRange),
    Row(LoadStop(Buy, 1, 2030, 100), Number(2), NoRange),
    Row(LoadStop(Sell, 1, 1990, 100), Number(3), NoRange),
    Row(LoadStop(Buy, 1, 2040, 100), Refused(46), NoRange),
    Row(Open, Done, Going(2000, 2020)),
    Row(Market(Sell, 1, 100), Refused(44), Going(2000, 2020)),
    Row(Cancel(1, 9), Refused(51), Going(2000, 2020)),
    Row(Cancel(2, 1), Refused(52), Going(2000, 2020)),
    Row(Floor(1999, 100), Refused(61), Going(2000, 2020)),
    Row(Resume, Refused(71), Going(2000, 2020)),
    Row(Cancel(1, 1), Lines(1), Going(2000, 2020)),
    Row(Cancel(1, 1), Refused(53), Going(2000, 2020)),
];

const REFUSALS_TAPE: [Line; 1] = [X(1, 100)];

// Meets each refusal of a call but 43, with a stop file for 2 stops and a line fewer than an order needs beside them.
pub(crate) static NARROW: Session<'static> = Session {
    name: "2 stops, 11 lines",
    rows: &REFUSALS,
    by_time: &REFUSALS_TAPE,
    by_turns: &REFUSALS_TAPE,
    asked: &[],
};
