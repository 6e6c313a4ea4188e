// The words that every layer shares.

// A buy rests among the bids, a sell among the offers.
#[derive(Clone, Copy, PartialEq, Eq)]
pub enum Side {
    Buy,
    Sell,
}

// What an order asks for.
#[derive(Clone, Copy, PartialEq, Eq)]
pub enum Kind {
    Limit,
    Market,
    ImmediateOrCancel,
    Stop,
}

// Where the open shares of an order are.
#[derive(Clone, Copy, PartialEq, Eq)]
pub enum Place {
    Nowhere,
    Book,
    Line,
    StopFile,
}

// Which of the two values of a cell of the range table is in use.
#[derive(Clone, Copy)]
pub enum Column {
    Lower,
    Higher,
}

// An order of the roll.
#[derive(Clone, Copy)]
pub struct Order {
    pub number: u32,
    pub member: u32,
    pub side: Side,
    pub kind: Kind,
    // limit or stop price; 0 for a market order, as in every definition: an Option would be made of it and unmade again at each
    pub price: u32,
    pub accepted: u32,
    pub filled: u32,
    pub cancelled: u32,
    pub open: u32,
    pub place: Place,
}

// What a limit, an immediate-or-cancel or a stop order asks for.
#[derive(Clone, Copy)]
pub struct PricedOrder {
    pub side: Side,
    pub member: u32,
    // limit or stop price
    pub price: u32,
    pub shares: u32,
}

// A stop order as a stop file holds it.
#[derive(Clone, Copy, PartialEq, Eq)]
pub struct Stop {
    pub number: u32,
    pub side: Side,
    pub price: u32,
    pub shares: u32,
}

// The prices at which orders execute automatically, both ends included.
#[derive(Clone, Copy)]
pub struct Range {
    pub low: u32,
    pub high: u32,
}

// A line of the tape.
#[derive(Clone, Copy)]
pub enum TapeLine {
    // an execution of the order run, with the two ends of its range as they are printed: both 0 where there is none
    Print {
        order: u32,
        price: u32,
        shares: u32,
        low: u32,
        high: u32,
    },
    // all open shares of an order cancelled
    Cancel {
        order: u32,
        shares: u32,
    },
    // a stop elected
    Elect {
        order: u32,
    },
    // a trade on the floor
    Floor {
        price: u32,
        shares: u32,
    },
}
