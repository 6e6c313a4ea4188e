// Why the market refuses a call: the whole list, each reason with its number.
ghost use Rattle.std.specs.Prelude.{◌≡◌};
ghost use Rattle.market.specs.Refusals.{number_of};

#[derive(Clone, Copy)]
pub enum Refusal {
    // the class is not 1 to 3
    Class = 31,
    // the column is neither the lower nor the higher one
    Column = 32,
    // the last sale is above the highest price
    LastSale = 33,
    Price = 41,
    Shares = 42,
    // the roll holds as many orders as it can
    RollFull = 43,
    // the tape has too few free lines for what the call may print
    TapeShort = 44,
    // an order loaded before the opening would lock or cross the book
    LocksBook = 45,
    StopFileFull = 46,
    Member = 47,
    // no order of the roll has that number
    NoSuchOrder = 51,
    // the order is another member's
    OtherMember = 52,
    // the order has no open shares
    NothingOpen = 53,
    // a floor price outside the quote: under the bid or over the offer
    OutsideQuote = 61,
    NotPaused = 71,
}

impl Refusal {
    pub fn number(self) -> u32
        ensures { result ≡ number_of self }
    {
        self as u32
    }
}
