// An order of the roll, changed only through its own methods.
ghost use Rattle.std.specs.Prelude.{◌≡◌};
ghost use Rattle.market.specs.Changes.{blank};
ghost use Rattle.market.specs.Orders.{enter, adds_up, can_fill, try_fill, try_cancel, put, rests_on, in_limit, reaches};
ghost use Rattle.market.specs.declared.words.Place.TheVariants.{Book, Line, StopFile};

use crate::range::within;
use crate::words::{Kind, Order, Place, Range, Side};

// What stands where there is no order.
impl Default for Order {
    ghost is_default = { λ order. order ≡ blank };

    fn default() -> Order {
        Order::new(0, 0, Side::Buy, Kind::Limit, 0, 0)
    }
}

impl Order {
    // An order as it is accepted: all shares open, and nowhere yet.
    pub fn new(number: u32, member: u32, side: Side, kind: Kind, price: u32, shares: u32) -> Order
        ensures { result ≡ enter number member side kind price shares }
    {
        Order {
            number,
            member,
            side,
            kind,
            price,
            accepted: shares,
            filled: 0,
            cancelled: 0,
            open: shares,
            place: Place::Nowhere,
        }
    }

    // Whether each accepted share is filled, cancelled or open.
    pub fn adds_up(&self) -> bool
        ensures { result ≡ adds_up self.now }
    {
        u64::from(self.filled) + u64::from(self.cancelled) + u64::from(self.open)
            == u64::from(self.accepted)
    }

    // Fills some of the open shares; an order with nothing open is nowhere.
    // More than are open, or an order that does not add up, is refused and nothing changes.
    pub fn fill(&mut self, shares: u32) -> bool
        ensures answer { result ≡ can_fill shares self.old }
        ensures order { self.new ≡ try_fill shares self.old }
        ensures lawful { adds_up self.new ≡ adds_up self.old }
    {
        if shares > self.open || !self.adds_up() {
            return false;
        }
        self.filled += shares;
        self.open -= shares;
        if self.open == 0 {
            self.place = Place::Nowhere;
        }
        true
    }

    // Cancels all open shares. An order that does not add up is refused and nothing changes.
    pub fn cancel(&mut self) -> bool
        ensures answer { result ≡ adds_up self.old }
        ensures order { self.new ≡ try_cancel self.old }
        ensures lawful { adds_up self.new ≡ adds_up self.old }
    {
        if !self.adds_up() {
            return false;
        }
        self.cancelled += self.open;
        self.open = 0;
        self.place = Place::Nowhere;
        true
    }

    // The open shares go on the book.
    pub fn rest(&mut self)
        ensures { self.new ≡ put Book self.old }
    {
        self.place = Place::Book;
    }

    // The open shares join the line of those that wait, as do those of a stop once elected.
    pub fn wait(&mut self)
        ensures { self.new ≡ put Line self.old }
    {
        self.place = Place::Line;
    }

    // A stop goes into a stop file.
    pub fn file(&mut self)
        ensures { self.new ≡ put StopFile self.old }
    {
        self.place = Place::StopFile;
    }

    // Whether the order rests on the book of a side.
    pub fn rests_on(&self, side: Side) -> bool
        ensures { result ≡ rests_on side self.now }
    {
        self.place == Place::Book && self.side == side
    }

    // Whether a price of the opposite side is within the limit.
    // Market orders have no limit, nor have stops, which run only once elected.
    pub fn in_limit(&self, price: u32) -> bool
        ensures { result ≡ in_limit self.now price }
    {
        match self.kind {
            Kind::Market | Kind::Stop => true,
            Kind::Limit | Kind::ImmediateOrCancel => self
                .side
                .opposite()
                .as_good(price, self.price),
        }
    }

    // Whether the order may execute at a price of the opposite side: within its limit and the range.
    pub fn reaches(&self, range: Option<Range>, price: u32) -> bool
        ensures { result ≡ reaches self.now range price }
    {
        self.in_limit(price) && within(range, price)
    }
}
