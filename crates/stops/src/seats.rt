// Where a stop stands in the two tables of the price file.
ghost use Rattle.std.specs.Prelude.{◌≡◌};
ghost use Rattle.stops.specs.Seats.{lower_seat};

// A place among the buys or among the sells.
#[derive(Clone, Copy)]
pub(crate) enum Seat {
    Buys(usize),
    Sells(usize),
}

// A place in one table, with the number of the stop that stands there.
#[derive(Clone, Copy)]
pub(crate) struct Found {
    pub(crate) place: usize,
    pub(crate) number: u32,
}

// Of the lowest of each table, the lower one.
pub(crate) fn lower_seat(buy: Option<Found>, sell: Option<Found>) -> Option<Seat>
    ensures { result ≡ lower_seat buy sell }
{
    match (buy, sell) {
        (Some(b), Some(s)) if s.number <= b.number => Some(Seat::Sells(s.place)),
        (Some(b), _) => Some(Seat::Buys(b.place)),
        (None, s) => s.map(|s| Seat::Sells(s.place)),
    }
}
