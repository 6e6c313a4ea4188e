// The calls of a day as values.
use market::words::PricedOrder;
use orderbook::ticket::Ticket;

#[derive(Clone, Copy)]
pub enum Call {
    // class, column letter, last sale or 0
    Set {
        class: u32,
        column: char,
        last_sale: u32,
    },
    LoadLimit(PricedOrder),
    LoadStop(PricedOrder),
    Open,
    Enter(Ticket),
    Cancel {
        member: u32,
        number: u32,
    },
    FloorTrade {
        price: u32,
        shares: u32,
    },
    Resume,
    Close,
}
