// What a new order asks for.
use market::words::{Kind, Side};

#[derive(Clone, Copy)]
pub struct Ticket {
    pub kind: Kind,
    pub side: Side,
    pub member: u32,
    // limit or stop price; a market order's is not looked at
    pub price: u32,
    pub shares: u32,
}
