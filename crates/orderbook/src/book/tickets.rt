// New orders.
ghost use Rattle.std.specs.Prelude.{◌≡◌, suc, ◌<◌, ◌≤◌, [], ◌∷◌, ◌++◌, length};
ghost use Rattle.orderbook.specs.Books.{roll_of};
ghost use Rattle.orderbook.specs.Trades.{next};

use crate::book::Book;
use crate::ticket::Ticket;
use market::words::{Kind, Order};

impl Book {
    // The order that a ticket would make: with the next number, all shares open, and nowhere yet. A market order has no price.
    #[tactic(auto, unfolding(replay::specs::Rolls::fresh))]
    pub fn next_order(&self, ticket: &Ticket) -> Order
        ensures { result ≡ next ticket.now (roll_of self.now) }
    {
        let price = if ticket.kind == Kind::Market {
            0
        } else {
            ticket.price
        };
        Order::new(
            self.roll.len() as u32 + 1,
            ticket.member,
            ticket.side,
            ticket.kind,
            price,
            ticket.shares,
        )
    }

    // An order more, nowhere yet.
    pub(crate) fn push(&mut self, ticket: Ticket) -> u32
        requires room { length (roll_of self.old) < 512 }
        requires shares { ticket.shares ≤ 1000000 }
        ensures number { result ≡ suc (length (roll_of self.old)) }
        ensures roll { roll_of self.new ≡ roll_of self.old ++ next ticket (roll_of self.old) ∷ [] }
    {
        let order = self.next_order(&ticket);
        let _ = self.roll.push(order);
        order.number
    }
}
