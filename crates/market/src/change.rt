// What may become of an order of the roll. A value and no closure: contracts and definitions name it, and no other change can be made.
ghost use Rattle.std.specs.Prelude.{◌≡◌};
ghost use Rattle.market.specs.Changes.{allowed, does};

use crate::words::Order;

#[derive(Clone, Copy)]
pub enum Change {
    // so many of the open shares are filled
    Fill(u32),
    // all open shares are cancelled
    Cancel,
    // the open shares go on the book
    Rest,
    // the open shares join the line
    Wait,
    // a stop goes into a stop file
    File,
}

impl Order {
    // Makes a change and says whether it could be made; else the order is as it was.
    pub fn apply(&mut self, change: Change) -> bool
        ensures answer { result ≡ allowed change self.old }
        ensures order { self.new ≡ does change self.old }
    {
        match change {
            Change::Fill(shares) => return self.fill(shares),
            Change::Cancel => return self.cancel(),
            Change::Rest => self.rest(),
            Change::Wait => self.wait(),
            Change::File => self.file(),
        }
        true
    }
}
