// The calls of a session, each in few words.
use market::words::{Kind, PricedOrder, Side};
use orderbook::ticket::Ticket;
use playback::call::Call;

// An order gives its side, member, price and shares, in this order; a market order has no price.
#[derive(Clone, Copy)]
pub(crate) enum Step {
    // class, column, last sale
    Set(u32, char, u32),
    Load(Side, u32, u32, u32),
    LoadStop(Side, u32, u32, u32),
    Open,
    Limit(Side, u32, u32, u32),
    AtOnce(Side, u32, u32, u32),
    Stop(Side, u32, u32, u32),
    Market(Side, u32, u32),
    // member, number
    Cancel(u32, u32),
    // price, shares
    Floor(u32, u32),
    Resume,
    Close,
}

impl Step {
    pub(crate) fn call(self) -> Call {
        match self {
            Step::Set(class, column, last_sale) => Call::Set {
                class,
                column,
                last_sale,
            },
            Step::Load(side, member, price, shares) => {
                Call::LoadLimit(priced(side, member, price, shares))
            }
            Step::LoadStop(side, member, price, shares) => {
                Call::LoadStop(priced(side, member, price, shares))
            }
            Step::Open => Call::Open,
            Step::Limit(side, member, price, shares) => {
                entered(Kind::Limit, priced(side, member, price, shares))
            }
            Step::AtOnce(side, member, price, shares) => {
                entered(Kind::ImmediateOrCancel, priced(side, member, price, shares))
            }
            Step::Stop(side, member, price, shares) => {
                entered(Kind::Stop, priced(side, member, price, shares))
            }
            Step::Market(side, member, shares) => {
                entered(Kind::Market, priced(side, member, 0, shares))
            }
            Step::Cancel(member, number) => Call::Cancel { member, number },
            Step::Floor(price, shares) => Call::FloorTrade { price, shares },
            Step::Resume => Call::Resume,
            Step::Close => Call::Close,
        }
    }
}

fn priced(side: Side, member: u32, price: u32, shares: u32) -> PricedOrder {
    PricedOrder {
        side,
        member,
        price,
        shares,
    }
}

fn entered(kind: Kind, order: PricedOrder) -> Call {
    Call::Enter(Ticket {
        kind,
        side: order.side,
        member: order.member,
        price: order.price,
        shares: order.shares,
    })
}
