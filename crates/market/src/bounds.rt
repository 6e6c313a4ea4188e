// What the market takes: prices in cents, whole round lots, known members.
// The tests take numbers wider than what they allow, so that none is cut down to a lawful one.
ghost use Rattle.std.specs.Prelude.{◌≡◌};
ghost use Rattle.market.specs.Bounds.{is_price, is_shares, is_member, is_class, is_last_sale};

pub const HIGHEST_PRICE: u32 = 100_000;

pub const ROUND_LOT: u32 = 100;

pub const MOST_SHARES: u32 = 1_000_000;

pub const LAST_MEMBER: u32 = 255;

pub const LAST_CLASS: u32 = 3;

// How many orders the roll holds.
pub const ROLL: usize = 512;

// Each bound has a name of its own in the rules, and its test is one call of the library: there is nothing left to share.
pub fn is_price(price: u32) -> bool
    ensures { result ≡ is_price price }
{
    (1..=HIGHEST_PRICE).contains(&price)
}

pub fn is_shares(shares: u32) -> bool
    ensures { result ≡ is_shares shares }
{
    (ROUND_LOT..=MOST_SHARES).contains(&shares) && shares % ROUND_LOT == 0
}

pub fn is_member(member: u32) -> bool
    ensures { result ≡ is_member member }
{
    (1..=LAST_MEMBER).contains(&member)
}

// Classes of trading volume. A class is a number in the day line, in the rules and in every definition: an enum would be made of it
// and unmade again at each.
pub fn is_class(class: u32) -> bool
    ensures { result ≡ is_class class }
{
    (1..=LAST_CLASS).contains(&class)
}

// A last sale of 0 stands for none, in the day line, in the rules and in every definition: an Option would be made of it and unmade
// again at each.
pub fn is_last_sale(last_sale: u32) -> bool
    ensures { result ≡ is_last_sale last_sale }
{
    last_sale <= HIGHEST_PRICE
}
