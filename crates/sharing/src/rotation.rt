ghost use Rattle.std.specs.Prelude.{◌≡◌, ◌-◌, ◌*◌, ◌/◌, ◌<◌, ◌≤◌, true, IsNone, IfSome};
ghost use Rattle.sharing.specs.Shares.{shareable, lawful_row, lot, most_shares, most_entries};
ghost use Rattle.sharing.specs.Levels.{above, least_above, last_round};
ghost use Rattle.sharing.specs.Turns.{in_rounds, by_rotation, TakesTurns, Alone};
ghost use Rattle.sharing.specs.Keeps.{rotation_lawful};

use crate::rule::{LOT, MOST_SHARES, ShareOut, can_share, give_in_order, give_nothing};

// Gives a lot to each entry in turn that is not yet full, and begins again at the front as long as anything is left.
#[derive(Clone, Copy, PartialEq, Eq, Debug)]
pub struct Rotation;

// The entries above a level, where there are some: how many, and the least of them.
#[derive(Clone, Copy)]
struct Unfilled {
    count: u32,
    least: u32,
    ghost some: { 0 < count },
    ghost few: { count ≤ most_entries },
    ghost lawful: { least ≤ most_shares },
}

impl Unfilled {
    // What the rounds from the level to the least of the entries come to.
    fn cost(self, level: u32) -> u32
        requires { level ≤ self.least }
        ensures { result ≡ (self.least - level) * self.count }
    {
        (self.least - level) * self.count
    }

    // How many whole rounds a quantity pays for.
    fn rounds_paid(self, left: u32) -> u32
        ensures rounds { result ≡ left / (lot * self.count) }
        ensures within { lot * result ≤ left }
        ensures paid { lot * result * self.count ≤ left }
    {
        left / (LOT * self.count)
    }
}

// In one pass, as no call may scan more than it must; none where every entry is filled.
fn entries_above(row: &[u32], level: u32) -> Option<Unfilled>
    requires { lawful_row row.now ≡ true }
    ensures none { IsNone result → above level row.now ≡ 0 }
    ensures count { IfSome result (λ unfilled. unfilled.count ≡ above level row.now) }
    ensures least { IfSome result (λ unfilled. unfilled.least ≡ least_above level row.now) }
{
    let mut count = 0;
    let mut least = MOST_SHARES;
    for entry in row {
        if *entry > level {
            count += 1;
            least = least.min(*entry);
        }
    }
    if count == 0 {
        return None;
    }
    Some(Unfilled { count, least })
}

// Where whole rounds end: every entry has been given shares up to the level, or is filled, and the last round shares out what is left.
#[derive(Clone, Copy)]
struct Paid {
    level: u32,
    left: u32,
}

// Pays for all rounds up to the least unfilled entry at once, as long as the quantity does, and then for the whole rounds that it still
// pays for. Each turn of the loop scans the row once and fills all entries of one size, so there are at most as many turns as different entries: that number
// is the loop's measure.
fn whole_rounds(row: &[u32], quantity: u32) -> Paid
    requires { shareable row.now quantity ≡ true }
    ensures { last_round result.level row.now result.left ≡ in_rounds row.now quantity }
{
    let mut level = 0;
    let mut left = quantity;
    while let Some(unfilled) = entries_above(row, level) {
        let cost = unfilled.cost(level);
        if cost > left {
            let rise = LOT * unfilled.rounds_paid(left);
            return Paid {
                level: level + rise,
                left: left - rise * unfilled.count,
            };
        }
        level = unfilled.least;
        left -= cost;
    }
    Paid { level, left }
}

impl ShareOut for Rotation {
    ghost gifts = { λ _. by_rotation };

    ghost lawful = { λ _. rotation_lawful };

    // The gifts take turns, and no other gifts do.
    fn share_out(&self, row: &mut [u32], quantity: u32)
        ensures gifts { row.new ≡ by_rotation row.old quantity }
        ensures alone { shareable row.old quantity ≡ true → Alone TakesTurns row.old quantity row.new }
    {
        if can_share(row, quantity) {
            let paid = whole_rounds(row, quantity);
            // The last round: 100 more in row order while some is left.
            give_in_order(row, paid.level, LOT, paid.left);
        } else {
            give_nothing(row);
        }
    }
}
