ghost use Rattle.std.specs.Prelude.{◌≡◌, ℕ, true, List, if◌then◌else◌};
ghost use Rattle.sharing.specs.Shares.{total, whole_lots, lawful_row, shareable, zeros, LawfulRule};
ghost use Rattle.sharing.specs.Levels.{in_order_above};

// The crate market has these bounds under its own names: this crate stands alone, and knows rows of numbers and no market.
// Shares are traded in lots.
pub const LOT: u32 = 100;

// The most shares of an entry.
pub const MOST_SHARES: u32 = 1_000_000;

// The most entries of a row.
pub const MOST_ENTRIES: usize = 512;

// A rule that says who gets how many shares of a quantity. The row has what is open at one price, the order that came first in front.
pub trait ShareOut {
    // How many shares each entry of the row is given: by the rule, the row and the quantity alone.
    ghost gifts: { Self → List ℕ → ℕ → List ℕ };

    // What every rule owes, and generic code may use.
    ghost lawful: { (r : Self) → LawfulRule (gifts r) };

    // Each rule asks `can_share` itself: a method for lawful rows only would be public and ask that of its caller, which the project rules
    // out, and a closure for what a lawful row gets would have to carry the clauses of both rules.
    //
    // Replaces each entry by its gift. A row or a quantity that cannot be shared out has gifts of 0.
    fn share_out(&self, row: &mut [u32], quantity: u32)
        ensures { row.new ≡ gifts self.now row.old quantity };
}

// Whole lots, at least one, and no more than so many shares.
fn is_whole_lots(shares: u32, most: u32) -> bool
    ensures { result ≡ whole_lots most shares }
{
    (LOT..=most).contains(&shares) && shares.is_multiple_of(LOT)
}

fn is_lawful_row(row: &[u32]) -> bool
    ensures { result ≡ lawful_row row.now }
{
    (1..=MOST_ENTRIES).contains(&row.len())
        && row.iter().all(|entry| is_whole_lots(*entry, MOST_SHARES))
}

// The sum of a lawful row: 512 entries of 1,000,000 fit.
fn sum_of(row: &[u32]) -> u32
    requires { lawful_row row.now ≡ true }
    ensures { result ≡ total row.now }
{
    row.iter().sum()
}

// Whether the quantity can be shared out over the row: else every rule gives nothing.
pub fn can_share(row: &[u32], quantity: u32) -> bool
    ensures { result ≡ shareable row.now quantity }
{
    is_lawful_row(row) && is_whole_lots(quantity, sum_of(row))
}

// Every gift 0.
pub(crate) fn give_nothing(row: &mut [u32])
    ensures { row.new ≡ zeros row.old }
{
    row.fill(0);
}

// Gives in row order while some of the quantity is left: each entry what it has up to the level, and then at most so many shares.
pub(crate) fn give_in_order(row: &mut [u32], level: u32, most: u32, quantity: u32)
    ensures { row.new ≡ in_order_above level most row.old quantity }
{
    let mut left = quantity;
    for entry in row.iter_mut() {
        let paid = (*entry).min(level);
        let gift = (*entry - paid).min(most).min(left);
        *entry = paid + gift;
        left -= gift;
    }
}

// Shares out by whatever rule, and answers how many shares were given: all of the quantity, or none.
pub fn share_out_counted<R: ShareOut>(rule: &R, row: &mut [u32], quantity: u32) -> u32
    ensures gifts { row.new ≡ R.gifts rule.now row.old quantity }
    ensures counted { result ≡ (if shareable row.old quantity then quantity else 0) }
    ensures all { shareable row.old quantity ≡ true → total (R.gifts rule.now row.old quantity) ≡ result }
{
    let can = can_share(row, quantity);
    rule.share_out(row, quantity);
    if can { quantity } else { 0 }
}
