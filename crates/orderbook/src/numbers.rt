// Orders of the roll by their numbers, the first of which is 1.
ghost use Rattle.std.specs.Prelude.{◌≡◌, ◌-◌, slice_index_or};
ghost use Rattle.market.specs.Changes.{blank, does_at};
ghost use Rattle.market.specs.Rolls.{listed};

use market::change::Change;
use market::roll::Roll;
use market::words::Order;

fn place_of(number: u32) -> usize
    ensures { result ≡ number - 1 }
{
    (number as usize).saturating_sub(1)
}

// The order of a number, or a blank one where the roll does not go so far.
pub(crate) fn order_numbered(roll: &Roll, number: u32) -> Order
    ensures { result ≡ slice_index_or (listed roll.now) (number - 1) blank }
{
    roll.get(place_of(number)).unwrap_or_default()
}

// Changes the order of a number.
pub(crate) fn change_order(roll: &mut Roll, number: u32, change: Change)
    ensures { listed roll.new ≡ does_at change (number - 1) (listed roll.old) }
{
    let _ = roll.change(place_of(number), change);
}
