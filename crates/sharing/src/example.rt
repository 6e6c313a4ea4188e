ghost use Rattle.std.specs.Prelude.{◌≡◌, [], ◌∷◌};

use crate::rotation::Rotation;
use crate::rule::ShareOut;
use crate::time_priority::TimePriority;

// What both rules give for one row and quantity.
#[derive(Clone, Copy)]
pub struct Gifts {
    pub turns: [u32; 3],
    pub order: [u32; 3],
}

// 500 shares over open shares of 300, 100 and 500: in turns by rotation, in order by time priority.
pub fn worked_example() -> Gifts
    ensures turns { result.turns ≡ 200 ∷ 100 ∷ 200 ∷ [] }
    ensures order { result.order ≡ 300 ∷ 100 ∷ 100 ∷ [] }
{
    let mut turns = [300, 100, 500];
    Rotation.share_out(&mut turns, 500);
    let mut order = [300, 100, 500];
    TimePriority.share_out(&mut order, 500);
    Gifts { turns, order }
}
