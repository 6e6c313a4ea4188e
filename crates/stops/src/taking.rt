// Taking stops out of any file until nothing is elected.
ghost use Rattle.std.specs.Prelude.{◌≡◌, ◌≤◌, min, not, ◌++◌, map, length, take, drop, filter};
ghost use Rattle.stops.specs.Laws.{Ascends};
ghost use Rattle.stops.specs.Stops.{elects, without_first};

use crate::stop_file::StopFile;

// Takes every stop out that the price elects, and writes their numbers in order; where the numbers
// have no more room, it stops there and leaves the others in the file.
pub fn take_all_at<F: StopFile>(file: &mut F, price: u32, numbers: &mut [u32]) -> usize
    ensures value { result ≡ min (length (filter (elects price) (F.stops file.old))) (length numbers.old) }
    ensures listed { F.stops file.new ≡ without_first (length numbers.old) (elects price) (F.stops file.old) }
    ensures written { numbers.new ≡ map (λ s. s.number) (take (length numbers.old) (filter (elects price) (F.stops file.old))) ++ drop result numbers.old }
    ensures others { length (filter (elects price) (F.stops file.old)) ≤ length numbers.old → F.stops file.new ≡ filter (λ s. not (elects price s)) (F.stops file.old) }
    ensures rising { Ascends (F.stops file.old) → Ascends (filter (elects price) (F.stops file.old)) }
    ensures keeps { F.room file.new ≡ F.room file.old }
{
    for (n, slot) in numbers.iter_mut().enumerate() {
        let Some(stop) = file.take_at(price) else {
            return n;
        };
        *slot = stop.number;
    }
    numbers.len()
}
