// Files of records kept in order of precedence, written once for every kind of record.
// A file is a vector of a fixed capacity; or, where a caller lends the slots, as memory is fixed, the first `held` slots of a slice,
// with the count beside: what lies behind them is free. Of the two that do so, `insert` is
// public and stays beside `remove_at`, though no file in lent slots has to file in order today.
ghost use Rattle.std.specs.Prelude.{◌≡◌, ◌+◌, ◌-◌, ◌<◌, ◌≤◌, Bool, ◌&&◌, [], ◌∷◌, ◌++◌, length, take, drop, is_some, IfSome, IfOk, is_ok, Some, MatchOption, MatchResult, OnOk, OnErr, OnSome, nat_le, nat_lt};
ghost use Rattle.std.specs.List.{remove, slice_get};
ghost use Rattle.market.specs.Files.{Strict, filed, ahead, Filing, Removal};

use arrayvec::ArrayVec;

// There is no free slot.
#[derive(Clone, Copy)]
pub struct Full;

// A record of which one may precede another.
pub trait Ranked: Copy {
    ghost before: { Self → Self → Bool };

    ghost strict: { Strict before };

    fn precedes(&self, other: &Self) -> bool
        ensures { result ≡ before self.now other.now };
}

// Files a newcomer before the first record that it precedes, and says at which place.
// Without a free slot the file refuses it and stays as it is.
pub fn insert<T: Ranked>(file: &mut [T], held: usize, newcomer: T) -> Result<usize, Full>
    ensures room { is_ok result ≡ nat_lt held (length file.old) }
    ensures slots { MatchResult result (λ at. (at ≡ ahead T.before newcomer (take held file.old)) × (file.new ≡ filed T.before newcomer (take held file.old) ++ drop (held + 1) file.old)) (λ _. file.new ≡ file.old) }
    ensures front { OnOk result (take (held + 1) file.new ≡ filed T.before newcomer (take held file.old)) }
    ensures lawful { OnOk result (Filing T.before newcomer (take held file.old) (take (held + 1) file.new)) }
{
    if held >= file.len() {
        return Err(Full);
    }
    Ok(put_in(file, held, newcomer))
}

// The same of a file that is a vector of a fixed capacity.
pub fn insert_in_order<T: Ranked, const N: usize>(
    file: &mut ArrayVec<T, N>,
    newcomer: T,
) -> Result<usize, Full>
    ensures room { is_ok result ≡ nat_lt (length file.old.items) N }
    ensures place { IfOk result (λ at. at ≡ ahead T.before newcomer file.old.items) }
    ensures file { OnOk result (file.new.items ≡ filed T.before newcomer file.old.items) }
    ensures lawful { OnOk result (Filing T.before newcomer file.old.items file.new.items) }
    ensures full { OnErr result (file.new ≡ file.old) }
{
    let at = place_of(file.as_slice(), &newcomer);
    file.try_insert(at, newcomer).map_err(|_| Full)?;
    Ok(at)
}

// Takes the record at a place out of the file and closes the gap; the freed slot keeps the record taken.
// Where the file has no such place, or would be longer than the slots, nothing is taken and it stays as it is.
pub fn remove_at<T: Copy>(file: &mut [T], held: usize, at: usize) -> Option<T>
    ensures there { is_some result ≡ (nat_lt at held && nat_le held (length file.old)) }
    ensures slots { MatchOption result (file.new ≡ file.old) (λ x. (slice_get (take held file.old) at ≡ Some x) × (file.new ≡ remove (take held file.old) at ++ (x ∷ drop held file.old))) }
    ensures front { OnSome result (take (held - 1) file.new ≡ remove (take held file.old) at) }
    ensures lawful { IfSome result (λ x. Removal x (take held file.old) (take (held - 1) file.new)) }
{
    if at >= held || held > file.len() {
        return None;
    }
    Some(take_out(file, held, at))
}

// How many records of a file stand ahead of a newcomer. From the front, and by no binary search: what is promised holds of a file in
// any order.
fn place_of<T: Ranked>(file: &[T], newcomer: &T) -> usize
    ensures place { result ≡ ahead T.before newcomer.now file.now }
    ensures within { result ≤ length file.now }
{
    file.iter().take_while(|y| !newcomer.precedes(y)).count()
}

fn put_in<T: Ranked>(file: &mut [T], held: usize, newcomer: T) -> usize
    requires { held < length file.old }
    ensures place { result ≡ ahead T.before newcomer (take held file.old) }
    ensures slots { file.new ≡ filed T.before newcomer (take held file.old) ++ drop (held + 1) file.old }
    ensures front { take (held + 1) file.new ≡ filed T.before newcomer (take held file.old) }
    ensures lawful { Filing T.before newcomer (take held file.old) (take (held + 1) file.new) }
{
    let at = place_of(&file[0..held], &newcomer);
    file[held] = newcomer;
    file[at..held + 1].rotate_right(1);
    at
}

fn take_out<T: Copy>(file: &mut [T], held: usize, at: usize) -> T
    requires there { at < held }
    requires within { held ≤ length file.old }
    ensures taken { slice_get (take held file.old) at ≡ Some result }
    ensures slots { file.new ≡ remove (take held file.old) at ++ (result ∷ drop held file.old) }
    ensures front { take (held - 1) file.new ≡ remove (take held file.old) at }
    ensures lawful { Removal result (take held file.old) (take (held - 1) file.new) }
{
    let taken = file[at];
    file[at..held].rotate_left(1);
    taken
}
