// What every file of stop orders does.
ghost use Rattle.std.specs.Prelude.{◌≡◌, ℕ, ◌≤◌, List, [], length};
ghost use Rattle.market.specs.declared.words.Stop.{Stop as Stopped};
ghost use Rattle.stops.specs.Stops.{elects, numbered, first_by, without_by, shares_in, adding, after_adding};
ghost use Rattle.stops.specs.Laws.{Ascends, lowest_by, Operation, reached};

use market::words::Stop;

// Why a stop was not added.
#[derive(Clone, Copy, PartialEq, Eq, Debug)]
pub enum NotAdded {
    // its number is not above the number of every stop held
    NotAbove,
    // there are as many stops as there is room for
    Full,
}

// Stops in ascending number, at most as many as there is room for.
pub trait StopFile {
    ghost stops: { Self → List Stopped };

    ghost room: { Self → ℕ };

    ghost fits: { (f : Self) → length (stops f) ≤ room f };

    // whatever operations follow a clearing, the numbers ascend
    ghost rises: { (f : Self) (os : List Operation) → Ascends (reached (room f) os) };

    // Lets every stop go.
    fn clear(&mut self)
        ensures listed { stops self.new ≡ [] }
        ensures keeps { room self.new ≡ room self.old };

    // Puts a stop behind the others.
    fn add(&mut self, stop: Stop) -> Result<(), NotAdded>
        ensures value { result ≡ adding (room self.old) stop (stops self.old) }
        ensures listed { stops self.new ≡ after_adding result stop (stops self.old) }
        ensures keeps { room self.new ≡ room self.old };

    // Takes the stop of that number out, and gives its shares.
    fn remove(&mut self, number: u32) -> Option<u32>
        ensures value { result ≡ shares_in (first_by (numbered number) (stops self.old)) }
        ensures listed { stops self.new ≡ without_by (numbered number) (stops self.old) }
        ensures keeps { room self.new ≡ room self.old };

    // Takes the lowest-numbered stop out that the price elects.
    fn take_at(&mut self, price: u32) -> Option<Stop>
        ensures value { result ≡ first_by (elects price) (stops self.old) }
        ensures lowest { Ascends (stops self.old) → result ≡ lowest_by (elects price) (stops self.old) }
        ensures listed { stops self.new ≡ without_by (elects price) (stops self.old) }
        ensures keeps { room self.new ≡ room self.old };

    // How many stops there are.
    fn count(&self) -> usize
        ensures { result ≡ length (stops self.now) };

    // How many there may be.
    fn capacity(&self) -> usize
        ensures { result ≡ room self.now };
}
