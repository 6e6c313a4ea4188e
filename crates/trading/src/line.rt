// The line of orders that wait to run: their numbers, in the order in which they came.
ghost use Rattle.std.specs.Prelude.{◌≡◌, ◌+◌, ◌<◌, ◌≤◌, ◌==◌, [], ◌∷◌, ◌++◌, length, IfSome};
ghost use Rattle.std.specs.List.{position};

use arrayvec::ArrayVec;
use market::bounds::ROLL;

// Those in front have gone, so that the first leaves without a walk; an order joins once a day at most, so that there is room for all.
#[derive(Drop)]
pub(crate) struct Line {
    numbers: ArrayVec<u32, ROLL>,
    gone: usize,
    ghost within: { (gone ≤ length numbers.items) × (length numbers.items ≤ 512) },
}

impl Line {
    ghost use Rattle.replay.specs.Moves.{without};
    ghost use Rattle.trading.specs.Waiting.{line_of, joined_of, first_of, Once};

    pub(crate) fn new() -> Line
        ensures line { line_of result ≡ [] }
        ensures joined { joined_of result ≡ 0 }
    {
        Line {
            numbers: ArrayVec::new(),
            gone: 0,
        }
    }

    // Those who wait.
    fn waiting(&self) -> &[u32]
        ensures { result.now ≡ line_of self.now }
    {
        &self.numbers.as_slice()[self.gone..]
    }

    // How many wait.
    pub(crate) fn len(&self) -> usize
        ensures count { result ≡ length (line_of self.now) }
        ensures few { result ≤ 512 }
    {
        self.numbers.len() - self.gone
    }

    // Who is first.
    pub(crate) fn first(&self) -> Option<u32>
        ensures { result ≡ first_of (line_of self.now) }
    {
        self.waiting().first().copied()
    }

    // Somebody joins the end.
    pub(crate) fn join(&mut self, number: u32)
        requires { joined_of self.old < 512 }
        ensures line { line_of self.new ≡ line_of self.old ++ number ∷ [] }
        ensures joined { joined_of self.new ≡ joined_of self.old + 1 }
    {
        self.numbers.push(number);
    }

    // Where somebody stands among those who wait.
    fn place_of(&self, number: u32) -> Option<usize>
        ensures place { result ≡ position (λ m. m == number) (line_of self.now) }
        ensures within { IfSome result (λ place. self.now.gone + place < joined_of self.now) }
    {
        self.waiting().iter().position(|m| *m == number)
    }

    // Somebody leaves, wherever in line; nobody is in line twice. Where it is the first, the others are not looked at.
    pub(crate) fn leave(&mut self, number: u32)
        requires { Once (line_of self.old) }
        ensures line { line_of self.new ≡ without number (line_of self.old) }
        ensures joined { joined_of self.new ≤ joined_of self.old }
    {
        match self.place_of(number) {
            None => {}
            Some(0) => self.gone += 1,
            Some(place) => {
                self.numbers.remove(self.gone + place);
            }
        }
    }
}
