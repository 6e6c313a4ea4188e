// Calls of a stop file, drawn from a generator that gives the same on every run.
ghost use Rattle.std.specs.Prelude.{◌≤◌};

use market::words::{Side, Stop};

// A linear congruential generator.
#[derive(Drop)]
pub(crate) struct Random {
    state: u32,
}

impl Random {
    pub(crate) fn new(seed: u32) -> Random {
        Random { state: seed }
    }

    // A number below the bound, or 0.
    pub(crate) fn below(&mut self, bound: u32) -> u32
        ensures { result ≤ bound }
    {
        self.state = self.state.wrapping_mul(1664525).wrapping_add(1013904223);
        if bound == 0 {
            return 0;
        }
        (self.state / 65536) % bound
    }
}

#[derive(Clone, Copy)]
pub(crate) enum Call {
    Add(Stop),
    Remove(u32),
    TakeAt(u32),
}

// How many of each hundred calls add and remove; the others take at a price.
#[derive(Clone, Copy)]
pub(crate) struct Mix {
    pub(crate) calls: u32,
    pub(crate) adds: u32,
    pub(crate) removes: u32,
}

// The next call. A number comes again now and then, and is refused.
pub(crate) fn next_call(random: &mut Random, mix: Mix, last: &mut u32) -> Call {
    let kind = random.below(100);
    if kind < mix.adds {
        *last = last.wrapping_add(random.below(4));
        return Call::Add(new_stop(random, *last));
    }
    if kind < mix.adds.saturating_add(mix.removes) {
        return Call::Remove(random.below(last.wrapping_add(2)));
    }
    Call::TakeAt(1990 + random.below(40))
}

fn new_stop(random: &mut Random, number: u32) -> Stop {
    let side = if random.below(2) == 0 {
        Side::Buy
    } else {
        Side::Sell
    };
    let price = 1960 + random.below(100);
    let shares = 100 * (1 + random.below(50));
    Stop {
        number,
        side,
        price,
        shares,
    }
}
