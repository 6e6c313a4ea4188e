// The same calls to two stop files, and a comparison of all that they answer.
ghost use Rattle.std.specs.Prelude.{◌≡◌, true, ◌&&◌};
ghost use Rattle.stopfiles.specs.Answers.{answer_to, stops_after};

use crate::calls::{Call, Mix, Random, next_call};
use market::words::Stop;
use stops::stop_file::{NotAdded, StopFile};

// What a file answers to a call.
#[derive(Clone, Copy, PartialEq, Eq)]
pub(crate) enum Answer {
    Added(Result<(), NotAdded>),
    Removed(Option<u32>),
    Taken(Option<Stop>),
}

// Puts a call to a file.
fn put<F: StopFile>(file: &mut F, call: Call) -> Answer
    ensures answer { result ≡ answer_to (F.StopFile.room file.old) call (F.StopFile.stops file.old) }
    ensures listed { F.StopFile.stops file.new ≡ stops_after (F.StopFile.room file.old) call (F.StopFile.stops file.old) }
    ensures keeps { F.StopFile.room file.new ≡ F.StopFile.room file.old }
{
    match call {
        Call::Add(stop) => Answer::Added(file.add(stop)),
        Call::Remove(number) => Answer::Removed(file.remove(number)),
        Call::TakeAt(price) => Answer::Taken(file.take_at(price)),
    }
}

fn as_many<F: StopFile, G: StopFile>(first: &F, second: &G) -> bool
    ensures { F.StopFile.stops first.now ≡ G.StopFile.stops second.now → F.StopFile.room first.now ≡ G.StopFile.room second.now → result ≡ true }
{
    first.count() == second.count() && first.capacity() == second.capacity()
}

// What a phase of calls did, and whether both files agreed throughout.
#[derive(Clone, Copy)]
pub(crate) struct Tally {
    pub(crate) added: u32,
    pub(crate) removed: u32,
    pub(crate) taken: u32,
    pub(crate) idle: u32,
    pub(crate) same: bool,
}

impl Tally {
    fn note(&mut self, answer: Answer, same: bool)
        ensures { self.new.same ≡ (self.old.same && same) }
    {
        self.same = self.same && same;
        match answer {
            Answer::Added(Ok(())) => self.added = self.added.saturating_add(1),
            Answer::Removed(Some(_)) => self.removed = self.removed.saturating_add(1),
            Answer::Taken(Some(_)) => self.taken = self.taken.saturating_add(1),
            Answer::Added(Err(_)) | Answer::Removed(None) | Answer::Taken(None) => {
                self.idle = self.idle.saturating_add(1);
            }
        }
    }
}

// Two files that mean the same list and have the same room agree throughout.
pub(crate) fn drive<F: StopFile, G: StopFile>(
    first: &mut F,
    second: &mut G,
    mix: Mix,
    random: &mut Random,
    last: &mut u32,
) -> Tally
    ensures { F.StopFile.stops first.old ≡ G.StopFile.stops second.old → F.StopFile.room first.old ≡ G.StopFile.room second.old → result.same ≡ true }
{
    let mut tally = Tally {
        added: 0,
        removed: 0,
        taken: 0,
        idle: 0,
        same: true,
    };
    for _ in 0..mix.calls {
        let call = next_call(random, mix, last);
        let one = put(first, call);
        let other = put(second, call);
        tally.note(one, one == other && as_many(first, second));
    }
    tally
}
