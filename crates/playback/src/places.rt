// Lent places for what came of a list of calls.
ghost use Rattle.std.specs.Prelude.{◌≡◌, ◌≤◌, true, length, take};

use crate::reply::{CallRefusal, Reply, View};
use market::words::TapeLine;

pub mod noting;

// A list of calls is one run of a day, and the run does not depend on how much of it somebody wants to keep: so all calls are performed in any
// case, and the places keep the longest beginning of the list whose replies, views and lines all fit.
#[derive(Drop)]
pub struct Places<'a> {
    pub(crate) replies: &'a mut [Result<Reply, CallRefusal>],
    pub(crate) views: &'a mut [View],
    pub(crate) tape: &'a mut [TapeLine],
    // how many calls are noted, and how many lines they wrote
    pub(crate) count: usize,
    pub(crate) used: usize,
    // nothing was left out
    pub(crate) whole: bool,
    ghost in_replies: { count ≤ length replies.now },
    ghost in_views: { count ≤ length views.now },
    ghost in_tape: { used ≤ length tape.now },
}

impl<'a> Places<'a> {
    // What the places held before does not matter.
    pub fn new(
        replies: &'a mut [Result<Reply, CallRefusal>],
        views: &'a mut [View],
        tape: &'a mut [TapeLine],
    ) -> Places<'a>
        ensures lent { (result.replies.now ≡ replies.old) × (result.views.now ≡ views.old) × (result.tape.now ≡ tape.old) }
        ensures none { (result.count ≡ 0) × (result.used ≡ 0) × (result.whole ≡ true) }
        ensures same { (result.replies.ghost_name ≡ replies.entry.ghost_name) × (result.views.ghost_name ≡ views.entry.ghost_name) × (result.tape.ghost_name ≡ tape.entry.ghost_name) }
    {
        Places {
            replies,
            views,
            tape,
            count: 0,
            used: 0,
            whole: true,
        }
    }

    // The replies to the calls that are noted, first to last.
    pub fn replies(&self) -> &[Result<Reply, CallRefusal>]
        ensures { result.now ≡ take self.now.count self.now.replies.now }
    {
        &self.replies[..self.count]
    }

    // What was seen after each of them.
    pub fn views(&self) -> &[View]
        ensures { result.now ≡ take self.now.count self.now.views.now }
    {
        &self.views[..self.count]
    }

    // Their lines, one call after the other.
    pub fn tape(&self) -> &[TapeLine]
        ensures { result.now ≡ take self.now.used self.now.tape.now }
    {
        &self.tape[..self.used]
    }

    // Whether every call is noted.
    pub fn is_whole(&self) -> bool
        ensures { result ≡ self.now.whole }
    {
        self.whole
    }
}
