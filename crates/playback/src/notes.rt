// A place to note what came of each call.
ghost use Rattle.playback.specs.Replies.{answer_of};
ghost use Rattle.playback.specs.Seen.{Seen};

use crate::reply::{CallRefusal, Reply, View};
use market::words::TapeLine;

// It cannot stop a replay: what is noted of a list is the caller's matter, and the day goes on.
pub trait Notes {
    // from what was noted before a call to what is noted after it
    ghost notes: { Self → Seen → Self → Type 0 };

    // What a call answered, what is seen of the day after it, and the lines that it wrote.
    fn note(&mut self, reply: Result<Reply, CallRefusal>, view: View, lines: &[TapeLine])
        ensures { notes self.old (record { answer = answer_of reply; view = view; lines = lines.now }) self.new };
}
