// Notes are taken in lent places.
ghost use Rattle.std.specs.Prelude.{◌≡◌, ◌-◌, ◌&&◌, true, length};
ghost use Rattle.playback.specs.Fitting.{has_room, Continued, SameLent};

use crate::notes::Notes;
use crate::places::Places;
use crate::reply::{CallRefusal, Reply, View};
use market::words::TapeLine;

impl Places<'_> {
    // Lets go what is noted.
    pub fn clear(&mut self)
        ensures lent { (self.new.replies.now ≡ self.old.replies.now) × (self.new.views.now ≡ self.old.views.now) × (self.new.tape.now ≡ self.old.tape.now) }
        ensures none { (self.new.count ≡ 0) × (self.new.used ≡ 0) × (self.new.whole ≡ true) }
        ensures same { SameLent self.old self.new }
    {
        self.count = 0;
        self.used = 0;
        self.whole = true;
    }

    // Whether a call with so many lines can be noted: nothing was left out before it.
    fn has_room(&self, lines: usize) -> bool
        ensures { result ≡ (self.now.whole && has_room (length self.now.replies.now - self.now.count) (length self.now.views.now - self.now.count) (length self.now.tape.now - self.now.used) lines) }
    {
        self.whole
            && self.count < self.replies.len()
            && self.count < self.views.len()
            && lines <= self.tape.len() - self.used
    }
}

impl Notes for Places<'_> {
    ghost notes = { Continued };

    fn note(&mut self, reply: Result<Reply, CallRefusal>, view: View, lines: &[TapeLine]) {
        if self.has_room(lines.len()) {
            self.replies[self.count] = reply;
            self.views[self.count] = view;
            self.count += 1;
            self.tape[self.used..self.used + lines.len()].copy_from_slice(lines);
            self.used += lines.len();
        } else {
            self.whole = false;
        }
    }
}
