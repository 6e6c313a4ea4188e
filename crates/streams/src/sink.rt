// What bytes are written to. A failure shows in the state, so that no call has an error.
ghost use Rattle.std.specs.Prelude.{◌≡◌, false, []};
ghost use Rattle.streams.specs.Sinks.{SinkState, Took};

pub trait Sink {
    ghost state: { Self → SinkState };

    // Takes all of the bytes. What it cannot pass on yet it owes, and where it fails, it breaks.
    fn put(&mut self, bytes: &[u8])
        ensures { Took (state self.old) (state self.new) bytes.now };

    // Passes on what it owes.
    fn finish(&mut self)
        ensures took { Took (state self.old) (state self.new) [] }
        ensures none { (state self.new).broken ≡ false → (state self.new).owed ≡ [] };
}
