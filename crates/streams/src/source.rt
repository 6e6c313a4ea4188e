// What bytes are read from. A failure shows in the state, so that no call has an error.
ghost use Rattle.std.specs.Prelude.{◌≤◌, length};
ghost use Rattle.streams.specs.Sources.{SourceState, Gave};

pub trait Source {
    ghost state: { Self → SourceState };

    // Reads some bytes to the buffer's front, and answers how many.
    fn read(&mut self, buffer: &mut [u8]) -> usize
        ensures bound { result ≤ length buffer.new }
        ensures gave { Gave (state self.old) (state self.new) result buffer.new };
}
