// Reading on until a buffer is full.
ghost use Rattle.std.specs.Prelude.{◌≤◌, length};
ghost use Rattle.streams.specs.Sources.{Filled};

use crate::source::Source;

// Reads until the buffer is full, the source ends or a read fails, and answers how many bytes came.
pub fn fill<S: Source>(source: &mut S, buffer: &mut [u8]) -> usize
    ensures bound { result ≤ length buffer.new }
    ensures filled { Filled (S.state source.old) (S.state source.new) result buffer.new }
{
    let mut end = 0;
    while end < buffer.len() {
        let count = source.read(&mut buffer[end..]);
        if count == 0 {
            return end;
        }
        end += count;
    }
    end
}
