// Single reads and writes, tried again where a signal interrupts them. As nothing says that signals end, the tries are counted.
ghost use Rattle.std.specs.Prelude.{length};
ghost use Rattle.std.specs.Io.{ReadsAtMost, WritesAtMost};
ghost use Rattle.std.specs.Io.KnownBytes.{ReadConsumes, WriteAppends};

use std::io;
use std::io::{Error, ErrorKind, Read, Write};

fn is_interrupted(error: &Error) -> bool {
    error.kind() == ErrorKind::Interrupted
}

pub(crate) fn read_again<R: Read>(reader: &mut R, buffer: &mut [u8]) -> io::Result<usize>
    ensures bound { ReadsAtMost result buffer.new }
    ensures bytes { ReadConsumes (R.remaining reader.old) (R.remaining reader.new) result buffer.new }
{
    for _ in 0..u64::MAX {
        match reader.read(buffer) {
            Err(error) if is_interrupted(&error) => {}
            answer => return answer,
        }
    }
    Err(Error::from(ErrorKind::TimedOut))
}

pub(crate) fn write_again<W: Write>(writer: &mut W, bytes: &[u8]) -> io::Result<usize>
    ensures bound { WritesAtMost result bytes.now }
    ensures bytes { WriteAppends (W.contents writer.old) (W.contents writer.new) result bytes.now }
{
    for _ in 0..u64::MAX {
        match writer.write(bytes) {
            Err(error) if is_interrupted(&error) => {}
            answer => return answer,
        }
    }
    Err(Error::from(ErrorKind::TimedOut))
}
