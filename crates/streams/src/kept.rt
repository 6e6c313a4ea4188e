// A reader or a writer of the standard library that keeps its first error.
ghost use Rattle.std.specs.Prelude.{◌≡◌, true, false, not, is_ok, IfSome, []};
ghost use Rattle.streams.specs.Written.{Written};

use crate::retry::{read_again, write_again};
use crate::sink::Sink;
use crate::source::Source;
use std::io;
use std::io::{Error, ErrorKind, Read, Write};

// Once a read or a write has failed, it reads and writes nothing. The flag stays when the error is handed out.
#[derive(Drop)]
pub struct Kept<T> {
    inner: T,
    failed: bool,
    error: Option<Error>,
}

impl<T> Kept<T> {
    pub fn new(inner: T) -> Kept<T>
        ensures inner { result.inner ≡ inner }
        ensures failed { result.failed ≡ false }
    {
        Kept {
            inner,
            failed: false,
            error: None,
        }
    }

    fn keep(&mut self, error: Error)
        ensures inner { self.new.inner ≡ self.old.inner }
        ensures failed { self.new.failed ≡ true }
        ensures error { self.new.error ≡ Some error }
    {
        self.failed = true;
        self.error = Some(error);
    }

    // The error, where a read or a write has failed; when asked again, that there was one.
    pub fn check(&mut self) -> io::Result<()>
        ensures answer { is_ok result ≡ not self.old.failed }
        ensures told { self.old.failed ≡ true → IfSome self.old.error (λ e. result ≡ Err e) }
        ensures inner { self.new.inner ≡ self.old.inner }
        ensures failed { self.new.failed ≡ self.old.failed }
    {
        if !self.failed {
            return Ok(());
        }
        match self.error.take() {
            Some(error) => Err(error),
            None => Err(Error::from(ErrorKind::Other)),
        }
    }
}

impl<R: Read> Source for Kept<R> {
    ghost state = { λ s. record { left = R.remaining s.inner; failed = s.failed } };

    fn read(&mut self, buffer: &mut [u8]) -> usize {
        if self.failed {
            return 0;
        }
        match read_again(&mut self.inner, buffer) {
            Ok(count) => count,
            Err(error) => {
                self.keep(error);
                0
            }
        }
    }
}

// Writes the bytes, or a front of them and an error.
fn write_front<W: Write>(writer: &mut W, bytes: &[u8]) -> io::Result<()>
    ensures { Written (W.contents writer.old) (W.contents writer.new) (is_ok result) bytes.now }
{
    let mut done = 0;
    while done < bytes.len() {
        match write_again(writer, &bytes[done..])? {
            0 => return Err(Error::from(ErrorKind::WriteZero)),
            count => done += count,
        }
    }
    Ok(())
}

impl<W: Write> Sink for Kept<W> {
    ghost state = { λ s. record { arrived = W.contents s.inner; owed = []; broken = s.failed } };

    fn put(&mut self, bytes: &[u8]) {
        if self.failed {
            return;
        }
        if let Err(error) = write_front(&mut self.inner, bytes) {
            self.keep(error);
        }
    }

    fn finish(&mut self) {
        if self.failed {
            return;
        }
        if let Err(error) = self.inner.flush() {
            self.keep(error);
        }
    }
}
