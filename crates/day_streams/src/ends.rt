// A reader and a writer that handle a few bytes at a time, are interrupted now and then, and fail in the end.
use session::day::replay_stream;
use std::alloc::Global;
use std::io;
use std::io::{Error, ErrorKind, Read, Write};
use streams::kept::Kept;

// How much is handled at a time, how much in all before it fails, and whether every third call is interrupted.
#[derive(Clone, Copy)]
pub(crate) struct Pace {
    pub(crate) step: usize,
    pub(crate) left: usize,
    pub(crate) interrupted: bool,
    pub(crate) calls: u8,
}

pub(crate) const AT_ONCE: Pace = Pace {
    step: usize::MAX,
    left: usize::MAX,
    interrupted: false,
    calls: 0,
};

impl Pace {
    // How many of so many bytes the next call handles.
    fn turn(&mut self, bytes: usize) -> io::Result<usize> {
        self.calls = self.calls % 3 + 1;
        if self.interrupted && self.calls == 3 {
            return Err(Error::from(ErrorKind::Interrupted));
        }
        if bytes == 0 {
            return Ok(0);
        }
        if self.left == 0 {
            return Err(Error::from(ErrorKind::BrokenPipe));
        }
        let count = bytes.min(self.step).min(self.left);
        self.left -= count;
        Ok(count)
    }
}

#[derive(Drop)]
struct Pieces<'a> {
    rest: &'a [u8],
    pace: Pace,
}

impl Read for Pieces<'_> {
    fn read(&mut self, buffer: &mut [u8]) -> io::Result<usize> {
        let room = buffer.len().min(self.rest.len());
        let count = self.pace.turn(room)?.min(room);
        let (front, rest) = self.rest.split_at(count);
        buffer[..count].copy_from_slice(front);
        self.rest = rest;
        Ok(count)
    }
}

#[derive(Drop)]
struct Narrow<'a> {
    taken: &'a mut Vec<u8>,
    pace: Pace,
    flushes: bool,
}

impl Write for Narrow<'_> {
    fn write(&mut self, bytes: &[u8]) -> io::Result<usize> {
        let count = self.pace.turn(bytes.len())?.min(bytes.len());
        self.taken.extend_from_slice(&bytes[..count])?;
        Ok(count)
    }

    fn flush(&mut self) -> io::Result<()> {
        if self.flushes {
            Ok(())
        } else {
            Err(Error::from(ErrorKind::BrokenPipe))
        }
    }
}

// What came of a replay: whether it went well, and what was written.
#[derive(Drop)]
pub(crate) struct Outcome {
    pub(crate) went_well: bool,
    pub(crate) written: Vec<u8>,
}

pub(crate) fn replayed(
    heap: Global,
    text: &[u8],
    read: Pace,
    write: Pace,
    flushes: bool,
) -> Outcome {
    let mut written = Vec::new(heap);
    let mut source = Kept::new(Pieces {
        rest: text,
        pace: read,
    });
    let mut sink = Kept::new(Narrow {
        taken: &mut written,
        pace: write,
        flushes,
    });
    let went_well = replay_stream(&mut source, &mut sink).is_ok();
    Outcome { went_well, written }
}
