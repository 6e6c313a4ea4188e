// A reader and a writer that are interrupted before each read and write.
use std::io;
use std::io::{Error, ErrorKind, Read, Write};

// Gives a text in pieces. Where the text ends, it may fail.
#[derive(Drop)]
pub struct Pieces<'a> {
    rest: &'a [u8],
    piece: usize,
    fails: bool,
    interrupted: bool,
}

impl<'a> Pieces<'a> {
    pub(crate) fn new(text: &'a [u8], piece: usize) -> Pieces<'a> {
        Pieces {
            rest: text,
            piece,
            fails: false,
            interrupted: false,
        }
    }

    // Fails behind the text, once, and would end after that.
    pub(crate) fn failing(text: &'a [u8], piece: usize) -> Pieces<'a> {
        Pieces {
            rest: text,
            piece,
            fails: true,
            interrupted: false,
        }
    }
}

impl Read for Pieces<'_> {
    fn read(&mut self, buf: &mut [u8]) -> io::Result<usize> {
        self.interrupted = !self.interrupted;
        if self.interrupted {
            return Err(Error::from(ErrorKind::Interrupted));
        }
        if self.rest.is_empty() && self.fails {
            self.fails = false;
            return Err(Error::from(ErrorKind::ConnectionReset));
        }
        let count = self.piece.min(self.rest.len()).min(buf.len());
        buf[..count].copy_from_slice(&self.rest[..count]);
        self.rest = &self.rest[count..];
        Ok(count)
    }
}

// Takes at most so many bytes a write, and all in all so many before it fails once.
#[derive(Drop)]
pub struct Narrow<'a> {
    pub taken: &'a mut Vec<u8>,
    pub piece: usize,
    pub room: Option<usize>,
    pub failure: Option<ErrorKind>,
    interrupted: bool,
}

impl<'a> Narrow<'a> {
    pub(crate) fn new(taken: &'a mut Vec<u8>, piece: usize) -> Narrow<'a> {
        Narrow {
            taken,
            piece,
            room: None,
            failure: None,
            interrupted: false,
        }
    }

    // After so many bytes one write fails, or takes nothing where no failure is given. Further ones would succeed.
    pub(crate) fn failing(
        taken: &'a mut Vec<u8>,
        piece: usize,
        room: usize,
        failure: Option<ErrorKind>,
    ) -> Narrow<'a> {
        Narrow {
            taken,
            piece,
            room: Some(room),
            failure,
            interrupted: false,
        }
    }
}

impl Write for Narrow<'_> {
    fn write(&mut self, buf: &[u8]) -> io::Result<usize> {
        self.interrupted = !self.interrupted;
        if self.interrupted {
            return Err(Error::from(ErrorKind::Interrupted));
        }
        let mut count = self.piece.min(buf.len());
        if let Some(room) = self.room {
            count = count.min(room);
            self.room = if count == 0 { None } else { Some(room - count) };
            if count == 0
                && let Some(failure) = self.failure
            {
                return Err(Error::from(failure));
            }
        }
        self.taken.extend_from_slice(&buf[..count])?;
        Ok(count)
    }

    fn flush(&mut self) -> io::Result<()> {
        Ok(())
    }
}

// Takes everything, and fails to pass it on.
#[derive(Drop)]
pub struct Stuck;

impl Write for Stuck {
    fn write(&mut self, buf: &[u8]) -> io::Result<usize> {
        Ok(buf.len())
    }

    fn flush(&mut self) -> io::Result<()> {
        Err(Error::from(ErrorKind::BrokenPipe))
    }
}

// Is interrupted so often, and then reads and writes all that there is room for.
#[derive(Drop)]
pub struct Signalled {
    pub interruptions: u32,
}

impl Signalled {
    fn wait(&mut self) -> io::Result<()> {
        if self.interruptions == 0 {
            return Ok(());
        }
        self.interruptions -= 1;
        Err(Error::from(ErrorKind::Interrupted))
    }
}

impl Read for Signalled {
    fn read(&mut self, buf: &mut [u8]) -> io::Result<usize> {
        self.wait()?;
        buf.fill(b'x');
        Ok(buf.len())
    }
}

impl Write for Signalled {
    fn write(&mut self, buf: &[u8]) -> io::Result<usize> {
        self.wait()?;
        Ok(buf.len())
    }

    fn flush(&mut self) -> io::Result<()> {
        Ok(())
    }
}

// Fails at once, and for another reason when it is to pass on.
#[derive(Drop)]
pub struct Broken;

impl Write for Broken {
    fn write(&mut self, _buf: &[u8]) -> io::Result<usize> {
        Err(Error::from(ErrorKind::BrokenPipe))
    }

    fn flush(&mut self) -> io::Result<()> {
        Err(Error::from(ErrorKind::ConnectionReset))
    }
}
