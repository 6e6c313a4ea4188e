// A line under construction: a letter, then fields that each follow a tab, then the line's end. The parts are added in place: a line that is
// handed on by value is copied, all 64 bytes of it.
ghost use Rattle.std.specs.Prelude.{◌≡◌, ◌+◌, ◌<◌, ◌≤◌, [], ◌∷◌, ◌++◌, length, Ok};

use crate::field::FieldValue;
use crate::refusal::Refusal;
use arrayvec::ArrayVec;

// Room for a letter, five numbers of ten digits, their tabs and the line's end.
#[derive(Drop)]
pub(crate) struct Line {
    pub(crate) bytes: ArrayVec<u8, 64>,
}

// Not by `write!` into an `ArrayString`: its clause is on success alone, and that it succeeds where there is room did not prove.
impl Line {
    ghost use Rattle.text.specs.Written.{text_of, put_length, put_buffer};

    // A line that begins with its letter.
    pub(crate) fn new(letter: u8) -> Line
        ensures { text_of result ≡ letter ∷ [] }
    {
        let mut bytes = ArrayVec::new();
        bytes.push(letter);
        Line { bytes }
    }

    // A field more, behind a tab.
    pub(crate) fn field<V: FieldValue>(&mut self, value: V)
        requires { length (text_of self.old) + 11 ≤ 64 }
        ensures text { text_of self.new ≡ text_of self.old ++ 9 ∷ V.FieldValue.text value }
        ensures within { length (text_of self.new) ≤ length (text_of self.old) + 11 }
    {
        self.bytes.push(b'\t');
        value.append_to(&mut self.bytes);
    }

    // A letter more, behind a tab.
    pub(crate) fn letter(&mut self, byte: u8)
        requires { length (text_of self.old) + 2 ≤ 64 }
        ensures text { text_of self.new ≡ text_of self.old ++ 9 ∷ byte ∷ [] }
        ensures within { length (text_of self.new) ≤ length (text_of self.old) + 2 }
    {
        self.bytes.push(b'\t');
        self.bytes.push(byte);
    }

    // The line's end.
    pub(crate) fn end(&mut self)
        requires { length (text_of self.old) < 64 }
        ensures { text_of self.new ≡ text_of self.old ++ 10 ∷ [] }
    {
        self.bytes.push(b'\n');
    }

    // Copies the line to the buffer's start, if it fits there.
    pub(crate) fn copy_to(&self, buffer: &mut [u8]) -> Result<usize, Refusal>
        ensures answer { result ≡ put_length (Ok (text_of self.now)) buffer.old }
        ensures buffer { buffer.new ≡ put_buffer (Ok (text_of self.now)) buffer.old }
    {
        let n = self.bytes.len();
        if n > buffer.len() {
            return Err(Refusal::BufferTooShort);
        }
        buffer[..n].copy_from_slice(self.as_slice());
        Ok(n)
    }

    pub(crate) fn as_slice(&self) -> &[u8]
        ensures { result.now ≡ text_of self.now }
    {
        self.bytes.as_slice()
    }
}
