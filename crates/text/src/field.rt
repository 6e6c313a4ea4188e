// The fields of a line, one after the other.
ghost use Rattle.std.specs.Prelude.{◌≡◌, ℕ, ◌+◌, ◌<◌, ◌≤◌, List, [], ◌∷◌, ◌++◌, Some, None, Option as Maybe, MatchResult, decimal};
ghost use Rattle.arrayvec.specs.ArrayVec.{array_vec_len};
ghost use Rattle.text.specs.Cuts.{up_to, past};
ghost use Rattle.text.specs.Numbers.{number_in};
ghost use Rattle.text.specs.Letters.{only_byte, named};
ghost use Rattle.text.specs.Reading.{fault_at};
ghost use Rattle.text.specs.declared.refusal.Refusal.{Refusal as RefusalOf};
ghost use Rattle.text.specs.declared.refusal.Refusal.TheVariants.{BadNumber, BadLetter};

use crate::cut::split_at_mark;
use crate::fault::LineFault;
use crate::letter::Lettered;
use crate::number::number_in;
use crate::refusal::Refusal;
use arrayvec::ArrayVec;
use itoa::Buffer;

// What a field can hold, how it is written, and how a field that does not hold one is refused.
pub(crate) trait FieldValue: Copy {
    ghost meaning: { List ℕ → Maybe Self };

    ghost text: { Self → List ℕ };

    ghost cause: { RefusalOf };

    fn in_field(field: &[u8]) -> Option<Self>
        ensures { result ≡ meaning field.now };

    fn append_to(self, line: &mut ArrayVec<u8, 64>)
        requires { array_vec_len line.old + 10 ≤ 64 }
        ensures text { line.new.items ≡ line.old.items ++ text self }
        ensures within { array_vec_len line.new ≤ array_vec_len line.old + 10 };

    fn refusal() -> Refusal
        ensures { result ≡ cause };
}

impl FieldValue for u32 {
    ghost meaning = { number_in };

    ghost text = { decimal };

    ghost cause = { BadNumber };

    fn in_field(field: &[u8]) -> Option<u32> {
        number_in(field)
    }

    fn append_to(self, line: &mut ArrayVec<u8, 64>) {
        // a digit alone needs no buffer
        if self < 10 {
            line.push(b'0' + self as u8);
            return;
        }
        let _fits = line.try_extend_from_slice(Buffer::new().format(self).as_bytes());
    }

    fn refusal() -> Refusal {
        Refusal::BadNumber
    }
}

impl<L: Lettered> FieldValue for L {
    ghost meaning = { λ field. named L.meaning (only_byte field) };

    ghost text = { λ value. L.letter value ∷ [] };

    ghost cause = { BadLetter };

    fn in_field(field: &[u8]) -> Option<L> {
        match field {
            [byte] => L::from_letter(*byte),
            _ => None,
        }
    }

    fn append_to(self, line: &mut ArrayVec<u8, 64>) {
        line.push(self.letter());
    }

    fn refusal() -> Refusal {
        Refusal::BadLetter
    }
}

// The fields still to be read, and the place of the next.
#[derive(Drop)]
pub(crate) struct Fields<'a> {
    pub(crate) rest: &'a [u8],
    pub(crate) place: u32,
}

impl<'a> Fields<'a> {
    // The bytes of the next field.
    fn take_bytes(&mut self) -> &'a [u8]
        requires { self.old.place < 10 }
        ensures field { result.now ≡ up_to 9 self.old.rest.now }
        ensures rest { self.new.rest.now ≡ past 9 self.old.rest.now }
        ensures place { self.new.place ≡ self.old.place + 1 }
    {
        let (field, rest) = split_at_mark(self.rest, b'\t');
        self.rest = rest;
        self.place += 1;
        field
    }

    // What the next field holds.
    pub(crate) fn take_value<V: FieldValue>(&mut self) -> Result<V, LineFault>
        requires { self.old.place < 10 }
        ensures value { MatchResult result (λ v. V.FieldValue.meaning (up_to 9 self.old.rest.now) ≡ Some v) (λ e. (V.FieldValue.meaning (up_to 9 self.old.rest.now) ≡ None) × (e ≡ fault_at V.FieldValue.cause self.old.place)) }
        ensures rest { self.new.rest.now ≡ past 9 self.old.rest.now }
        ensures place { self.new.place ≡ self.old.place + 1 }
    {
        let field = self.place;
        V::in_field(self.take_bytes()).ok_or(LineFault {
            cause: V::refusal(),
            field,
        })
    }
}
