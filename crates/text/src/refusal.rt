// Why a line, a record or an input is refused.
ghost use Rattle.std.specs.Prelude.{◌≡◌};
ghost use Rattle.text.specs.Refusals.{code_of};

// Each with the number that is printed for it.
#[derive(Clone, Copy, PartialEq, Eq, Debug)]
pub enum Refusal {
    EmptyText = 10,
    UnknownLetter = 11,
    FieldCount = 12,
    BadNumber = 13,
    BadLetter = 14,
    NumberTooLarge = 15,
    BufferTooShort = 16,
    InputTooLong = 17,
}

impl Refusal {
    // The number that is printed for it.
    pub fn code(self) -> u32
        ensures { result ≡ code_of self }
    {
        self as u32
    }
}
