// What is wrong with a line.
use crate::refusal::Refusal;

// The cause, and the field's place: the letter is field 1. No `Option`: 0, the whole line, is printed as such.
#[derive(Clone, Copy)]
pub struct LineFault {
    pub cause: Refusal,
    pub field: u32,
}
