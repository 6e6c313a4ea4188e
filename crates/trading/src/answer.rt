// What a call answers besides a number.

// The number of the order that was entered, and how many lines were written.
#[derive(Clone, Copy)]
pub struct Receipt {
    pub number: u32,
    pub lines: usize,
}
