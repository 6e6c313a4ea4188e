// The phases of a day, as a question answers.
#[derive(Clone, Copy, PartialEq, Eq)]
pub enum Phase {
    Loading,
    Trading,
    Closed,
}
