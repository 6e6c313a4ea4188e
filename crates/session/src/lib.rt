// A day in text: reads its lines, puts their calls to a new day, and says what is printed of it.
#![tactic(auto)]

pub mod day;
pub mod fault;
mod hearing;
mod showing;
pub mod transcript;
mod turn;
pub mod two_texts;
