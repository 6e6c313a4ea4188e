// The orders of a day: the roll, and on each side the resting orders in order of precedence.
#![tactic(auto)]

pub mod book;
mod deal;
mod numbers;
mod rows;
mod tables;
pub mod ticket;
