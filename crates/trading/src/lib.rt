// A trading day: the calls that it takes, phase by phase, and the questions that may be put to it.
#![tactic(auto)]

pub mod answer;
pub mod board;
pub mod day;
mod filing;
mod line;
pub mod loading;
pub mod trading_day;
