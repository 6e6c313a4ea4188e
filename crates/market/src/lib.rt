#![tactic(auto)]

pub mod bounds;
pub mod change;
pub mod file;
pub mod order;
pub mod prices;
pub mod range;
pub mod refusal;
pub mod roll;
pub mod side;
pub mod words;
