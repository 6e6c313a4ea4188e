// Day lines in and out, printed lines out, and the inspection of a day file.
#![tactic(auto)]

mod cut;
pub mod fault;
mod field;
pub mod inspection;
mod letter;
mod line;
mod number;
pub mod printed;
pub mod read;
pub mod record;
pub mod refusal;
pub mod tape;
pub mod write;
