#![tactic(auto)]

pub mod arrival;
pub mod price;
mod rows;
mod seats;
pub mod stop_file;
mod table;
pub mod tables;
pub mod taking;
