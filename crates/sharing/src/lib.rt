// Rules by which a quantity that trades at one price is shared out over the orders that rest there.
#![tactic(auto)]

pub mod example;
pub mod rotation;
pub mod rule;
#[cfg(test)]
mod tests;
pub mod time_priority;
