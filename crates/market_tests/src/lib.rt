// Worked examples of the market's parts.
#![tactic(auto)]

#[cfg(test)]
mod parts;
#[cfg(test)]
mod tape;
