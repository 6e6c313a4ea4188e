// Readers and writers that give and take little, that are interrupted and that fail, and what comes of them.
#![tactic(auto)]

#[cfg(test)]
mod ends;
#[cfg(test)]
mod fakes;
#[cfg(test)]
mod inspection;
