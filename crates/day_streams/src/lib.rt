// What the program `day` calls, over readers and writers that give and take little, or fail.
#![tactic(auto)]

#[cfg(test)]
mod ends;
#[cfg(test)]
mod failures;
#[cfg(test)]
mod limits;
#[cfg(test)]
mod texts;
