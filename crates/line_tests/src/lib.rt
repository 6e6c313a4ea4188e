// Good and damaged day lines, each with what reading must answer.
#![tactic(auto)]

#[cfg(test)]
mod table;
