// What bytes are read from and written to: a failure shows in the state of a source or sink, so that no call has an error.
#![tactic(auto)]

pub mod buffered;
pub mod fill;
pub mod kept;
pub mod relay;
mod retry;
pub mod sink;
pub mod source;
