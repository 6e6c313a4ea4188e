// Puts calls to a day in whichever phase it is, one by one or a whole list on a new day.
#![tactic(auto)]

pub mod call;
pub mod notes;
pub mod phase;
pub mod places;
pub mod reached;
pub mod reply;
pub(crate) mod stage;
pub mod two_days;
pub mod whole_day;
