// The lines of a dialogue: what is printed, and what a line that was read says.
// It uses `bisect` for what a verdict is.
#![tactic(auto)]

pub mod lines;
pub mod reading;
