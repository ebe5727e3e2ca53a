// What shows whether a reducer keeps its promises: a recorder of runs, and an inspector of what was recorded.
// It uses the reducer as any other machine, and of `judges` the trait and how lists stand in a row.
#![tactic(auto)]

pub use exhaustive::is_monotone;
pub use inspector::{End, Finding, Transcript, inspect};
pub use recorder::{Machine, Recorded, Reducer, record, recordings_stand, transcribe};

mod exhaustive;
mod inspector;
mod parts;
mod recorder;
