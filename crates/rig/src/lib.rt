// What trials are made with: a generator, the digits of a number, one trial, and a tally of how many questions were asked.
// It uses `judges` and `inspect`, and the reducer through them.
#![tactic(auto)]

pub use desk::{Desk, Shown, Wrong};
pub use numerals::{NoBase, digits};
pub use random::Random;
pub use tally::{Count, Row};

mod desk;
mod numerals;
mod random;
mod tally;
