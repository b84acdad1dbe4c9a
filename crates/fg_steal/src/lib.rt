//! Who takes which block. The blocks of each part are numbered from 0 and lie in two runs: the near run has the first
//! half of them, rounded up, and the far run the others. A worker draws from its own part near run first, and from
//! another's, once its own is spent, far run first, so that the two meet on one word only late. A draw is at most one
//! fetch-and-add on the word of each run. No block is pushed anywhere, nobody waits, and whoever has all seats back
//! knows that each block was drawn exactly once, or at most once where not all was drawn.
//!
//! Below stand `fg_base`, for the want of memory, and `atomic_table`, for the words and the rule that each step keeps.
//! Above, workers draw from one [`Claims`] with a [`Seat`] each, and what gathers their results closes them.
#![tactic(auto)]

mod claims;
mod run;
mod seat;
#[cfg(test)]
mod tests;
mod view;

pub use claims::Claims;
pub use seat::Seat;
