//! The waves of an iteration: its blocks are run in pieces, so that few messages are on their way at once.
//!
//! [`run_waves`] cuts the list of an iteration's blocks into waves, whose blocks need together no more entries than a bound, or which
//! are one block. The workers run the blocks of a wave, and its messages go into the inboxes before the next wave begins. What it
//! promises: to what had come there came the messages of all blocks, in any order; what is told is what all blocks come to, and the
//! first bad edge along the list, whichever worker met it; and all workers together spent just what is told, and
//! no more than the blocks ask for where a worker failed.
//!
//! Below stand `fg_crew`, which runs the blocks of a wave, and `fg_gather`, which has the inboxes. Above, whoever runs an iteration lists
//! its blocks with their weights, and then gathers.
#![tactic(auto)]

mod cutting;
mod telling;
#[cfg(test)]
mod tests;
mod told;
mod waves;

pub use told::Told;
pub use waves::run_waves;
