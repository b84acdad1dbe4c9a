//! A run of a program over the drives of an image, by many workers at once.
//!
//! [`run_program`] opens a cache of the image's pages over the drives, gives each worker a pass, an outbox and a part of the tally, and
//! has them run the program's iterations. At the end the drives come back from the cache, with what was read of them; of which drive it
//! is that failed is said by the cache, which has their counts of faults.
//!
//! Below stand `fg_iter`, which makes a run of iterations by a crew, `fg_worker`, which runs a block over the cache, and `fg_cache`. Above,
//! a job opens the drives and writes what comes of the run.
#![tactic(auto)]

mod beside;
mod bounded;
mod hands;
mod helping;
mod naming;
mod options;
mod outfit;
mod runner;
mod running;
mod settling;
mod starting;
mod stopping;
#[cfg(test)]
mod tests;
mod weighing;

pub use fg_iter::Bounds;
pub use options::{BOUNDS, Options};
pub use running::{RunDone, run_program};
