//! An iteration by many workers at once, and a whole run of them.
//!
//! A crew has the states of the vertices, the marks of blocks with an active one, the workers' slots and the inboxes. One iteration on it
//! runs the blocks with a mark in waves on the states as they stand, then each vertex of a block that was run or to which something came
//! gets its new state. What runs a block is a [`RunsOn`]; this crate knows no drive and no page. [`run_by_crew`] makes a whole run of
//! it, through `run_engine`. What it promises: the states, the counts and the first bad edge are those of the synchronous iteration and
//! run, and the tally counts each run of a vertex and each of its entries once, by whichever worker.
//!
//! Below stand `fg_wave`, which runs blocks in waves, and `fg_gather`, which gathers what they sent. Above, whoever has the lists of a
//! graph on drives implements `RunsOn`.
#![tactic(auto)]

mod crew;
mod engine;
mod frozen;
mod iterating;
mod lending;
mod listing;
mod running;
mod runs_on;
mod settling;
#[cfg(test)]
mod tests;
mod unfinished;

pub use iterating::Bounds;
pub use running::{CrewRun, run_by_crew};
pub use runs_on::{RunsOn, Settles};
