//! The queue of loads that wait for one drive, and the merging of asks for pages. Pure: no lock, no thread and no drive is here.
//!
//! A worker pushes a load when a page set gives it a frame to fill. Whoever serves the drive takes a run: the oldest load, and after
//! it the oldest load of the next local page, and so on, so that one read of the drive serves up to 32 of them. `specs/QueueStep`
//! says what each call does to the list of waiting loads; `specs/Merge` says what `merge_asks` gives.
//!
//! It stands on `fg_base` alone. The crates above put a `Queue` behind a drive's lock, and take a slip (`QueueFull`, `QueueEmpty`,
//! `LoadRun`) for what the call that made it saw: nobody else can make one.
#![tactic(auto)]

mod asks;
mod load;
mod merge;
mod queue;
mod run;
mod slips;
mod take;
#[cfg(test)]
mod tests;

pub use asks::{AskList, PageAsk};
pub use load::Load;
pub use merge::{PageRun, merge_asks};
pub use queue::Queue;
pub use run::LoadRun;
pub use slips::{QueueEmpty, QueueFull};
