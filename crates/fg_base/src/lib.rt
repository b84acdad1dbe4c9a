//! The words that every layer of the engine shares: its limits, the plain data of a graph and of a vertex's
//! state, the refusals with their statuses, and the count of vertex runs.
//!
//! Nothing stands below but the kit. Every crate above may name everything here.
#![tactic(auto)]

mod answers;
mod count;
mod items;
pub mod limits;
mod plain;
mod refusal;
mod tally;
#[cfg(test)]
mod tests;

pub use answers::{Failed, Memory};
pub use count::Count;
pub use items::Items;
pub use plain::{BadEdge, Dir, Entry, Need, VState, Value};
pub use refusal::{Opt, Refusal, WordFault};
pub use tally::Tally;
