//! The programs that follow walks from a source, by the definitions in `specs/`.
//!
//! Below stand `fg_base` and `fg_model`. Above, a run of `Bfs` gives each vertex its level, and a run of `Sssp`
//! the least weight of a walk to it. What that means is said over walks alone, in `Walks`.
#![tactic(auto)]

mod least_walks;
#[cfg(test)]
mod tests;

pub use least_walks::{Bfs, LeastWalks, Sssp};
