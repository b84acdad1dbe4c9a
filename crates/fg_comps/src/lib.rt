//! The programs that ignore an edge's direction: components and core numbers, by the definitions in `specs/`.
//!
//! Below stand `fg_base` and `fg_model`. Above, a run of `Wcc` gives each vertex the least vertex of its component, and a
//! run of `Core` its core number. What that means is said over the graph alone, in `Components` and `CoreNumbers`.
#![tactic(auto)]

mod cores;
#[cfg(test)]
mod tests;
mod wcc;

pub use cores::Core;
pub use wcc::Wcc;
