//! The text form of a graph: reading the edges of a text, line by line, and writing generated edges as such a text.
//!
//! `specs/Text.antt` says what a text is and what it says, whatever pieces it comes in. Below stand the base, the source and the
//! sink of the outside, and the edges of the model; the jobs above read and write texts through these calls alone.
#![tactic(auto)]

mod digits;
mod gathered;
mod generator;
mod line;
mod made;
mod merged;
mod pieces;
mod read;
mod reader;
#[cfg(test)]
mod tests;
mod verdict;
mod written;

pub use made::generate_edges;
pub use read::read_edges;
pub use written::generate;
