//! Which vertex stands in which block, and which block in which part. A worker owns a part, and draws the blocks of
//! all parts by their numbers.
//!
//! Below stands `fg_base`, for the limits. What draws blocks, sends messages to parts or counts a part's blocks takes
//! its numbers from a [`PartMap`].
#![tactic(auto)]

mod part_map;
#[cfg(test)]
mod tests;

pub use part_map::PartMap;
