//! A vertex's list on the pages of an image: which stretch of each page is its, and the entries of a stretch.
//!
//! `fg_index` tells where a list stands, `fg_image` what an entry is. What reads pages asks [`segments`] which pages a list stands
//! on, and reads the [`entries`] of each segment out of that page's bytes. Nothing here takes memory.
#![tactic(auto)]

pub mod iter;
mod lists;
mod segment;
#[cfg(test)]
mod tests;

pub use lists::{entries, segments};
pub use segment::Segment;
