//! The two iterators.

mod entries;
mod segments;

pub use entries::Entries;
pub use segments::Segments;
