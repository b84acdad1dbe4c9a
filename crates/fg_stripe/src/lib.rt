//! Where the pages of an image stand on its drives: units of so many pages are dealt out to the drives in turn, and
//! each drive keeps its pages in order behind its label, which is its local page 0.
//!
//! Below stands `fg_base`, for the limits, and `byteorder`. What builds or opens an image writes and reads a [`Label`]
//! per drive; what reads a page of it asks `striping::place`, and knows the image by its [`Layout`].
#![tactic(auto)]

pub mod bytes;
mod label;
mod layout;
pub mod striping;
#[cfg(test)]
mod tests;

pub use label::Label;
pub use layout::{Layout, Place};
