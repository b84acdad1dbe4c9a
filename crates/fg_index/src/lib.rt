//! The index of an image: each vertex's degree in both directions, kept in about one byte, and from it the place of each list in
//! its section.
//!
//! Below stands the base with its plain data. What opens an image reads its index with `Index::read`; what runs on vertices asks
//! `degree` and `span`.
#![tactic(auto)]

mod below;
mod degrees;
mod direction;
mod index;
mod low;
mod span;
#[cfg(test)]
mod tests;

pub use index::Index;
pub use span::Span;
