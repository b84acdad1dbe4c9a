//! A stretch of a section.

/// Where a vertex's list stands in its section: its first byte and how many it has.
#[derive(Clone, Copy, PartialEq, Eq, Debug)]
pub struct Span {
    pub start: u64,
    pub len: u64,
}
