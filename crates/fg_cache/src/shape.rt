//! The shape of a cache.

/// How many page sets a cache has, how many frames each of them, how many loads may wait for a drive, and how many passes there are.
#[derive(Clone, Copy, PartialEq, Eq, Debug)]
pub struct Shape {
    pub sets: u32,
    pub ways: u32,
    pub depth: u32,
    pub passes: u32,
}
