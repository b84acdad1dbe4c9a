//! Messages on their way.

/// A message on its way: the vertex that it goes to, and its number.
#[derive(Clone, Copy, PartialEq, Eq, Debug)]
pub struct Mail {
    pub target: u32,
    pub message: u64,
}
