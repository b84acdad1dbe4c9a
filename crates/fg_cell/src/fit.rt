//! What a lock says of its value.

/// A value that may stand behind a lock under a name.
pub trait Fit {
    /// What contracts see beside the value. It is fixed when the lock is made.
    type Name: Drop;

    /// The value fits the name.
    ghost fits: { Self.Name → Self → Type 0 };
}
