//! What the words say of one option.

ghost use Rattle.std.specs.Prelude.{◌≡◌};
ghost use Rattle.fg_words.specs.CommandLine.{found, is_there, is_out_of_range, value_or};

/// What the words say of an option that has a value.
#[derive(Clone, Copy, PartialEq, Eq, Debug)]
pub(crate) enum Said<T> {
    Nothing,
    /// A value that isn't in the option's range.
    OutOfRange,
    Value(T),
}

impl<T: Copy> Said<T> {
    /// What is said by a value that was looked for within the option's range.
    pub(crate) fn found(value: Option<T>) -> Said<T>
        ensures { result ≡ found value }
    {
        match value {
            Some(value) => Said::Value(value),
            None => Said::OutOfRange,
        }
    }

    /// Whether the option is there.
    pub(crate) fn is_there(&self) -> bool
        ensures { result ≡ is_there self.now }
    {
        match self {
            Said::Nothing => false,
            Said::OutOfRange | Said::Value(_) => true,
        }
    }

    /// Whether the option is there with a value that isn't in its range.
    pub(crate) fn is_out_of_range(&self) -> bool
        ensures { result ≡ is_out_of_range self.now }
    {
        match self {
            Said::OutOfRange => true,
            Said::Nothing | Said::Value(_) => false,
        }
    }

    /// The value, or this where there is none.
    pub(crate) fn value_or(self, default: T) -> T
        ensures { result ≡ value_or self default }
    {
        match self {
            Said::Value(value) => value,
            Said::Nothing | Said::OutOfRange => default,
        }
    }
}
