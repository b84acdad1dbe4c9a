//! When helpers are to end.

ghost use Rattle.std.specs.Prelude.{◌≡◌, false, true};

use std::sync::atomic::{AtomicBool, Ordering};

/// A flag that is set once, when the helpers are to end. No call clears it.
#[derive(Drop)]
pub(crate) struct Stop {
    flag: AtomicBool,
}

/// A look at the flag found it set.
#[derive(Drop)]
pub(crate) struct Stopped {
    seen: bool,
    ghost is_set: { seen ≡ true },
}

/// A look at the flag found it clear.
#[derive(Drop)]
pub(crate) struct Going {
    seen: bool,
    ghost is_clear: { seen ≡ false },
}

impl Stop {
    /// A flag that isn't set.
    pub(crate) fn new() -> Stop {
        Stop {
            flag: AtomicBool::new(false),
        }
    }

    /// Sets the flag.
    pub(crate) fn set(&self) {
        self.flag.store(true, Ordering::SeqCst);
    }

    /// Looks at the flag once. The slips of what it found are made here alone.
    pub(crate) fn look(&self) -> Result<Going, Stopped> {
        let seen = self.flag.load(Ordering::SeqCst);
        if seen {
            Err(Stopped { seen })
        } else {
            Ok(Going { seen })
        }
    }
}
