//! A tally whose numbers are known to fit.

ghost use Rattle.std.specs.Prelude.{◌≡◌, ◌<◌, ◌^◌};

use fg_base::Tally;
use std::marker::Model;

/// A tally whose numbers are known to fit. A tally that was split off has to be joined again, also where nothing is known of how far the
/// run went.
pub(crate) struct Bounded<T: Tally> {
    tally: T,
}

impl<T: Tally> Model for Bounded<T> {
    ghost use Rattle.std.specs.Prelude.{◌<◌, ◌^◌};

    ghost Value = { T };

    ghost view = { λ inside. inside.tally };

    ghost invariant = { λ inside. (T.runs inside.tally < 2 ^ 64) × (T.entries inside.tally < 2 ^ 64) };
}

impl<T: Tally> Bounded<T> {
    /// This tally.
    pub(crate) fn new(tally: T) -> Bounded<T>
        requires runs { T.runs tally < 2 ^ 64 }
        requires entries { T.entries tally < 2 ^ 64 }
        ensures { result ≡ tally }
    {
        Bounded { tally }
    }

    /// The tally, whose numbers fit.
    pub(crate) fn into_tally(self) -> T
        ensures value { result ≡ self }
        ensures runs { T.runs result < 2 ^ 64 }
        ensures entries { T.entries result < 2 ^ 64 }
    {
        let Bounded { tally } = self;
        tally
    }

    /// Joins a tally in which nothing is counted.
    pub(crate) fn join_none(&mut self, other: Bounded<T>)
        requires no_runs { T.runs other ≡ 0 }
        requires no_entries { T.entries other ≡ 0 }
        ensures runs { T.runs self.new ≡ T.runs self.old }
        ensures entries { T.entries self.new ≡ T.entries self.old }
    {
        let _ = &self.tally;
        self.tally.join(other.into_tally());
    }
}

impl<T: Tally> Tally for Bounded<T> {
    ghost runs = { λ tally. T.runs tally };

    ghost entries = { λ tally. T.entries tally };

    fn run_one(&mut self) {
        self.tally.run_one();
    }

    fn entry_one(&mut self) {
        self.tally.entry_one();
    }

    fn split(&mut self) -> Self {
        Bounded {
            tally: self.tally.split(),
        }
    }

    fn join(&mut self, other: Self) {
        self.tally.join(other.into_tally());
    }
}
