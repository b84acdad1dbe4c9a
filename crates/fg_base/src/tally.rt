//! The count of vertex runs.

ghost use Rattle.std.specs.Prelude.{◌≡◌, ℕ, ◌+◌, ◌<◌, ◌^◌};

/// Two numbers that never fall: how many vertices were run, and over how many entries.
///
/// Code that is generic in a tally can neither make one nor drop one, so a tally that was split off has to be
/// joined again. Each call needs its sums to stay below 2^64.
pub trait Tally {
    /// How many vertices were run.
    ghost runs: { Self → ℕ };
    /// How many entries were gone over.
    ghost entries: { Self → ℕ };

    /// Counts one vertex run.
    fn run_one(&mut self)
        requires { runs self.old + 1 < 2 ^ 64 }
        ensures runs { runs self.new ≡ runs self.old + 1 }
        ensures entries { entries self.new ≡ entries self.old };

    /// Counts one entry.
    fn entry_one(&mut self)
        requires { entries self.old + 1 < 2 ^ 64 }
        ensures runs { runs self.new ≡ runs self.old }
        ensures entries { entries self.new ≡ entries self.old + 1 };

    /// A tally with both numbers 0; `self` keeps its own.
    fn split(&mut self) -> Self
        ensures runs { runs self.new ≡ runs self.old }
        ensures entries { entries self.new ≡ entries self.old }
        ensures no_runs { runs result ≡ 0 }
        ensures no_entries { entries result ≡ 0 };

    /// Adds both numbers of the other tally.
    fn join(&mut self, other: Self)
        requires room_of_runs { runs self.old + runs other < 2 ^ 64 }
        requires room_of_entries { entries self.old + entries other < 2 ^ 64 }
        ensures runs { runs self.new ≡ runs self.old + runs other }
        ensures entries { entries self.new ≡ entries self.old + entries other };
}
