//! The one tally that is built.

ghost use Rattle.std.specs.Prelude.{◌≡◌};

use crate::tally::Tally;

/// A tally in two numbers.
#[derive(Drop, Debug)]
pub struct Count {
    runs: u64,
    entries: u64,
}

impl Tally for Count {
    ghost runs = { λ count. count.runs };

    ghost entries = { λ count. count.entries };

    fn run_one(&mut self) {
        self.runs += 1;
    }

    fn entry_one(&mut self) {
        self.entries += 1;
    }

    fn split(&mut self) -> Self {
        Count::new()
    }

    fn join(&mut self, other: Self) {
        self.runs += other.runs;
        self.entries += other.entries;
    }
}

impl Count {
    /// A tally with both numbers 0.
    pub fn new() -> Count
        ensures runs { ⟦<Count as Tally>⟧.runs result ≡ 0 }
        ensures entries { ⟦<Count as Tally>⟧.entries result ≡ 0 }
    {
        Count {
            runs: 0,
            entries: 0,
        }
    }

    /// How many vertices were run.
    pub fn runs(&self) -> u64
        ensures { result ≡ ⟦<Count as Tally>⟧.runs self.now }
    {
        self.runs
    }

    /// How many entries were gone over.
    pub fn entries(&self) -> u64
        ensures { result ≡ ⟦<Count as Tally>⟧.entries self.now }
    {
        self.entries
    }
}
