//! A watch in memory.

ghost use Rattle.std.specs.Prelude.{◌≡◌, [], Some};

use crate::watch::{IterLine, Watch};
use fg_base::{Failed, Items, VState};
use std::alloc::Global;

/// A note of a `VecWatch`: an iteration's line, and the states after it.
#[derive(Drop)]
pub struct Shown {
    pub line: IterLine,
    pub states: Items<VState>,
}

/// A watch in memory, for tests. It tells one note for each iteration, and fails at the calls that it was told of when
/// it was made and where its list can't grow.
#[derive(Drop)]
pub struct VecWatch {
    alloc: Global,
    notes: Vec<Shown>,
    fails: Vec<u32>,
    calls: u32,
    faults: u64,
}

impl VecWatch {
    /// A watch without notes. `fails` lists the calls that fail, by their numbers from 1.
    pub fn new(alloc: Global, fails: Vec<u32>) -> VecWatch
        ensures notes { ⟦<VecWatch as Watch>⟧.notes result ≡ Some [] }
        ensures faults { ⟦<VecWatch as Watch>⟧.faults result ≡ 0 }
    {
        VecWatch {
            alloc,
            notes: Vec::new(alloc),
            fails,
            calls: 0,
            faults: 0,
        }
    }

    /// All notes.
    pub fn notes(&self) -> &[Shown]
        ensures { ⟦<VecWatch as Watch>⟧.notes self.now ≡ Some result.now }
    {
        &self.notes
    }

    /// How often a call has failed.
    pub fn faults(&self) -> u64
        ensures { ⟦<VecWatch as Watch>⟧.faults self.now ≡ result }
    {
        self.faults
    }
}

impl Watch for VecWatch {
    ghost use Rattle.std.specs.Prelude.{◌∷◌};

    type Note = Shown;

    ghost notes = { λ watch. Some watch.notes.items };

    ghost told = { λ watch line states. record { line = line; states = states } ∷ [] };

    ghost faults = { λ watch. watch.faults };

    ghost same_borrows = { λ _ _. Unit {0} };

    ghost same_borrows_none = { λ _. tt };

    ghost same_borrows_more = { λ _ _ _ _ _. tt };

    fn note(&mut self, line: IterLine, states: &[VState]) -> Result<(), Failed> {
        self.calls = self.calls.saturating_add(1);
        if self.fails.contains(&self.calls) {
            self.faults = self.faults.saturating_add(1);
            return Err(Failed);
        }
        let Ok(states) = states.to_vec(self.alloc) else {
            self.faults = self.faults.saturating_add(1);
            return Err(Failed);
        };
        let shown = Shown {
            line,
            states: Items::from_vec(states),
        };
        if self.notes.push(shown).is_err() {
            self.faults = self.faults.saturating_add(1);
            return Err(Failed);
        }
        Ok(())
    }
}
