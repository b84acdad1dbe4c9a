//! What is shown the progress of a run.

ghost use Rattle.std.specs.Prelude.{◌≡◌, ℕ, OnOk, OnErr, Option, List};
ghost use Rattle.fg_base.specs.declared.plain.VState.{VState};
ghost use Rattle.fg_base.specs.Faults.{Counts};
ghost use Rattle.fg_base.specs.Told.{grown, GrewByFirst};
ghost use Rattle.fg_model.specs.declared.watch.IterLine.{IterLine};

use fg_base::{Failed, VState};

/// What is reported of a finished iteration: its number, from 0, its phase, how many vertices were active, and how many
/// entries they needed, which is the number of messages.
#[derive(Clone, Copy, PartialEq, Eq, Debug)]
pub struct IterLine {
    pub number: u32,
    pub phase: u64,
    pub active: u64,
    pub messages: u64,
}

/// What is shown each finished iteration. It may fail, which its count of faults tells.
pub trait Watch {
    /// One thing that it notes.
    type Note;

    /// All that it noted, where it tells it.
    ghost notes: { Self → Option (List Self.Note) };
    /// What it notes of an iteration.
    ghost told: { Self → IterLine → List VState → List Self.Note };
    /// The count of faults; it never falls.
    ghost faults: { Self → ℕ };
    /// From the first value to the second it holds the same borrows. No call changes them, so that whoever lent it one
    /// knows what became of what was lent.
    ghost same_borrows: { Self → Self → Type 0 };

    /// Shows an iteration's line and the states after it. After `Failed` some first notes of it may have been taken.
    fn note(&mut self, line: IterLine, states: &[VState]) -> Result<(), Failed>
        ensures told { told self.new ≡ told self.old }
        ensures same_borrows { same_borrows self.old self.new }
        ensures faults { Counts (faults self.old) (faults self.new) result }
        ensures ok { OnOk result (notes self.new ≡ grown (notes self.old) (told self.old line states.now)) }
        ensures err { OnErr result (GrewByFirst (told self.old line states.now) (notes self.old) (notes self.new)) };

    ghost same_borrows_none: { (watch : Self) → same_borrows watch watch };

    ghost same_borrows_more: { (first middle last : Self) → same_borrows first middle → same_borrows middle last → same_borrows first last };
}
