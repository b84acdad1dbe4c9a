// The count of faults that the implementations keep.
ghost use Rattle.std.specs.Prelude.{◌≡◌, ◌≤◌};
ghost use Rattle.fg_base.specs.Faults.{Rose};

use fg_base::Failed;

/// How often a call has failed. It stands still at its type's end.
#[derive(Clone, Copy, Default, Debug)]
pub(crate) struct FaultCount {
    count: u64,
}

impl FaultCount {
    /// Counts a fault, and gives the answer that tells of it.
    pub(crate) fn fault(&mut self) -> Failed
        ensures later { self.old.count ≤ self.new.count }
        ensures rose { Rose self.old.count self.new.count }
    {
        self.count = self.count.saturating_add(1);
        Failed
    }

    pub(crate) fn get(self) -> u64
        ensures { result ≡ self.count }
    {
        self.count
    }
}
