//! A worker's place in the crew.

ghost use Rattle.std.specs.Prelude.{◌≡◌};

use fg_steal::Seat;
use fg_task::{BlockResult, WorkFault};

/// What a worker has in one wave: its seat at the claims, the results of what it drew, and how it ended.
#[derive(Drop)]
pub struct Desk<F: Drop> {
    pub(crate) seat: Seat,
    pub(crate) results: Vec<BlockResult>,
    pub(crate) end: Result<(), WorkFault<F>>,
}

/// What a worker keeps through all waves, and its desk in one of them.
pub struct Slot<K, F: Drop> {
    pub kept: K,
    pub(crate) desk: Option<Desk<F>>,
}

impl<K, F: Drop> Slot<K, F> {
    /// The slot of a worker who keeps this.
    pub fn new(kept: K) -> Slot<K, F>
        ensures { result.kept ≡ kept }
    {
        Slot { kept, desk: None }
    }

    /// What the worker kept.
    pub fn into_kept(self) -> K
        ensures { result ≡ self.kept }
    {
        let Slot { kept, desk: _ } = self;
        kept
    }
}
