//! What the blocks of an iteration told.

ghost use Rattle.std.specs.Prelude.{◌≡◌, ◌+◌, ◌^◌, ◌<◌};

use fg_base::BadEdge;

/// What came of running blocks.
#[derive(Clone, Copy, PartialEq, Eq, Debug)]
pub struct Told {
    /// How many of their vertices were active.
    pub active: u64,
    /// How many messages these sent.
    pub sent: u64,
    /// The first needed entry that leads to no vertex. The wave that has it is then the last one that was run.
    pub bad: Option<BadEdge>,
}

impl Told {
    /// Of no block.
    pub(crate) const NOTHING: Told = Told {
        active: 0,
        sent: 0,
        bad: None,
    };

    /// With what came of the next blocks, where the ones before had no bad edge.
    pub(crate) fn then(self, next: Told) -> Told
        requires active { self.active + next.active < 2 ^ 64 }
        requires sent { self.sent + next.sent < 2 ^ 64 }
        ensures { (result.active ≡ self.active + next.active) × (result.sent ≡ self.sent + next.sent) × (result.bad ≡ next.bad) }
    {
        Told {
            active: self.active + next.active,
            sent: self.sent + next.sent,
            bad: next.bad,
        }
    }
}
