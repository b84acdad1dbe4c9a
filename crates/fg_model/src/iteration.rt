//! The answers of one iteration.

ghost use Rattle.std.specs.Prelude.{◌≡◌};

use fg_base::{BadEdge, Items, Memory, VState};

/// A finished iteration: the states after it, how many vertices were active, and how many messages were sent.
#[derive(Drop)]
pub struct Iteration {
    pub states: Items<VState>,
    pub active: u64,
    pub messages: u64,
}

/// How many vertices were active in a finished iteration, and how many messages were sent.
#[derive(Clone, Copy, PartialEq, Eq, Debug)]
pub struct Counts {
    pub active: u64,
    pub messages: u64,
}

/// Why an iteration wasn't finished.
#[derive(Clone, Copy, PartialEq, Eq, Debug)]
pub enum IterFault {
    Memory,
    /// The drive of this number failed.
    Drive(u32),
    /// A needed entry leads to no vertex.
    BadEdge(BadEdge),
}

impl From<Memory> for IterFault {
    ghost use Rattle.fg_model.specs.declared.iteration.IterFault.{IterFault};

    ghost from_gives = { λ _ fault. fault ≡ IterFault.Memory };

    fn from(_memory: Memory) -> IterFault {
        IterFault::Memory
    }
}

impl From<BadEdge> for IterFault {
    ghost use Rattle.fg_model.specs.declared.iteration.IterFault.{IterFault};

    ghost from_gives = { λ bad fault. fault ≡ IterFault.BadEdge bad };

    fn from(bad: BadEdge) -> IterFault {
        IterFault::BadEdge(bad)
    }
}
