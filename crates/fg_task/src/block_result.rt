//! What comes of running a block.

use fg_base::{BadEdge, Memory};
use fg_batch::Batch;

/// The result of a block.
#[derive(Drop)]
pub struct BlockResult {
    pub block: u32,
    /// How many of its vertices were active.
    pub active: u32,
    /// How many messages they sent, which are as many as the entries that were counted.
    pub sent: u64,
    /// The first needed entry that leads to no vertex. The messages are then those along the other entries.
    pub bad: Option<BadEdge>,
    /// The messages, by their parts and lanes.
    pub batches: Vec<Batch>,
}

/// Why a block has no result.
#[derive(Drop)]
pub enum WorkFault<F: Drop> {
    Memory,
    /// What runs blocks failed.
    Fault(F),
}

impl<F: Drop> From<Memory> for WorkFault<F> {
    ghost use Rattle.std.specs.Prelude.{◌≡◌};
    ghost use Rattle.fg_task.specs.declared.block_result.WorkFault.{WorkFault};

    ghost from_gives = { λ _ fault. fault ≡ WorkFault.Memory };

    fn from(_memory: Memory) -> WorkFault<F> {
        WorkFault::Memory
    }
}
