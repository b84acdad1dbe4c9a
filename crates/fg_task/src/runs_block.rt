//! What runs one block for a worker.

ghost use Rattle.std.specs.Prelude.{◌≡◌, ◌<◌, IfErr, IfOk};
ghost use Rattle.fg_task.specs.Blocks.{Blocks, HasCause, IsResult};
ghost use Rattle.fg_task.specs.Spending.{HasRoom, Counted, SpentOn, SpentUpTo};
ghost use Rattle.fg_part.specs.PartMap.{block_total};

use crate::block_result::{BlockResult, WorkFault};
use std::alloc::Global;
use std::sync::Wait;

/// What runs one block for a worker, who keeps a `K` through all blocks.
pub trait RunsBlock<K> {
    type Fault: Drop + Send;

    /// What is known of the blocks.
    ghost blocks: { Self → Blocks };
    /// This was given to a worker for it.
    ghost lends: { Self → K → Type 0 };
    /// What was counted.
    ghost spent: { K → Counted };
    /// This fault has a cause in it.
    ghost caused: { Self → Self.Fault → Type 0 };

    /// Runs the block. A bad edge is part of the result, since the first one of all blocks is wanted.
    fn run<R: Wait>(
        &self,
        rt: &R,
        alloc: Global,
        block: u32,
        kept: &mut K,
    ) -> Result<BlockResult, WorkFault<Self::Fault>>
        requires block { block < block_total (blocks self.now).map }
        requires lent { lends self.now kept.old }
        requires room { HasRoom (spent kept.old) ((blocks self.now).active_of block) ((blocks self.now).needed_of block) }
        ensures result { IfOk result (λ result. IsResult (blocks self.now) block result) }
        ensures exact { IfOk result (λ result. SpentOn (blocks self.now) (spent kept.old) (spent kept.new) result) }
        // at every answer
        ensures lent { lends self.now kept.new }
        ensures few { SpentUpTo (spent kept.old) (spent kept.new) ((blocks self.now).active_of block) ((blocks self.now).needed_of block) }
        ensures fault { IfErr result (λ fault. HasCause (caused self.now) fault) };
}
