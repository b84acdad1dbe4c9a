//! What runs a block of an iteration.

ghost use Rattle.std.specs.Prelude.{◌≡◌, ℕ, ◌+◌, ◌<◌, ◌^◌, List, [], IfErr, IfOk};
ghost use Rattle.fg_iter.specs.Lists.{HasRoomForBlock, Lists, MayRun, SpentOnBlock, blocks_of};
ghost use Rattle.fg_model.specs.Iteration.{Begun};
ghost use Rattle.fg_model.specs.Program.{Rules};
ghost use Rattle.fg_part.specs.declared.part_map.PartMap.{PartMap as Map};
ghost use Rattle.fg_part.specs.PartMap.{block_total};
ghost use Rattle.fg_task.specs.Blocks.{HasCause, IsResult};
ghost use Rattle.fg_task.specs.Spending.{Counted, SpentOn};

use fg_base::{Tally, VState};
use fg_model::Program;
use fg_part::PartMap;
use fg_task::{BlockResult, WorkFault};
use std::alloc::Global;
use std::sync::Wait;

/// What runs the blocks of a program's iterations over the lists of one graph, wherever these lie, on states that are handed in.
/// A worker keeps a `K` through all blocks, in which it also counts its runs and entries.
pub trait RunsOn<P: Program, K> {
    type Fault: Drop + Send;

    /// What is known of the lists.
    ghost lists: { Self → Lists };
    /// Whether this iteration may be run; what may be once always may.
    ghost allows: { Self → Rules → Begun → Type 0 };
    /// This was given to a worker for it and these blocks.
    ghost lends: { Self → Map → K → Type 0 };
    /// What was counted.
    ghost spent: { K → Counted };
    /// This fault has a cause in it.
    ghost caused: { Self → Self.Fault → Type 0 };

    /// Runs the active vertices of the block on the states. A bad edge is part of the result.
    fn run_on<R: Wait>(
        &self,
        rt: &R,
        alloc: Global,
        program: &P,
        map: PartMap,
        phase: u64,
        states: &[VState],
        block: u32,
        kept: &mut K,
    ) -> Result<BlockResult, WorkFault<Self::Fault>>
        requires may_run { MayRun (lists self.now) (allows self.now) (P.rules program.now) map phase states.now }
        requires block { block < block_total map }
        requires lent { lends self.now map kept.old }
        requires room { HasRoomForBlock (blocks_of (lists self.now) (P.rules program.now) map phase states.now) block (spent kept.old) }
        ensures result { IfOk result (IsResult (blocks_of (lists self.now) (P.rules program.now) map phase states.now) block) }
        ensures exact { IfOk result (SpentOn (blocks_of (lists self.now) (P.rules program.now) map phase states.now)
            (spent kept.old) (spent kept.new)) }
        // at every answer
        ensures lent { lends self.now map kept.new }
        ensures few { SpentOnBlock (blocks_of (lists self.now) (P.rules program.now) map phase states.now) block
            (spent kept.old) (spent kept.new) }
        ensures fault { IfErr result (λ fault. HasCause (caused self.now) fault) };

    /// No list of no vertex stands on a page.
    ghost none_visited: { (runner : Self) (rules : Rules) → (lists runner).visits rules [] ≡ 0 };
}

/// What also moves what a worker counted into a tally.
pub trait Settles<P: Program, K, T: Tally>: RunsOn<P, K> {
    /// Moves the runs and the entries that a worker counted into the tally.
    fn settle(&self, kept: &mut K, tally: &mut T)
        requires room_of_runs { T.runs tally.old + (Self.spent kept.old).runs < 2 ^ 64 }
        requires room_of_entries { T.entries tally.old + (Self.spent kept.old).entries < 2 ^ 64 }
        ensures runs { T.runs tally.new ≡ T.runs tally.old + (Self.spent kept.old).runs }
        ensures entries { T.entries tally.new ≡ T.entries tally.old + (Self.spent kept.old).entries }
        ensures left { Self.spent kept.new ≡ record { runs = 0; entries = 0; hits = (Self.spent kept.old).hits } }
        ensures lent { (map : Map) → Self.lends self.now map kept.old → Self.lends self.now map kept.new };
}
