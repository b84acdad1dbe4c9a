//! The blocks of one iteration.

ghost use Rattle.std.specs.Prelude.{◌≡◌};

use crate::runs_on::RunsOn;
use fg_base::VState;
use fg_model::Program;
use fg_part::PartMap;
use fg_task::{BlockResult, RunsBlock, WorkFault};
use std::alloc::Global;
use std::sync::Wait;

/// What the blocks of one iteration are run on: the states as they stand when it begins.
#[derive(Drop)]
pub(crate) struct Frozen<'a, P, B> {
    pub(crate) program: &'a P,
    pub(crate) runner: &'a B,
    pub(crate) map: PartMap,
    pub(crate) phase: u64,
    pub(crate) states: &'a [VState],
}

impl<'a, P: Program, K, B: RunsOn<P, K>> RunsBlock<K> for Frozen<'a, P, B> {
    ghost use Rattle.fg_iter.specs.Lists.{MayRun, blocks_of};

    type Fault = B::Fault;

    ghost blocks = { λ frozen. blocks_of (B.lists frozen.runner.now) (P.rules frozen.program.now) frozen.map frozen.phase frozen.states.now };

    ghost lends = { λ frozen kept. MayRun (B.lists frozen.runner.now) (B.allows frozen.runner.now) (P.rules frozen.program.now) frozen.map
        frozen.phase frozen.states.now × B.lends frozen.runner.now frozen.map kept };

    ghost spent = { λ kept. B.spent kept };

    ghost caused = { λ frozen fault. B.caused frozen.runner.now fault };

    fn run<R: Wait>(
        &self,
        rt: &R,
        alloc: Global,
        block: u32,
        kept: &mut K,
    ) -> Result<BlockResult, WorkFault<B::Fault>> {
        self.runner.run_on(
            rt,
            alloc,
            self.program,
            self.map,
            self.phase,
            self.states,
            block,
            kept,
        )
    }
}
