//! What runs a block over the cache.

use fg_base::{Tally, VState};
use fg_cache::{Cache, FaultShare};
use fg_index::Index;
use fg_iter::{RunsOn, Settles};
use fg_model::Program;
use fg_outside::Drive;
use fg_part::PartMap;
use fg_stripe::Layout;
use fg_task::{BlockResult, RunsBlock, WorkFault};
use fg_worker::{Desk, Hand};
use std::alloc::Global;
use std::sync::Wait;

/// Runs blocks over the cache of an image, with its index and its layout.
#[derive(Drop)]
pub(crate) struct Runner<'a, D: Drive> {
    pub(crate) cache: &'a Cache<D>,
    pub(crate) index: &'a Index,
    pub(crate) layout: Layout,
}

impl<'a, P: Program, D: Drive, T: Tally> RunsOn<P, Hand<T>> for Runner<'a, D> {
    ghost use Rattle.std.specs.Prelude.{◌≡◌};
    ghost use Rattle.fg_engine.specs.Runner.{AllowsPages, IsCacheOf, lists_of};
    ghost use Rattle.fg_engine.specs.NoneNeeded.{none_needed};
    ghost use Rattle.fg_worker.specs.Hand.{IsHand, counted_by};

    type Fault = FaultShare;

    ghost lists = { λ runner. lists_of runner.layout runner.index.now runner.cache.now.site };

    ghost allows = { λ runner rules begun. AllowsPages runner.layout runner.index.now runner.cache.now.site rules begun };

    ghost lends = { λ runner map hand. IsCacheOf runner.layout runner.index.now runner.cache.now.site × IsHand runner.cache.now.site map hand };

    ghost spent = { λ hand. counted_by T.runs T.entries hand };

    ghost caused = { λ runner share. share.books ≡ runner.cache.now.site.books };

    fn run_on<R: Wait>(
        &self,
        rt: &R,
        alloc: Global,
        program: &P,
        map: PartMap,
        phase: u64,
        states: &[VState],
        block: u32,
        kept: &mut Hand<T>,
    ) -> Result<BlockResult, WorkFault<FaultShare>> {
        let desk = Desk {
            program,
            cache: self.cache,
            index: self.index,
            layout: self.layout,
            map,
            states,
            phase,
        };
        desk.run(rt, alloc, block, kept)
    }

    ghost none_visited = { λ runner rules. none_needed runner.layout runner.index.now rules.need };
}

impl<'a, P: Program, D: Drive, T: Tally> Settles<P, Hand<T>, T> for Runner<'a, D> {
    fn settle(&self, kept: &mut Hand<T>, tally: &mut T) {
        kept.settle(tally);
    }
}
