//! The workers' run, beside which helpers serve the drives.

ghost use denote.Param.Send.{IsSend};
ghost use Rattle.std.specs.Prelude.{◌≡◌, ◌<◌, ◌≤◌, ◌^◌, length};
ghost use Rattle.fg_engine.specs.Crew.{AreReady, CameOf, MayRunOn, run_on};
ghost use Rattle.fg_engine.specs.Helping.{AreEnds};

use crate::bounded::Bounded;
use crate::hands::HandSlot;
use crate::helping::{HelperEnd, beside};
use crate::runner::Runner;
use fg_base::{Tally, VState};
use fg_build::Opened;
use fg_cache::{Cache, FaultShare};
use fg_iter::{Bounds, CrewRun, run_by_crew};
use fg_model::{Program, Watch};
use fg_outside::Drive;
use fg_part::PartMap;
use fg_worker::Hand;
use std::alloc::Global;
use std::sync::Wait;
use std::thread::Threads;

/// The run by these workers, while a helper serves each of the first drives, one for each place of `ends`.
pub(crate) fn run_beside<
    P: Program + Sync,
    D: Drive + Send,
    W: Watch,
    T: Tally + Send,
    R: Threads + Wait + Sync,
>(
    rt: &R,
    alloc: Global,
    cache: &Cache<D>,
    ends: &mut [HelperEnd],
    opened: &Opened,
    program: &P,
    map: PartMap,
    weights: &[u64],
    bounds: Bounds,
    states: Vec<VState>,
    slots: Vec<HandSlot<T>>,
    max: u32,
    watch: &mut W,
    tally: &mut Bounded<T>,
) -> CrewRun<Hand<Bounded<T>>, FaultShare>
    requires may { MayRunOn (run_on (P.rules program.now) opened.now cache.now.site map max) weights.now states.items }
    requires ready { AreReady (run_on (P.rules program.now) opened.now cache.now.site map max) T.Tally slots.items tally.old }
    requires drives { length ends.old ≤ cache.now.site.layout.drives }
    requires few { length ends.old < 2 ^ 32 }
    ensures came { CameOf (run_on (P.rules program.now) opened.now cache.now.site map max) T.Tally W.Watch
        slots.items tally.old watch.old result tally.new watch.new }
    ensures ends { AreEnds cache.now.site.books (length ends.old) ends.new }
{
    beside(
        rt,
        cache,
        ends,
        slots,
        watch,
        tally,
        |slots: Vec<HandSlot<T>>, watch: &mut W, tally: &mut Bounded<T>| -> CrewRun<
            Hand<Bounded<T>>,
            FaultShare,
        >
            requires may { MayRunOn (run_on (P.rules program.now) opened.now cache.now.site map max) weights.now states.items }
            requires ready { AreReady (run_on (P.rules program.now) opened.now cache.now.site map max) T.Tally slots.items tally.now }
            requires send { IsSend T.row }
            ensures { CameOf (run_on (P.rules program.entry.now) opened.entry.now cache.entry.now.site map max) T.Tally W.Watch
                slots.items tally.entry.now watch.entry.now result tally.exit.now watch.exit.now }
        {
            let runner = Runner {
                cache,
                index: &opened.index,
                layout: opened.layout,
            };
            run_by_crew(
                rt, alloc, &runner, program, map, weights, bounds, states, slots, max, watch, tally,
            )
        },
    )
}
