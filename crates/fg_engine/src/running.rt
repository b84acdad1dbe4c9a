//! A whole run over drives.

ghost use Rattle.std.specs.Prelude.{◌≡◌, ◌≤◌, ◌^◌, true, [], All, IfOk, OnOk, is_some, length, vec_capacity};
ghost use Rattle.fg_build.specs.Answers.{HoldWhole, OpenedFits};
ghost use Rattle.fg_cache.specs.Closing.{all_hits};
ghost use Rattle.fg_cache.specs.Pass.{IsPassOf};
ghost use Rattle.fg_cache.specs.Slips.{FaultOf};
ghost use Rattle.fg_engine.specs.Options.{AreOptions};
ghost use Rattle.fg_engine.specs.Outfit.{IsOutfit};
ghost use Rattle.fg_engine.specs.Runner.{AllowsCached, FoundOften, IsCacheOf, lists_in, run_over};
ghost use Rattle.fg_engine.specs.Tallies.{tally_between};
ghost use Rattle.fg_engine.specs.Told.{FoundVisits, HasCountedReads, OfRun, ReadsOfRun, TallyRose, TallyWent, TellsWhose, WhereNoneFailed};
ghost use Rattle.fg_iter.specs.Running.{AllowsRun, CrewWent, RunShown, RunTallied};
ghost use Rattle.fg_model.specs.Engine.{TallyRoseWith, TellsEnd, TellsFaults, WatchShown};
ghost use Rattle.fg_model.specs.Iteration.{AreStates};
ghost use Rattle.fg_model.specs.Watch.{Grew};
ghost use Rattle.fg_outside.specs.Drives.{EachSame, RoomyKept, all_told};

use crate::beside::run_beside;
use crate::bounded::Bounded;
use crate::hands::{HandSlot, hand_out, take_in};
use crate::helping::shares_of;
use crate::naming::cache_name;
use crate::options::Options;
use crate::outfit::Outfit;
use crate::settling::settle;
use fg_base::{Memory, Tally};
use fg_build::Opened;
use fg_cache::{Cache, Closed, FaultShare, Pass, Usage};
use fg_iter::{Bounds, CrewRun};
use fg_model::{End, Program, RunFault, Watch};
use fg_outside::Drive;
use fg_part::PartMap;
use std::alloc::Global;
use std::mem;
use std::sync::Wait;
use std::thread::Threads;

/// The drives as they come back, the end of the run, and what was read: so many reads of so many pages, and how the cache was used, if it
/// could be opened.
#[derive(Drop)]
pub struct RunDone<D: Drive> {
    pub drives: Vec<D>,
    pub answer: Result<End, RunFault>,
    pub reads: u64,
    pub pages: u64,
    pub usage: Option<Usage>,
}

/// What came of the workers' run: its answer, their passes, and the shares of faults, of the workers' if one ended it, and of helpers.
#[derive(Drop)]
struct CrewDone {
    answer: Result<End, RunFault>,
    passes: Vec<Pass>,
    shares: Vec<FaultShare>,
}

/// A run for which memory was wanting before it began.
fn unbegun<D: Drive>(drives: Vec<D>) -> RunDone<D>
    ensures drives { result.drives ≡ drives }
    ensures answer { result.answer ≡ Err RunFault.Memory }
    ensures none { (result.reads ≡ 0) × (result.pages ≡ 0) }
{
    RunDone {
        drives,
        answer: Err(RunFault::Memory),
        reads: 0,
        pages: 0,
        usage: None,
    }
}

/// What a run needs before its cache is opened, and room for the workers' slots.
fn fit_out<P: Program, T: Tally>(
    alloc: Global,
    program: &P,
    opened: &Opened,
    map: PartMap,
    helpers: u32,
) -> Result<(Outfit, Vec<HandSlot<T>>), Memory>
    requires fits { OpenedFits opened.now }
    requires map { map.n ≡ length opened.now.index.outs }
    requires helpers { helpers ≤ opened.now.layout.drives }
    ensures outfit { IfOk result (λ both. IsOutfit (P.rules program.now) opened.now map both.0) }
    ensures room { IfOk result (λ both. (both.1.items ≡ []) × (map.parts ≤ vec_capacity both.1)) }
{
    Ok((
        Outfit::new(alloc, program, opened, map, helpers)?,
        Vec::with_capacity(alloc, map.parts as usize)?,
    ))
}

/// The run over the cache by workers with these passes, its iterations cut so.
fn run_cached<
    P: Program + Sync,
    D: Drive + Send,
    W: Watch,
    T: Tally + Send,
    R: Threads + Wait + Sync,
>(
    rt: &R,
    alloc: Global,
    cache: &Cache<D>,
    passes: Vec<Pass>,
    opened: &Opened,
    program: &P,
    map: PartMap,
    outfit: Outfit,
    slots: Vec<HandSlot<T>>,
    max: u32,
    bounds: Bounds,
    watch: &mut W,
    tally: &mut T,
) -> CrewDone
    requires cache { IsCacheOf opened.now.layout opened.now.index cache.now.site }
    requires fits { OpenedFits opened.now }
    requires allowed { AllowsCached opened.now cache.now.site (P.rules program.now) max }
    requires map { map.n ≡ length opened.now.index.outs }
    requires outfit { IsOutfit (P.rules program.now) opened.now map outfit }
    requires passes { (length passes.items ≡ map.parts) × All (IsPassOf cache.now.site) passes.items }
    requires room { (slots.items ≡ []) × (map.parts ≤ vec_capacity slots) }
    requires room_of_runs { T.runs tally.old ≤ 2 ^ 62 }
    requires room_of_entries { T.entries tally.old ≤ 2 ^ 62 }
    ensures went { CrewWent (lists_in opened.now cache.now.site) (P.rules program.now) max
        (TallyRoseWith T.runs T.entries tally.old tally.new) result.answer }
    ensures same_told { W.told watch.new ≡ W.told watch.old }
    ensures same_borrows { W.same_borrows watch.old watch.new }
    ensures grew { Grew (W.notes watch.old) (W.notes watch.new) }
    ensures faults { TellsFaults result.answer (Unit {0}) (λ _. Unit {0}) (W.faults watch.old) (W.faults watch.new) }
    ensures answer { is_some cache.now.site.image ≡ true
        → TellsEnd result.answer (run_over opened.now cache.now.site (P.rules program.now) max) }
    ensures shown { RunShown (lists_in opened.now cache.now.site) (P.rules program.now) max W.told W.notes watch.old watch.new result.answer }
    ensures ok_states { IfOk result.answer (λ end. AreStates (lists_in opened.now cache.now.site).graph.n end.states) }
    ensures ok_tally { OnOk result.answer
        (RunTallied (lists_in opened.now cache.now.site) (P.rules program.now) max T.runs T.entries tally.old tally.new) }
    ensures ok_hits { OnOk result.answer
        (FoundOften opened.now cache.now.site (P.rules program.now) map max (all_hits result.passes.items)) }
    ensures passes { (length result.passes.items ≡ map.parts) × All (IsPassOf cache.now.site) result.passes.items }
    ensures shares { All (λ (share : FaultOf). share.books ≡ cache.now.site.books) result.shares.items }
{
    let Outfit {
        states,
        weights,
        outboxes,
        mut ends,
        passes: room_for_passes,
        shares,
    } = outfit;
    let none = tally.split();
    let mut own = Bounded::new(mem::replace(tally, none));
    let slots = hand_out(passes, outboxes, slots, &mut own);
    let CrewRun {
        answer,
        slots,
        fault,
    } = run_beside(
        rt, alloc, cache, &mut ends, opened, program, map, &weights, bounds, states, slots, max,
        watch, &mut own,
    );
    let passes = take_in(slots, room_for_passes, &mut own);
    tally.join(own.into_tally());
    CrewDone {
        answer,
        passes,
        shares: shares_of(fault, ends, shares),
    }
}

/// The run of a program on the graph of the image that was opened on these drives, with at most so many iterations, by many workers at
/// once.
///
/// The watch is shown each finished iteration in order. Each page that is read holds a part of a needed list of a vertex that is active in
/// an iteration of the run. It takes memory for a cache of the options' shape, for the states and for the messages of a wave. It waits for
/// its workers.
pub fn run_program<
    P: Program + Sync,
    D: Drive + Send,
    W: Watch,
    T: Tally + Send,
    R: Threads + Wait + Sync,
>(
    rt: &R,
    alloc: Global,
    drives: Vec<D>,
    opened: Opened,
    program: &P,
    options: Options,
    watch: &mut W,
    tally: &mut T,
) -> RunDone<D>
    requires fits { OpenedFits opened }
    requires told { HoldWhole D.told opened.layout drives.items }
    requires options { AreOptions options }
    requires room_of_runs { T.runs tally.old ≤ 2 ^ 62 }
    requires room_of_entries { T.entries tally.old ≤ 2 ^ 62 }
    // of the drives
    ensures held { EachSame D.held drives.items result.drives.items }
    ensures sure { RoomyKept D.room D.faults drives.items result.drives.items }
    ensures reads { ReadsOfRun D.Drive (P.rules program.now) opened options.max drives.items result.drives.items }
    ensures counts { WhereNoneFailed result.answer
        (HasCountedReads D.log result.reads result.pages drives.items result.drives.items) }
    // of the watch
    ensures same_told { W.told watch.new ≡ W.told watch.old }
    ensures same_borrows { W.same_borrows watch.old watch.new }
    ensures grew { Grew (W.notes watch.old) (W.notes watch.new) }
    // of each answer: whose count rose, whether the run ends so, what was shown, and how the tally rose
    ensures faults { TellsWhose D.faults result.answer drives.items result.drives.items (W.faults watch.old) (W.faults watch.new) }
    ensures answer { OfRun (all_told D.held drives.items) (P.rules program.now) opened options.max (TellsEnd result.answer) }
    ensures shown { OfRun (all_told D.held drives.items) (P.rules program.now) opened options.max
        (λ run. WatchShown result.answer W.told W.notes watch.old watch.new run.finished) }
    ensures tally { OfRun (all_told D.held drives.items) (P.rules program.now) opened options.max
        (TallyWent result.answer (tally_between T.Tally tally.old tally.new)) }
    // of a run with an end
    ensures few { IfOk result.answer (λ end. length end.states ≤ 2 ^ 24) }
    ensures ok_tally { OnOk result.answer (OfRun (all_told D.held drives.items) (P.rules program.now) opened options.max
        (TallyRose (tally_between T.Tally tally.old tally.new))) }
    ensures usage { OnOk result.answer
        (FoundVisits (all_told D.held drives.items) (P.rules program.now) opened options result.usage) }
{
    let Options { max, bounds, .. } = options;
    let map = PartMap::new(opened.index.n(), options.shift, options.workers);
    let helpers = options.helper_count(opened.layout.drives);
    let Ok((outfit, slots)) = fit_out(alloc, program, &opened, map, helpers) else {
        return unbegun(drives);
    };
    let name = cache_name(&drives, &opened, program, max);
    let (cache, passes) = match Cache::open(alloc, drives, opened.layout, options.shape(), name) {
        Ok(both) => both,
        Err((drives, _memory)) => {
            slots.destroy_empty();
            return unbegun(drives);
        }
    };
    let CrewDone {
        answer,
        passes,
        shares,
    } = run_cached(
        rt, alloc, &cache, passes, &opened, program, map, outfit, slots, max, bounds, watch, tally,
    );
    let Closed {
        drives,
        failed,
        reads,
        pages,
        usage,
    } = cache.close(rt, passes, shares);
    RunDone {
        drives,
        answer: settle(answer, failed),
        reads,
        pages,
        usage: Some(usage),
    }
}
