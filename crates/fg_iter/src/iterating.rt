//! One iteration by a crew.

ghost use Rattle.std.specs.Prelude.{◌≡◌, ◌+◌, ◌<◌, ◌≤◌, ◌^◌, [], All, IfErr, IfOk, OnErr, OnOk, length};
ghost use Rattle.fg_base.specs.declared.limits.TheConstants.{MAX_WORKERS};
ghost use Rattle.fg_gather.specs.Arrivals.{HasCome};
ghost use Rattle.fg_gather.specs.Gather.{IsIterated};
ghost use Rattle.fg_gather.specs.Marks.{AreMarks};
ghost use Rattle.fg_iter.specs.Crew.{HasVisited, IsCrew, IsSameCrew, counted_in, rules_in, start_of};
ghost use Rattle.fg_iter.specs.Lists.{AreBlockWeights};
ghost use Rattle.fg_iter.specs.Marked.{marked_blocks};
ghost use Rattle.fg_iter.specs.Start.{HasEnded, HasRaised, MayBegin, blocks_at, ended_as};
ghost use Rattle.fg_model.specs.Graph.{IsWithinLimits};
ghost use Rattle.fg_model.specs.Iteration.{AreStates};
ghost use Rattle.fg_part.specs.PartMap.{block_total};
ghost use Rattle.fg_task.specs.Blocks.{HasCause};
ghost use Rattle.fg_task.specs.Spending.{SpentInAllUpTo};
ghost use Rattle.fg_wave.specs.Cutting.{AreWeights};
ghost use Rattle.fg_wave.specs.Waves.{HasRoomForList, IsTold, MoreCame, SpentAsTold};

use crate::crew::{Crew, make_marks};
use crate::frozen::Frozen;
use crate::lending::run_by_first;
use crate::listing::{Listed, list_marked};
use crate::runs_on::{RunsOn, Settles};
use crate::settling::settle_all;
use crate::unfinished::Unfinished;
use fg_base::Tally;
use fg_gather::mark_again;
use fg_model::{Counts, Program};
use fg_task::WorkFault;
use fg_wave::Told;
use std::alloc::Global;
use std::sync::Wait;
use std::thread::Threads;

/// How an iteration is cut. Whatever they are, it comes to the same.
#[derive(Clone, Copy, PartialEq, Eq, Debug)]
pub struct Bounds {
    /// The most messages of several blocks that are on their way at once.
    pub wave: u64,
    /// With at most so many entries an iteration is run by one worker, on the caller's thread.
    pub few: u64,
}

/// Runs one iteration, at this phase, on the crew's states.
///
/// The blocks with a mark are listed with their weights, and run in waves, while the states stay as they are. What the workers counted is
/// then moved into the tally. Where a block has a bad edge, or a worker fails, the states are as they were. Else each vertex that ran, or
/// to which something came, gets its new state, and the marks are made again. It takes O(blocks) beside the runs, and memory for the
/// list of blocks and for the messages of a wave.
pub(crate) fn iterate<
    P: Program + Sync,
    K: Send,
    T: Tally,
    B: Settles<P, K, T> + Sync,
    R: Threads + Wait + Sync,
>(
    rt: &R,
    alloc: Global,
    runner: &B,
    weights: &[u64],
    bounds: Bounds,
    phase: u64,
    crew: &mut Crew<'_, P, K, B::Fault>,
    tally: &mut T,
) -> Result<Counts, Unfinished<B::Fault>>
    requires limits { IsWithinLimits (B.lists runner.now).graph }
    requires weights { AreBlockWeights (rules_in P.rules crew.old) (B.lists runner.now).graph crew.old.inboxes.map weights.now }
    requires may_run { MayBegin (B.allows runner.now) (start_of P.rules (B.lists runner.now) phase crew.old) }
    requires crew { IsCrew P.rules (B.lends runner.now) B.spent crew.old }
    requires room_of_runs { T.runs tally.old + 2 ^ 30 < 2 ^ 64 }
    requires room_of_entries { T.entries tally.old + 2 ^ 33 < 2 ^ 64 }
    ensures ended { HasEnded (B.caused runner.now) (start_of P.rules (B.lists runner.now) phase crew.old) result crew.new.states.items }
    ensures raised { HasRaised (start_of P.rules (B.lists runner.now) phase crew.old) result
        (T.runs tally.old) (T.entries tally.old) (T.runs tally.new) (T.entries tally.new) }
    ensures visited { HasVisited B.spent (start_of P.rules (B.lists runner.now) phase crew.old) result crew.old crew.new }
    ensures crew { IsCrew P.rules (B.lends runner.now) B.spent crew.new }
    ensures same { IsSameCrew crew.old crew.new }
{
    make_marks(rt, phase, crew);
    let Ok(listed) = list_marked(alloc, &crew.marks, weights) else {
        return Err(Unfinished::Memory);
    };
    let workers = if listed.weight() <= bounds.few {
        1
    } else {
        crew.slots.len()
    };
    let answer = run_listed(
        rt,
        alloc,
        runner,
        phase,
        &listed,
        bounds.wave,
        workers,
        crew,
    );
    settle_all(runner, &mut crew.slots, tally);
    end(rt, phase, workers, answer, crew)
}

/// Runs the listed blocks, in waves, by so many of the workers.
fn run_listed<P: Program + Sync, K: Send, B: RunsOn<P, K> + Sync, R: Threads + Wait + Sync>(
    rt: &R,
    alloc: Global,
    runner: &B,
    phase: u64,
    listed: &Listed,
    bound: u64,
    workers: usize,
    crew: &mut Crew<'_, P, K, B::Fault>,
) -> Result<Told, WorkFault<B::Fault>>
    requires may_run { MayBegin (B.allows runner.now) (start_of P.rules (B.lists runner.now) phase crew.old) }
    requires blocks { listed.now.blocks.items ≡ marked_blocks crew.old.marks.items }
    requires marks { length crew.old.marks.items ≡ block_total crew.old.inboxes.map }
    requires weights { AreWeights (blocks_at (start_of P.rules (B.lists runner.now) phase crew.old)) listed.now.blocks.items listed.now.weights.items }
    requires workers { (0 < workers) × (workers ≤ length crew.old.slots.items) × (length crew.old.slots.items ≤ MAX_WORKERS) }
    requires lent { All (λ slot. B.lends runner.now crew.old.inboxes.map slot.kept) crew.old.slots.items }
    requires room { All (λ slot. HasRoomForList (blocks_at (start_of P.rules (B.lists runner.now) phase crew.old)) listed.now.blocks.items (B.spent slot.kept))
        crew.old.slots.items }
    ensures told { IfOk result (λ told. IsTold (blocks_at (start_of P.rules (B.lists runner.now) phase crew.old)) listed.now.blocks.items told) }
    ensures came { IfOk result (λ told. MoreCame (rules_in P.rules crew.old) crew.old.inboxes.map
        (blocks_at (start_of P.rules (B.lists runner.now) phase crew.old)) listed.now.blocks.items told crew.old.inboxes.parts crew.new.inboxes.parts) }
    ensures exact { IfOk result (λ told. SpentAsTold (blocks_at (start_of P.rules (B.lists runner.now) phase crew.old)) listed.now.blocks.items
        (counted_in B.spent crew.old.slots.items) (counted_in B.spent crew.new.slots.items) told) }
    // at every answer
    ensures few { SpentInAllUpTo (blocks_at (start_of P.rules (B.lists runner.now) phase crew.old)) listed.now.blocks.items
        (counted_in B.spent crew.old.slots.items) (counted_in B.spent crew.new.slots.items) }
    ensures lent { All (λ slot. B.lends runner.now crew.old.inboxes.map slot.kept) crew.new.slots.items }
    ensures same { IsSameCrew crew.old crew.new }
    ensures rest { crew.new ≡ record crew.old { slots = crew.new.slots; inboxes = crew.new.inboxes } }
    ensures fault { IfErr result (λ fault. HasCause (B.caused runner.now) fault) }
{
    let frozen = Frozen {
        program: crew.inboxes.program(),
        runner,
        map: crew.inboxes.map(),
        phase,
        states: crew.states.as_slice(),
    };
    run_by_first(
        rt,
        alloc,
        &frozen,
        &listed.blocks,
        &listed.weights,
        bound,
        workers,
        &mut crew.slots,
        &mut crew.inboxes,
    )
}

/// Ends an iteration whose blocks were run: without a bad edge and a fault each vertex gets its new state. The inboxes are emptied.
fn end<P: Program + Sync, K, F: Drop, R: Threads + Sync>(
    rt: &R,
    phase: u64,
    threads: usize,
    answer: Result<Told, WorkFault<F>>,
    crew: &mut Crew<'_, P, K, F>,
) -> Result<Counts, Unfinished<F>>
    requires threads { 0 < threads }
    requires states { AreStates crew.old.inboxes.map.n crew.old.states.items }
    requires marks { AreMarks (rules_in P.rules crew.old) crew.old.inboxes.map phase crew.old.states.items crew.old.marks.items }
    ensures answer { result ≡ ended_as answer }
    ensures iterated { OnOk result (IsIterated (rules_in P.rules crew.old) crew.old.inboxes.map phase crew.old.inboxes.parts
        crew.old.states.items crew.new.states.items) }
    ensures err { OnErr result (crew.new.states ≡ crew.old.states) }
    ensures marks { AreMarks (rules_in P.rules crew.old) crew.old.inboxes.map phase crew.new.states.items crew.new.marks.items }
    ensures empty { HasCome (rules_in P.rules crew.old) crew.old.inboxes.map crew.new.inboxes.parts [] }
    ensures same { IsSameCrew crew.old crew.new }
    ensures rest { crew.new ≡ record crew.old { states = crew.new.states; marks = crew.new.marks; inboxes = crew.new.inboxes } }
{
    let ended = counts_of(answer);
    if ended.is_ok() {
        take_over(rt, phase, threads, crew);
    }
    crew.inboxes.empty(rt, 1);
    ended
}

/// The counts of an iteration by what its blocks told.
fn counts_of<F: Drop>(answer: Result<Told, WorkFault<F>>) -> Result<Counts, Unfinished<F>>
    ensures { result ≡ ended_as answer }
{
    let told = answer?;
    match told.bad {
        None => Ok(Counts {
            active: told.active,
            messages: told.sent,
        }),
        Some(bad) => Err(Unfinished::BadEdge(bad)),
    }
}

/// Gives each vertex its new state, and makes the marks of these.
fn take_over<P: Program + Sync, K, F: Drop, R: Threads + Sync>(
    rt: &R,
    phase: u64,
    threads: usize,
    crew: &mut Crew<'_, P, K, F>,
)
    requires threads { 0 < threads }
    requires states { AreStates crew.old.inboxes.map.n crew.old.states.items }
    requires marks { AreMarks (rules_in P.rules crew.old) crew.old.inboxes.map phase crew.old.states.items crew.old.marks.items }
    ensures iterated { IsIterated (rules_in P.rules crew.old) crew.old.inboxes.map phase crew.old.inboxes.parts
        crew.old.states.items crew.new.states.items }
    ensures marks { AreMarks (rules_in P.rules crew.old) crew.old.inboxes.map phase crew.new.states.items crew.new.marks.items }
    ensures rest { crew.new ≡ record crew.old { states = crew.new.states; marks = crew.new.marks } }
{
    crew.inboxes
        .gather(rt, phase, &crew.marks, threads, &mut crew.states);
    mark_again(
        rt,
        &crew.inboxes,
        phase,
        &crew.states,
        threads,
        &mut crew.marks,
    );
}
