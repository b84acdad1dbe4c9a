//! The waves of an iteration, one after the other.

ghost use Rattle.std.specs.Prelude.{◌≡◌, ◌+◌, ◌<◌, ◌≤◌, All, IfErr, IfOk, length, map as each};
ghost use Rattle.std.specs.List.Sorted.{IsStrictlyIncreasing};
ghost use Rattle.fg_base.specs.declared.limits.TheConstants.{MAX_VERTICES, MAX_WORKERS};
ghost use Rattle.fg_crew.specs.Wave.{EachSpentWithin, HasRoomForAll, blocks_in};
ghost use Rattle.fg_part.specs.PartMap.{block_total};
ghost use Rattle.fg_task.specs.Blocks.{HasCause};
ghost use Rattle.fg_task.specs.Spending.{SpentInAllUpTo};
ghost use Rattle.fg_wave.specs.Cutting.{AreWeights, IsBounded};
ghost use Rattle.fg_wave.specs.Waves.{EachSpentOnList, HasRoomForList, IsTold, MoreCame, SpentAsTold};

use crate::cutting::wave_end;
use crate::telling::tell;
use crate::told::Told;
use fg_base::Memory;
use fg_batch::Batch;
use fg_crew::{Slot, work_wave};
use fg_gather::Inboxes;
use fg_model::Program;
use fg_task::{BlockResult, RunsBlock, WorkFault};
use std::alloc::Global;
use std::sync::Wait;
use std::thread::Threads;

/// Runs all blocks of the list, in waves, by as many workers at once as there are slots, and delivers their messages.
///
/// A wave is as many of the next blocks as weigh at most `bound` together, but at least one; a block weighs at least as many as it needs
/// entries, so that no more messages than that are on their way at once. The batches of a wave are delivered, and let go, before the
/// next wave begins. A wave that has a bad edge is the last one, and is not delivered.
pub fn run_waves<P: Program + Sync, K: Send, B: RunsBlock<K> + Sync, R: Threads + Wait + Sync>(
    rt: &R,
    alloc: Global,
    runner: &B,
    list: &[u32],
    weights: &[u64],
    bound: u64,
    slots: &mut [Slot<K, B::Fault>],
    inboxes: &mut Inboxes<'_, P>,
) -> Result<Told, WorkFault<B::Fault>>
    requires map { (B.blocks runner.now).map ≡ inboxes.old.map }
    requires few_blocks { length list.now ≤ MAX_VERTICES }
    requires blocks { All (λ block. block < block_total (B.blocks runner.now).map) list.now }
    requires rises { IsStrictlyIncreasing list.now }
    requires weights { AreWeights (B.blocks runner.now) list.now weights.now }
    requires workers { (0 < length slots.old) × (length slots.old ≤ MAX_WORKERS) }
    requires lent { All (λ slot. B.lends runner.now slot.kept) slots.old }
    requires room { All (λ slot. HasRoomForList (B.blocks runner.now) list.now (B.spent slot.kept)) slots.old }
    ensures told { IfOk result (λ told. IsTold (B.blocks runner.now) list.now told) }
    ensures came { IfOk result (λ told.
        MoreCame (P.rules inboxes.old.program) inboxes.old.map (B.blocks runner.now) list.now told inboxes.old.parts inboxes.new.parts) }
    ensures exact { IfOk result (λ told. SpentAsTold (B.blocks runner.now) list.now
        (each (λ slot. B.spent slot.kept) slots.old) (each (λ slot. B.spent slot.kept) slots.new) told) }
    // at every answer
    ensures count { length slots.new ≡ length slots.old }
    ensures lent { All (λ slot. B.lends runner.now slot.kept) slots.new }
    ensures few { EachSpentOnList B.spent (B.blocks runner.now) list.now slots.old slots.new }
    ensures few_in_all { SpentInAllUpTo (B.blocks runner.now) list.now
        (each (λ slot. B.spent slot.kept) slots.old) (each (λ slot. B.spent slot.kept) slots.new) }
    ensures program { inboxes.new.program ≡ inboxes.old.program }
    ensures inbox_map { inboxes.new.map ≡ inboxes.old.map }
    ensures fault { IfErr result (λ fault. HasCause (B.caused runner.now) fault) }
{
    let mut told = Told::NOTHING;
    let mut from = 0;
    while from < list.len() {
        let to = wave_end(weights, from, bound);
        let next = match run_wave(rt, alloc, runner, list, from, to, bound, slots, inboxes) {
            Ok(next) => next,
            Err(fault) => return Err(fault),
        };
        told = told.then(next);
        if told.bad.is_some() {
            return Ok(told);
        }
        from = to;
    }
    Ok(told)
}

/// Runs the blocks at the places from `from` to below `to` of the list, and then delivers their messages, unless one has a bad edge.
fn run_wave<P: Program + Sync, K: Send, B: RunsBlock<K> + Sync, R: Threads + Wait + Sync>(
    rt: &R,
    alloc: Global,
    runner: &B,
    list: &[u32],
    from: usize,
    to: usize,
    bound: u64,
    slots: &mut [Slot<K, B::Fault>],
    inboxes: &mut Inboxes<'_, P>,
) -> Result<Told, WorkFault<B::Fault>>
    requires map { (B.blocks runner.now).map ≡ inboxes.old.map }
    requires wave { (from < to) × (to ≤ length list.now) }
    requires bounded { IsBounded (B.blocks runner.now) list.now from to bound }
    requires few_blocks { length list.now ≤ MAX_VERTICES }
    requires blocks { All (λ block. block < block_total (B.blocks runner.now).map) list.now }
    requires rises { IsStrictlyIncreasing list.now }
    requires workers { (0 < length slots.old) × (length slots.old ≤ MAX_WORKERS) }
    requires lent { All (λ slot. B.lends runner.now slot.kept) slots.old }
    requires room { All (λ slot. HasRoomForAll (B.blocks runner.now) list.now from to (B.spent slot.kept)) slots.old }
    ensures told { IfOk result (λ told. IsTold (B.blocks runner.now) (blocks_in list.now from to) told) }
    ensures came { IfOk result (λ told. MoreCame (P.rules inboxes.old.program) inboxes.old.map (B.blocks runner.now)
        (blocks_in list.now from to) told inboxes.old.parts inboxes.new.parts) }
    ensures exact { IfOk result (λ told. SpentAsTold (B.blocks runner.now) (blocks_in list.now from to)
        (each (λ slot. B.spent slot.kept) slots.old) (each (λ slot. B.spent slot.kept) slots.new) told) }
    ensures count { length slots.new ≡ length slots.old }
    ensures lent { All (λ slot. B.lends runner.now slot.kept) slots.new }
    ensures few { EachSpentWithin B.spent (B.blocks runner.now) list.now from to slots.old slots.new }
    ensures few_in_all { SpentInAllUpTo (B.blocks runner.now) (blocks_in list.now from to)
        (each (λ slot. B.spent slot.kept) slots.old) (each (λ slot. B.spent slot.kept) slots.new) }
    ensures program { inboxes.new.program ≡ inboxes.old.program }
    ensures inbox_map { inboxes.new.map ≡ inboxes.old.map }
    ensures fault { IfErr result (λ fault. HasCause (B.caused runner.now) fault) }
{
    let results = match work_wave(rt, alloc, runner, list, from, to, slots) {
        Ok(results) => results,
        Err(fault) => return Err(fault),
    };
    let told = tell(&results);
    // no more messages than these are on their way
    prove!(to == from + 1 || told.sent <= bound);
    if told.bad.is_some() {
        return Ok(told);
    }
    let Ok(batches) = batches_of(alloc, results) else {
        return Err(WorkFault::Memory);
    };
    inboxes.deliver(rt, &batches, slots.len());
    Ok(told)
}

/// The batches of the results. It takes room for their places, and none for messages.
fn batches_of(alloc: Global, results: Vec<BlockResult>) -> Result<Vec<Vec<Batch>>, Memory>
    ensures { IfOk result (λ batches. batches.items ≡ each (λ one. one.batches) results.items) }
{
    let batches = results.into_iter().map(|one| one.batches).collect(alloc)?;
    Ok(batches)
}
