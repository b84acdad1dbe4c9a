//! Blocks run by some of the workers.

ghost use Rattle.std.specs.Prelude.{◌≡◌, ◌<◌, ◌≤◌, All, IfErr, IfOk, length};
ghost use Rattle.std.specs.List.Sorted.{IsStrictlyIncreasing};
ghost use Rattle.fg_base.specs.declared.limits.TheConstants.{MAX_VERTICES, MAX_WORKERS};
ghost use Rattle.fg_iter.specs.Crew.{counted_in};
ghost use Rattle.fg_part.specs.PartMap.{block_total};
ghost use Rattle.fg_task.specs.Blocks.{HasCause};
ghost use Rattle.fg_task.specs.Spending.{SpentInAllUpTo};
ghost use Rattle.fg_wave.specs.Cutting.{AreWeights};
ghost use Rattle.fg_wave.specs.Waves.{HasRoomForList, IsTold, MoreCame, SpentAsTold};

use fg_crew::Slot;
use fg_gather::Inboxes;
use fg_model::Program;
use fg_task::{RunsBlock, WorkFault};
use fg_wave::{Told, run_waves};
use std::alloc::Global;
use std::sync::Wait;
use std::thread::Threads;

/// Runs all blocks of the list, in waves, by the first of the workers. The others are not called.
pub(crate) fn run_by_first<
    P: Program + Sync,
    K: Send,
    B: RunsBlock<K> + Sync,
    R: Threads + Wait + Sync,
>(
    rt: &R,
    alloc: Global,
    runner: &B,
    list: &[u32],
    weights: &[u64],
    bound: u64,
    workers: usize,
    slots: &mut [Slot<K, B::Fault>],
    inboxes: &mut Inboxes<'_, P>,
) -> Result<Told, WorkFault<B::Fault>>
    requires map { (B.blocks runner.now).map ≡ inboxes.old.map }
    requires few_blocks { length list.now ≤ MAX_VERTICES }
    requires blocks { All (λ block. block < block_total (B.blocks runner.now).map) list.now }
    requires rises { IsStrictlyIncreasing list.now }
    requires weights { AreWeights (B.blocks runner.now) list.now weights.now }
    requires workers { (0 < workers) × (workers ≤ length slots.old) × (length slots.old ≤ MAX_WORKERS) }
    requires lent { All (λ slot. B.lends runner.now slot.kept) slots.old }
    requires room { All (λ slot. HasRoomForList (B.blocks runner.now) list.now (B.spent slot.kept)) slots.old }
    ensures told { IfOk result (λ told. IsTold (B.blocks runner.now) list.now told) }
    ensures came { IfOk result (λ told.
        MoreCame (P.rules inboxes.old.program) inboxes.old.map (B.blocks runner.now) list.now told inboxes.old.parts inboxes.new.parts) }
    ensures exact { IfOk result (λ told. SpentAsTold (B.blocks runner.now) list.now
        (counted_in B.spent slots.old) (counted_in B.spent slots.new) told) }
    // at every answer
    ensures count { length slots.new ≡ length slots.old }
    ensures lent { All (λ slot. B.lends runner.now slot.kept) slots.new }
    ensures few { SpentInAllUpTo (B.blocks runner.now) list.now (counted_in B.spent slots.old) (counted_in B.spent slots.new) }
    ensures program { inboxes.new.program ≡ inboxes.old.program }
    ensures inbox_map { inboxes.new.map ≡ inboxes.old.map }
    ensures fault { IfErr result (λ fault. HasCause (B.caused runner.now) fault) }
{
    run_waves(
        rt,
        alloc,
        runner,
        list,
        weights,
        bound,
        &mut slots[..workers],
        inboxes,
    )
}
