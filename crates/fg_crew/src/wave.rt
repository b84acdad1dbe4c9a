//! The workers of a wave at once.

ghost use Rattle.std.specs.Prelude.{◌≡◌, ◌-◌, ◌<◌, ◌≤◌, [], All, IfErr, IfOk, length, map, vec_capacity};
ghost use Rattle.fg_base.specs.declared.limits.TheConstants.{MAX_VERTICES, MAX_WORKERS};
ghost use Rattle.fg_task.specs.Blocks.{HasCause};
ghost use Rattle.fg_crew.specs.Claimed.{HasRoomFor, IsDealt, plan_of};
ghost use Rattle.fg_crew.specs.Slots.{AllHaveWorkedOn, HasWorked, IsReady};
ghost use Rattle.fg_task.specs.Spending.{SpentInAll, SpentInAllUpTo};
ghost use Rattle.fg_crew.specs.Wave.{EachSpentWithin, HasRoomForAll, IsWave, blocks_in};
ghost use Rattle.fg_part.specs.PartMap.{block_total};
ghost use Rattle.fg_steal.specs.Seat.{fresh_seat};

use crate::dealing::deal;
use crate::seating::seat_all;
use crate::slot::Slot;
use crate::taking::take_back;
use crate::working::{Wave, work_at};
use fg_steal::{Claims, Seat};
use fg_task::{BlockResult, RunsBlock, WorkFault};
use std::alloc::Global;
use std::sync::Wait;
use std::thread;
use std::thread::Threads;

/// Runs the blocks at the places from `from` to below `to` of the list, each block once, by as many workers at once as there are slots.
/// A worker draws from its own part of them until it is told that none is left, and then from the others'.
///
/// Where a worker fails, the others go on until no block is left; then one fault of all is answered, and no result.
pub fn work_wave<K: Send, B: RunsBlock<K> + Sync, R: Threads + Wait + Sync>(
    rt: &R,
    alloc: Global,
    runner: &B,
    list: &[u32],
    from: usize,
    to: usize,
    slots: &mut [Slot<K, B::Fault>],
) -> Result<Vec<BlockResult>, WorkFault<B::Fault>>
    requires wave { (from ≤ to) × (to ≤ length list.now) }
    requires few_blocks { length list.now ≤ MAX_VERTICES }
    requires blocks { All (λ block. block < block_total (B.blocks runner.now).map) list.now }
    requires workers { (0 < length slots.old) × (length slots.old ≤ MAX_WORKERS) }
    requires lent { All (λ slot. B.lends runner.now slot.kept) slots.old }
    requires room { All (λ slot. HasRoomForAll (B.blocks runner.now) list.now from to (B.spent slot.kept)) slots.old }
    ensures ok { IfOk result (λ results. IsWave (B.blocks runner.now) list.now from to results.items) }
    ensures exact { IfOk result (λ results. SpentInAll (B.blocks runner.now)
        (map (λ slot. B.spent slot.kept) slots.old) (map (λ slot. B.spent slot.kept) slots.new) results.items) }
    // at every answer
    ensures count { length slots.new ≡ length slots.old }
    ensures lent { All (λ slot. B.lends runner.now slot.kept) slots.new }
    ensures few { EachSpentWithin B.spent (B.blocks runner.now) list.now from to slots.old slots.new }
    ensures few_in_all { SpentInAllUpTo (B.blocks runner.now) (blocks_in list.now from to)
        (map (λ slot. B.spent slot.kept) slots.old) (map (λ slot. B.spent slot.kept) slots.new) }
    ensures fault { IfErr result (λ fault. HasCause (B.caused runner.now) fault) }
{
    let parts = slots.len() as u32;
    let counts = deal(alloc, (to - from) as u32, parts)?;
    let (claims, seats) = Claims::new(alloc, &counts, parts)?;
    let wave = Wave {
        runner,
        claims,
        list,
        from,
        to,
        parts,
    };
    run_wave(rt, alloc, wave, seats, slots)
}

/// Runs the blocks of the wave and ends its claims, of which the seats are.
fn run_wave<K: Send, B: RunsBlock<K> + Sync, R: Threads + Wait + Sync>(
    rt: &R,
    alloc: Global,
    wave: Wave<'_, B>,
    mut seats: Vec<Seat>,
    slots: &mut [Slot<K, B::Fault>],
) -> Result<Vec<BlockResult>, WorkFault<B::Fault>>
    requires dealt { IsDealt (plan_of B.blocks wave) }
    requires workers { (length slots.old ≡ wave.parts) × (wave.claims.seats ≡ wave.parts) × (length seats.items ≡ wave.parts) }
    requires fresh { All (λ seat. seat ≡ fresh_seat wave.claims seat.number) seats.items }
    requires lent { All (λ slot. B.lends wave.runner.now slot.kept) slots.old }
    requires room { All (λ slot. HasRoomFor (plan_of B.blocks wave) (B.spent slot.kept)) slots.old }
    ensures ok { IfOk result (λ results. IsWave (B.blocks wave.entry.runner.now) wave.entry.list.now wave.entry.from wave.entry.to results.items) }
    ensures exact { IfOk result (λ results. SpentInAll (B.blocks wave.entry.runner.now)
        (map (λ slot. B.spent slot.kept) slots.old) (map (λ slot. B.spent slot.kept) slots.new) results.items) }
    ensures count { length slots.new ≡ length slots.old }
    ensures lent { All (λ slot. B.lends wave.entry.runner.now slot.kept) slots.new }
    ensures few { EachSpentWithin B.spent (B.blocks wave.entry.runner.now) wave.entry.list.now wave.entry.from wave.entry.to slots.old slots.new }
    ensures few_in_all { SpentInAllUpTo (B.blocks wave.entry.runner.now) (blocks_in wave.entry.list.now wave.entry.from wave.entry.to)
        (map (λ slot. B.spent slot.kept) slots.old) (map (λ slot. B.spent slot.kept) slots.new) }
    ensures fault { IfErr result (λ fault. HasCause (B.caused wave.entry.runner.now) fault) }
{
    run_all(rt, alloc, &wave, &mut seats, slots);
    let mut results = Vec::new(alloc);
    let taken = take_back(wave.runner, slots, &mut seats, &mut results);
    let Wave { claims, .. } = wave;
    match taken {
        Ok(()) => {
            claims.close(seats);
            Ok(results)
        }
        Err(fault) => {
            claims.stop(seats);
            Err(fault)
        }
    }
}

/// The workers take the seats, which are as many, and run the blocks of the wave.
fn run_all<K: Send, B: RunsBlock<K> + Sync, R: Threads + Wait + Sync>(
    rt: &R,
    alloc: Global,
    wave: &Wave<'_, B>,
    seats: &mut Vec<Seat>,
    slots: &mut [Slot<K, B::Fault>],
)
    requires dealt { IsDealt (plan_of B.blocks wave.now) }
    requires workers { length slots.old ≡ wave.now.parts }
    requires count { length seats.old.items ≡ length slots.old }
    requires fresh { All (λ seat. seat ≡ fresh_seat wave.now.claims seat.number) seats.old.items }
    requires lent { All (λ slot. B.lends wave.now.runner.now slot.kept) slots.old }
    requires room { All (λ slot. HasRoomFor (plan_of B.blocks wave.now) (B.spent slot.kept)) slots.old }
    ensures seats { seats.new.items ≡ [] }
    ensures room { vec_capacity seats.new ≡ vec_capacity seats.old }
    ensures worked { AllHaveWorkedOn B.blocks B.lends B.spent B.caused wave.now slots.old slots.new }
{
    seat_all(alloc, &wave.claims, seats, slots);
    all_at_once(rt, alloc, wave, slots);
}

/// Each worker at its slot, all at once.
fn all_at_once<K: Send, B: RunsBlock<K> + Sync, R: Threads + Wait + Sync>(
    rt: &R,
    alloc: Global,
    wave: &Wave<'_, B>,
    slots: &mut [Slot<K, B::Fault>],
)
    requires dealt { IsDealt (plan_of B.blocks wave.now) }
    requires workers { length slots.old ≡ wave.now.parts }
    requires ready { All (IsReady (plan_of B.blocks wave.now) wave.now.claims (B.lends wave.now.runner.now) B.spent) slots.old }
    ensures { AllHaveWorkedOn B.blocks B.lends B.spent B.caused wave.now slots.old slots.new }
{
    let threads = slots.len();
    thread::for_each_mut(
        rt,
        slots,
        threads,
        &|own: usize, slot: &mut Slot<K, B::Fault>|
            requires { IsDealt (plan_of B.blocks wave.now) × (own < wave.now.parts)
                × IsReady (plan_of B.blocks wave.now) wave.now.claims (B.lends wave.now.runner.now) B.spent slot.now }
            ensures { HasWorked (plan_of B.blocks wave.entry.now) wave.entry.now.claims (B.lends wave.entry.now.runner.now) B.spent
                (B.caused wave.entry.now.runner.now) slot.entry.now slot.exit.now }
        { work_at(rt, alloc, wave, own, slot) },
    );
}
