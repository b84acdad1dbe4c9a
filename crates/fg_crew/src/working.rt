//! One worker of a wave.

ghost use Rattle.std.specs.Prelude.{◌≡◌, ℕ, ◌+◌, ◌-◌, ◌<◌, ◌≤◌, ◌++◌, ◌∷◌, [], IfErr, OnOk, length};
ghost use Rattle.std.specs.List.{Contains, range_with_len};
ghost use Rattle.fg_task.specs.Blocks.{HasCause};
ghost use Rattle.fg_crew.specs.Claimed.{AddsResult, AreResults, HasRoomFor, IsDealt, SpentOnDraws, WithinRoom, in_drawn, plan_of};
ghost use Rattle.fg_crew.specs.Slots.{HasWorkedOn, IsReady};
ghost use Rattle.fg_task.specs.Spending.{HasRoom, SpentOnMore, SpentUpTo};
ghost use Rattle.fg_crew.specs.Wave.{block_at, in_all};
ghost use Rattle.fg_part.specs.PartMap.{block_total};
ghost use Rattle.fg_steal.specs.Seat.{WasToldOfAll, fresh_seat};

use crate::slot::{Desk, Slot};
use fg_steal::{Claims, Seat};
use fg_task::{BlockResult, RunsBlock, WorkFault};
use std::alloc::Global;
use std::sync::Wait;

/// What the workers of a wave share: the places from `from` to below `to` of the list are claimed in so many parts.
#[derive(Drop)]
pub(crate) struct Wave<'a, B> {
    pub(crate) runner: &'a B,
    pub(crate) claims: Claims,
    pub(crate) list: &'a [u32],
    pub(crate) from: usize,
    pub(crate) to: usize,
    pub(crate) parts: u32,
}

/// The worker at a slot draws from all parts, its own first, and runs what it draws.
pub(crate) fn work_at<K, B: RunsBlock<K>, R: Wait>(
    rt: &R,
    alloc: Global,
    wave: &Wave<'_, B>,
    own: usize,
    slot: &mut Slot<K, B::Fault>,
)
    requires dealt { IsDealt (plan_of B.blocks wave.now) }
    requires part { own < wave.now.parts }
    requires ready { IsReady (plan_of B.blocks wave.now) wave.now.claims (B.lends wave.now.runner.now) B.spent slot.old }
    ensures { HasWorkedOn B.blocks B.lends B.spent B.caused wave.now slot.old slot.new }
{
    let Some(desk) = slot.desk.take() else {
        return;
    };
    let Desk {
        seat,
        mut results,
        ..
    } = desk;
    let kept = &mut slot.kept;
    let (seat, end) = spend_all(rt, alloc, wave, own as u32, seat, kept, &mut results);
    slot.desk = Some(Desk { seat, results, end });
}

/// Draws from the worker's own part until no block of it is left, then from those behind it, and then from those before it.
fn spend_all<K, B: RunsBlock<K>, R: Wait>(
    rt: &R,
    alloc: Global,
    wave: &Wave<'_, B>,
    own: u32,
    seat: Seat,
    kept: &mut K,
    results: &mut Vec<BlockResult>,
) -> (Seat, Result<(), WorkFault<B::Fault>>)
    requires dealt { IsDealt (plan_of B.blocks wave.now) }
    requires part { own < wave.now.parts }
    requires fresh { seat ≡ fresh_seat wave.now.claims seat.number }
    requires none { results.old.items ≡ [] }
    requires lent { B.lends wave.now.runner.now kept.old }
    requires room { HasRoomFor (plan_of B.blocks wave.now) (B.spent kept.old) }
    ensures own { result.0.claims ≡ wave.now.claims }
    ensures told { OnOk result.1 (WasToldOfAll wave.now.claims.counts result.0) }
    ensures results { OnOk result.1 (AreResults (plan_of B.blocks wave.now) result.0.drawn results.new.items) }
    ensures exact { OnOk result.1 (SpentOnMore (B.blocks wave.now.runner.now) (B.spent kept.old) (B.spent kept.new) [] results.new.items) }
    ensures lent { B.lends wave.now.runner.now kept.new }
    ensures few { SpentOnDraws (plan_of B.blocks wave.now) (B.spent kept.old) (B.spent kept.new) [] result.0.drawn }
    ensures fault { IfErr result.1 (λ fault. HasCause (B.caused wave.now.runner.now) fault) }
{
    let (seat, end) = spend_parts(rt, alloc, wave, own, wave.parts, seat, kept, results);
    match end {
        Ok(()) => spend_parts(rt, alloc, wave, 0, own, seat, kept, results),
        Err(fault) => (seat, Err(fault)),
    }
}

/// Draws from the parts from `first` to below `end` in order, each until no block of it is left.
fn spend_parts<K, B: RunsBlock<K>, R: Wait>(
    rt: &R,
    alloc: Global,
    wave: &Wave<'_, B>,
    first: u32,
    end: u32,
    mut seat: Seat,
    kept: &mut K,
    results: &mut Vec<BlockResult>,
) -> (Seat, Result<(), WorkFault<B::Fault>>)
    requires dealt { IsDealt (plan_of B.blocks wave.now) }
    requires parts { (first ≤ end) × (end ≤ wave.now.parts) }
    requires own { seat.claims ≡ wave.now.claims }
    requires untold { (part : ℕ) → first ≤ part → part < end → ¬ Contains seat.told part }
    requires results { AreResults (plan_of B.blocks wave.now) seat.drawn results.old.items }
    requires lent { B.lends wave.now.runner.now kept.old }
    requires room { WithinRoom (plan_of B.blocks wave.now) (B.spent kept.old) seat.drawn }
    ensures own { result.0.claims ≡ wave.now.claims }
    ensures told { OnOk result.1 (result.0.told ≡ seat.told ++ range_with_len first (end - first)) }
    ensures results { OnOk result.1 (AreResults (plan_of B.blocks wave.now) result.0.drawn results.new.items) }
    ensures exact { OnOk result.1 (SpentOnMore (B.blocks wave.now.runner.now) (B.spent kept.old) (B.spent kept.new) results.old.items results.new.items) }
    ensures lent { B.lends wave.now.runner.now kept.new }
    ensures few { SpentOnDraws (plan_of B.blocks wave.now) (B.spent kept.old) (B.spent kept.new) seat.drawn result.0.drawn }
    ensures fault { IfErr result.1 (λ fault. HasCause (B.caused wave.now.runner.now) fault) }
{
    for part in first..end {
        let (next, ended) = spend(rt, alloc, wave, part, seat, kept, results);
        seat = next;
        match ended {
            Ok(()) => {}
            Err(fault) => return (seat, Err(fault)),
        }
    }
    (seat, Ok(()))
}

/// Draws from a part, and runs each block drawn, until no block of it is left.
fn spend<K, B: RunsBlock<K>, R: Wait>(
    rt: &R,
    alloc: Global,
    wave: &Wave<'_, B>,
    part: u32,
    mut seat: Seat,
    kept: &mut K,
    results: &mut Vec<BlockResult>,
) -> (Seat, Result<(), WorkFault<B::Fault>>)
    requires dealt { IsDealt (plan_of B.blocks wave.now) }
    requires part { part < wave.now.parts }
    requires own { seat.claims ≡ wave.now.claims }
    requires untold { ¬ Contains seat.told part }
    requires results { AreResults (plan_of B.blocks wave.now) seat.drawn results.old.items }
    requires lent { B.lends wave.now.runner.now kept.old }
    requires room { WithinRoom (plan_of B.blocks wave.now) (B.spent kept.old) seat.drawn }
    ensures own { result.0.claims ≡ wave.now.claims }
    ensures told { OnOk result.1 (result.0.told ≡ seat.told ++ part ∷ []) }
    ensures results { OnOk result.1 (AreResults (plan_of B.blocks wave.now) result.0.drawn results.new.items) }
    ensures exact { OnOk result.1 (SpentOnMore (B.blocks wave.now.runner.now) (B.spent kept.old) (B.spent kept.new) results.old.items results.new.items) }
    ensures lent { B.lends wave.now.runner.now kept.new }
    ensures few { SpentOnDraws (plan_of B.blocks wave.now) (B.spent kept.old) (B.spent kept.new) seat.drawn result.0.drawn }
    ensures fault { IfErr result.1 (λ fault. HasCause (B.caused wave.now.runner.now) fault) }
{
    for _ in rt.forever() {
        let (next, drawn) = wave.claims.draw(seat, part);
        seat = next;
        let Some(number) = drawn else {
            return (seat, Ok(()));
        };
        let place = number as usize * wave.parts as usize + part as usize;
        let block = block_of(wave.list, wave.from + place);
        match run_one(rt, alloc, wave.runner, block, kept, results) {
            Ok(()) => {}
            Err(fault) => return (seat, Err(fault)),
        }
    }
    unreachable!()
}

/// The block at a place of the list.
fn block_of(list: &[u32], place: usize) -> u32
    requires { place < length list.now }
    ensures { result ≡ block_at list.now place }
{
    list[place]
}

/// Runs the block, and keeps its result.
fn run_one<K, B: RunsBlock<K>, R: Wait>(
    rt: &R,
    alloc: Global,
    runner: &B,
    block: u32,
    kept: &mut K,
    results: &mut Vec<BlockResult>,
) -> Result<(), WorkFault<B::Fault>>
    requires block { block < block_total (B.blocks runner.now).map }
    requires lent { B.lends runner.now kept.old }
    requires room { HasRoom (B.spent kept.old) ((B.blocks runner.now).active_of block) ((B.blocks runner.now).needed_of block) }
    ensures added { OnOk result (AddsResult (B.blocks runner.now) block results.old.items results.new.items) }
    ensures exact { OnOk result (SpentOnMore (B.blocks runner.now) (B.spent kept.old) (B.spent kept.new) results.old.items results.new.items) }
    ensures lent { B.lends runner.now kept.new }
    ensures few { SpentUpTo (B.spent kept.old) (B.spent kept.new) ((B.blocks runner.now).active_of block) ((B.blocks runner.now).needed_of block) }
    ensures fault { IfErr result (λ fault. HasCause (B.caused runner.now) fault) }
{
    let result = match runner.run(rt, alloc, block, kept) {
        Ok(result) => result,
        Err(fault) => return Err(fault),
    };
    let Ok(()) = results.push(result) else {
        return Err(WorkFault::Memory);
    };
    Ok(())
}
