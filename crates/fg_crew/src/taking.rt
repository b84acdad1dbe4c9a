//! Seats and results are taken back from the workers of a wave.

ghost use Rattle.std.specs.Prelude.{◌≡◌, ◌+◌, ◌<◌, ◌≤◌, ◌++◌, [], All, IfErr, OnOk, length, map, vec_capacity, vec_len};
ghost use Rattle.std.specs.List.{flat_map};
ghost use Rattle.fg_task.specs.Blocks.{HasCause};
ghost use Rattle.fg_task.specs.declared.block_result.WorkFault.{WorkFault};
ghost use Rattle.fg_crew.specs.Slots.{FaultHasCause, HasEndedWell, results_at, seat_at, worse_of};

use crate::slot::{Desk, Slot};
use fg_steal::Seat;
use fg_task::{BlockResult, RunsBlock, WorkFault};

/// Takes the seats and the results of all slots in order. Where workers failed, the worst end is answered, the first of those alike, and the
/// seats are there all the same.
pub(crate) fn take_back<K, B: RunsBlock<K>>(
    runner: &B,
    slots: &mut [Slot<K, B::Fault>],
    seats: &mut Vec<Seat>,
    results: &mut Vec<BlockResult>,
) -> Result<(), WorkFault<B::Fault>>
    requires faults { All (FaultHasCause (B.caused runner.now)) slots.old }
    requires room { vec_len seats.old + length slots.old ≤ vec_capacity seats.old }
    ensures kept { map (λ slot. slot.kept) slots.new ≡ map (λ slot. slot.kept) slots.old }
    ensures seats { seats.new.items ≡ seats.old.items ++ flat_map seat_at slots.old }
    ensures ended { OnOk result (All HasEndedWell slots.old) }
    ensures results { OnOk result (results.new.items ≡ results.old.items ++ flat_map results_at slots.old) }
    ensures fault { IfErr result (λ fault. HasCause (B.caused runner.now) fault) }
{
    let mut taken = Ok(());
    for k in 0..slots.len() {
        taken = worse(taken, take_one(runner, &mut slots[k], seats, results));
    }
    taken
}

/// The worse of two ends: a fault of what runs blocks before want of memory, and that before a good end; of two alike the first.
fn worse<F: Drop>(
    first: Result<(), WorkFault<F>>,
    next: Result<(), WorkFault<F>>,
) -> Result<(), WorkFault<F>>
    ensures { result ≡ worse_of first next }
{
    match first {
        Ok(()) => next,
        Err(WorkFault::Fault(fault)) => Err(WorkFault::Fault(fault)),
        Err(WorkFault::Memory) => match next {
            Err(WorkFault::Fault(fault)) => Err(WorkFault::Fault(fault)),
            Ok(()) | Err(WorkFault::Memory) => Err(WorkFault::Memory),
        },
    }
}

/// Takes the seat and the results of a slot.
fn take_one<K, B: RunsBlock<K>>(
    runner: &B,
    slot: &mut Slot<K, B::Fault>,
    seats: &mut Vec<Seat>,
    results: &mut Vec<BlockResult>,
) -> Result<(), WorkFault<B::Fault>>
    requires faults { FaultHasCause (B.caused runner.now) slot.old }
    requires room { vec_len seats.old < vec_capacity seats.old }
    ensures kept { slot.new.kept ≡ slot.old.kept }
    ensures seats { seats.new.items ≡ seats.old.items ++ seat_at slot.old }
    ensures room { (vec_len seats.new ≤ vec_len seats.old + 1) × (vec_capacity seats.new ≡ vec_capacity seats.old) }
    ensures ended { OnOk result (HasEndedWell slot.old) }
    ensures results { OnOk result (results.new.items ≡ results.old.items ++ results_at slot.old) }
    ensures fault { IfErr result (λ fault. HasCause (B.caused runner.now) fault) }
{
    let Some(desk) = slot.desk.take() else {
        return Err(WorkFault::Memory);
    };
    let Desk {
        seat,
        results: mut more,
        end,
    } = desk;
    seats.push_reserved(seat);
    match end {
        Ok(()) => keep(&mut more, results),
        Err(fault) => Err(fault),
    }
}

/// Keeps results behind the others.
fn keep<F: Drop>(
    more: &mut Vec<BlockResult>,
    results: &mut Vec<BlockResult>,
) -> Result<(), WorkFault<F>>
    ensures results { OnOk result (results.new.items ≡ results.old.items ++ more.old.items) }
    ensures memory { IfErr result (λ fault. fault ≡ WorkFault.Memory) }
{
    let Ok(()) = results.append(more) else {
        return Err(WorkFault::Memory);
    };
    Ok(())
}
