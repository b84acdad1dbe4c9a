//! What the workers counted is moved into the tally.

ghost use Rattle.std.specs.Prelude.{◌≡◌, ℕ, ◌+◌, ◌<◌, ◌^◌, All, length, map as each};
ghost use Rattle.std.specs.List.{sum_by};
ghost use Rattle.fg_iter.specs.Crew.{IsSettled, hits_in};
ghost use Rattle.fg_part.specs.declared.part_map.PartMap.{PartMap as Map};

use crate::runs_on::Settles;
use fg_base::Tally;
use fg_crew::Slot;
use fg_model::Program;

/// Moves what all workers counted into the tally.
pub(crate) fn settle_all<P: Program, K, T: Tally, B: Settles<P, K, T>>(
    runner: &B,
    slots: &mut [Slot<K, B::Fault>],
    tally: &mut T,
)
    requires room_of_runs { T.runs tally.old + sum_by (λ slot. (B.spent slot.kept).runs) slots.old < 2 ^ 64 }
    requires room_of_entries { T.entries tally.old + sum_by (λ slot. (B.spent slot.kept).entries) slots.old < 2 ^ 64 }
    ensures runs { T.runs tally.new ≡ T.runs tally.old + sum_by (λ slot. (B.spent slot.kept).runs) slots.old }
    ensures entries { T.entries tally.new ≡ T.entries tally.old + sum_by (λ slot. (B.spent slot.kept).entries) slots.old }
    ensures settled { All (λ slot. IsSettled (B.spent slot.kept)) slots.new }
    ensures hits { hits_in B.spent slots.new ≡ hits_in B.spent slots.old }
    ensures lent { (map : Map) → All (λ slot. B.lends runner.now map slot.kept) slots.old → All (λ slot. B.lends runner.now map slot.kept) slots.new }
    ensures count { length slots.new ≡ length slots.old }
{
    for slot in slots.iter_mut() {
        runner.settle(&mut slot.kept, tally);
    }
}
