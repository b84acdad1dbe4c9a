//! What the workers of a run are given, and give back.

ghost use Rattle.std.specs.Prelude.{◌≡◌, ◌≤◌, [], All, length, vec_capacity};
ghost use Rattle.fg_batch.specs.Outbox.{IsUnsent};
ghost use Rattle.fg_cache.specs.Closing.{all_hits};
ghost use Rattle.fg_cache.specs.Pass.{IsPassOf};
ghost use Rattle.fg_cache.specs.Site.{Site};
ghost use Rattle.fg_engine.specs.Hands.{AreHands, AreSettled, HavePasses};
ghost use Rattle.fg_engine.specs.Outfit.{IsOutboxOf};
ghost use Rattle.fg_iter.specs.Crew.{hits_in};
ghost use Rattle.fg_part.specs.declared.part_map.PartMap.{PartMap};
ghost use Rattle.fg_worker.specs.Hand.{counted_by};

use crate::bounded::Bounded;
use fg_base::Tally;
use fg_batch::Outbox;
use fg_cache::{FaultShare, Pass};
use fg_crew::Slot;
use fg_worker::Hand;

/// What a worker keeps in its slot.
pub(crate) type HandSlot<T> = Slot<Hand<Bounded<T>>, FaultShare>;

/// The slots of workers with these passes and outboxes, each with a part of the tally. The room for them is `slots`.
pub(crate) fn hand_out<T: Tally>(
    passes: Vec<Pass>,
    outboxes: Vec<Outbox>,
    slots: Vec<Slot<Hand<T>, FaultShare>>,
    tally: &mut T,
) -> Vec<Slot<Hand<T>, FaultShare>>
    requires outboxes { length outboxes.items ≡ length passes.items }
    requires unsent { All IsUnsent outboxes.items }
    requires room { (slots.items ≡ []) × (length passes.items ≤ vec_capacity slots) }
    ensures count { length result.items ≡ length passes.items }
    ensures hands { (site : Site) (map : PartMap) → All (IsPassOf site) passes.items → All (IsOutboxOf map) outboxes.items
        → AreHands site map result.items }
    ensures settled { AreSettled T.runs T.entries result.items }
    ensures hits { hits_in (counted_by T.runs T.entries) result.items ≡ all_hits passes.items }
    ensures runs { T.runs tally.new ≡ T.runs tally.old }
    ensures entries { T.entries tally.new ≡ T.entries tally.old }
{
    let mut passes = passes;
    let mut outboxes = outboxes;
    let mut slots = slots;
    while let Some(pass) = passes.pop() {
        let Some(outbox) = outboxes.pop() else {
            unreachable!();
        };
        slots.push_reserved(Slot::new(Hand::new(pass, outbox, tally.split())));
    }
    slots
}

/// The passes of the workers. Nothing is counted any more in their parts of the tally. The room for the passes is `passes`.
pub(crate) fn take_in<T: Tally>(
    slots: Vec<Slot<Hand<Bounded<T>>, FaultShare>>,
    passes: Vec<Pass>,
    tally: &mut Bounded<T>,
) -> Vec<Pass>
    requires held { (site : Site) × HavePasses site slots.items }
    requires settled { AreSettled T.runs T.entries slots.items }
    requires room { (passes.items ≡ []) × (length slots.items ≤ vec_capacity passes) }
    ensures count { length result.items ≡ length slots.items }
    ensures passes { (site : Site) → HavePasses site slots.items → All (IsPassOf site) result.items }
    ensures hits { all_hits result.items ≡ hits_in (counted_by T.runs T.entries) slots.items }
    ensures runs { T.runs tally.new ≡ T.runs tally.old }
    ensures entries { T.entries tally.new ≡ T.entries tally.old }
{
    let mut slots = slots;
    let mut passes = passes;
    while let Some(slot) = slots.pop() {
        let (pass, part) = slot.into_kept().into_parts();
        tally.join_none(part);
        passes.push_reserved(pass);
    }
    slots.destroy_empty();
    passes
}
