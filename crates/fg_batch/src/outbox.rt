//! What a worker sends.

ghost use Rattle.std.specs.Prelude.{◌≡◌, ℕ, ◌+◌, ◌*◌, ◌^◌, ◌<◌, ◌≤◌, ◌∷◌, [], All, IfOk, OnErr, OnOk, length, map as each};
ghost use Rattle.fg_batch.specs.Lanes.{lanes_each};
ghost use Rattle.fg_batch.specs.Outbox.{AreAlong, AreBatches, HasRoom, HoldsAllSent, IsForItsPart, IsUnsent};
ghost use Rattle.fg_batch.specs.Outbox.{KeepsOrder, Sends, lane_at, lanes_with_mail, told_by};

use crate::batch::{Batch, LANE_PLACES};
use crate::mails::Mails;
use fg_base::Memory;
use fg_model::Mail;
use fg_part::PartMap;
use std::alloc::Global;
use std::marker::Model;

/// The messages that were sent and not yet taken out, by their parts. Each part has one list for each 2^16 of its places, since
/// delivering stays near then. The lists keep their room over the blocks of a worker.
#[derive(Drop)]
pub struct Outbox {
    map: PartMap,
    lanes_of_part: u32,
    lanes: Vec<Mails>,
}

impl Model for Outbox {
    ghost use Rattle.fg_batch.specs.Outbox.{IsOutbox, Sending};

    ghost Value = { Sending };

    ghost view = { λ inside. record { map = inside.map; lanes = inside.lanes.items } };

    ghost invariant = { λ inside. IsOutbox inside.map inside.lanes_of_part inside.lanes.items };
}

impl Outbox {
    /// Nothing is sent. It takes memory for the lists alone, a few for each part.
    pub fn new(alloc: Global, map: PartMap) -> Result<Outbox, Memory>
        ensures map { IfOk result (λ outbox. outbox.map ≡ map) }
        ensures empty { IfOk result IsUnsent }
    {
        let lanes_of_part = Batch::lanes(map);
        let lanes = empty_lanes(alloc, map.parts * lanes_of_part)?;
        Ok(Outbox {
            map,
            lanes_of_part,
            lanes,
        })
    }

    /// Takes memory, after which so many messages in all can be sent, whatever their targets.
    pub fn reserve(&mut self, messages: usize) -> Result<(), Memory>
        ensures sent { Sends self.old self.new [] }
        ensures ok { OnOk result (HasRoom messages self.new) }
        ensures kept { (k : ℕ) → HasRoom k self.old → HasRoom k self.new }
    {
        reserve_all(&mut self.lanes, messages)
    }

    /// Sends a message. It takes no memory.
    pub fn send(&mut self, target: u32, message: u64)
        requires vertex { target < self.old.map.n }
        requires room { HasRoom 1 self.old }
        ensures sent { Sends self.old self.new (record { target = target; message = message } ∷ []) }
        ensures room { (k : ℕ) → HasRoom (k + 1) self.old → HasRoom k self.new }
    {
        let first = self.map.part_of(target) * self.lanes_of_part;
        let lane = first + self.map.place_of(target) / LANE_PLACES;
        self.lanes[lane as usize].push(Mail { target, message });
    }

    /// Takes out what was sent, as the batches of this block: one for each list that isn't empty. They are copies in memory of
    /// their own; the outbox keeps its room. For want of memory it stays as it was.
    pub fn into_batches(&mut self, alloc: Global, block: u32) -> Result<Vec<Batch>, Memory>
        ensures batches { IfOk result (λ batches. AreBatches self.old block batches.items) }
        ensures empty { OnOk result (IsUnsent self.new) }
        ensures map { self.new.map ≡ self.old.map }
        ensures kept { OnErr result (self.new ≡ self.old) }
        ensures room { (k : ℕ) → HasRoom k self.old → HasRoom k self.new }
    {
        let batches = copies(alloc, self.map, self.lanes_of_part, block, &self.lanes)?;
        self.clear();
        Ok(batches)
    }

    /// Takes out what was sent, for nobody. It keeps the room.
    pub fn clear(&mut self)
        ensures empty { IsUnsent self.new }
        ensures map { self.new.map ≡ self.old.map }
        ensures room { (k : ℕ) → HasRoom k self.old → HasRoom k self.new }
    {
        clear_all(&mut self.lanes);
    }

    /// What is sent to a vertex goes along one lane, in the order in which it was sent. A call does nothing when it runs; it gives
    /// its caller this law.
    pub fn keeps_order(&self)
        ensures { KeepsOrder self.now.map }
    {}

    /// Nothing is lost on the way: what `sent` holds more than this outbox, which holds nothing, stands in the batches that it
    /// gives. A call does nothing when it runs; it gives its caller this law.
    pub fn holds_all_sent(&self, sent: &Outbox)
        ensures { HoldsAllSent self.now sent.now }
    {}
}

/// So many lists without messages.
fn empty_lanes(alloc: Global, count: u32) -> Result<Vec<Mails>, Memory>
    ensures count { IfOk result (λ lanes. length lanes.items ≡ count) }
    ensures none { IfOk result (λ lanes. (l : ℕ) → (lane_at lanes.items l).items ≡ []) }
{
    let mut lanes = Vec::with_capacity(alloc, count as usize)?;
    for _ in 0..count {
        lanes.push_reserved(Mails::new(alloc));
    }
    Ok(lanes)
}

/// Takes memory for so many messages more in each list.
fn reserve_all(lanes: &mut Vec<Mails>, count: usize) -> Result<(), Memory>
    ensures length { length lanes.new.items ≡ length lanes.old.items }
    ensures items { (l : ℕ) → (lane_at lanes.new.items l).items ≡ (lane_at lanes.old.items l).items }
    ensures ok { OnOk result ((l : ℕ) → l < length lanes.old.items → count ≤ (lane_at lanes.new.items l).room) }
    ensures kept { (l : ℕ) → (lane_at lanes.old.items l).room ≤ (lane_at lanes.new.items l).room }
{
    for at in 0..lanes.len() {
        lanes[at].reserve(count)?;
    }
    Ok(())
}

/// Takes all messages out of each list, and keeps the room.
fn clear_all(lanes: &mut Vec<Mails>)
    ensures length { length lanes.new.items ≡ length lanes.old.items }
    ensures none { (l : ℕ) → (lane_at lanes.new.items l).items ≡ [] }
    ensures kept { (l : ℕ) → (lane_at lanes.old.items l).room ≤ (lane_at lanes.new.items l).room }
{
    for at in 0..lanes.len() {
        lanes[at].clear();
    }
}

/// The batches of the lists that aren't empty, where each part has so many lists.
fn copies(
    alloc: Global,
    map: PartMap,
    lanes_of_part: u32,
    block: u32,
    lanes: &[Mails],
) -> Result<Vec<Batch>, Memory>
    requires right { lanes_of_part ≡ lanes_each map }
    requires count { length lanes.now ≡ map.parts * lanes_of_part }
    requires few { length lanes.now < 2 ^ 32 }
    requires fits { AreAlong map lanes.now }
    ensures lanes { IfOk result (λ batches. each told_by batches.items ≡ lanes_with_mail block lanes_of_part lanes.now) }
    ensures fit { IfOk result (λ batches. All (IsForItsPart map) batches.items) }
{
    let mut batches = Vec::new(alloc);
    for at in 0..lanes.len() {
        let mails = &lanes[at];
        if !mails.is_empty() {
            batches.push(Batch {
                block,
                part: at as u32 / lanes_of_part,
                lane: at as u32 % lanes_of_part,
                mails: mails.copy(alloc)?,
            })?;
        }
    }
    Ok(batches)
}
