//! What came to all parts.

ghost use Rattle.std.specs.Prelude.{◌≡◌, ℕ, ◌+◌, ◌*◌, ◌<◌, ◌≤◌, false, [], None, All, IfOk, length, slice_index_or};
ghost use Rattle.fg_batch.specs.Outbox.{IsForItsPart, mail_in};
ghost use Rattle.fg_gather.specs.Arrivals.{AreInboxes, Brings, HasCome, HasNone, IsEmptied, came_to};
ghost use Rattle.fg_batch.specs.Inbox.{Holding};
ghost use Rattle.fg_model.specs.Program.{IsLawful};
ghost use Rattle.fg_gather.specs.Deliver.{batches_in};
ghost use Rattle.fg_gather.specs.Gather.{IsIterated};
ghost use Rattle.fg_gather.specs.Marks.{AreMarks};
ghost use Rattle.fg_model.specs.Iteration.{AreStates};
ghost use Rattle.fg_part.specs.PartMap.{StandsIn, block_size, block_total};

use crate::deliver::deliver_all;
use crate::gather::gather_all;
use fg_base::{Memory, VState};
use fg_batch::{Batch, Inbox};
use fg_model::Program;
use fg_part::PartMap;
use std::alloc::Global;
use std::marker::Model;
use std::thread;
use std::thread::Threads;

/// The inboxes of all parts. Contracts see what each place holds. They are made once for a run, and only `new` takes memory.
///
/// Where a call takes `threads`, it begins at most so many, and with 1 it does all on the caller's.
#[derive(Drop)]
pub struct Inboxes<'a, P: Program> {
    program: &'a P,
    map: PartMap,
    boxes: Vec<Inbox<'a, P>>,
}

impl<'a, P: Program> Model for Inboxes<'a, P> {
    ghost use Rattle.fg_gather.specs.Arrivals.{AreInboxes, Arrivals, held_in_each};

    ghost Value = { Arrivals P };

    ghost view = { λ inside. record { program = inside.program.now; map = inside.map; parts = held_in_each inside.boxes.items } };

    ghost invariant = { λ inside. AreInboxes inside.program.now inside.map inside.boxes.items };
}

impl<'a, P: Program> Inboxes<'a, P> {
    ghost use Rattle.fg_batch.specs.Inbox.{received};
    ghost use Rattle.fg_model.specs.Iteration.{state_at};

    /// Nothing has come to any part.
    pub fn new(alloc: Global, program: &'a P, map: PartMap) -> Result<Inboxes<'a, P>, Memory>
        ensures program { IfOk result (λ inboxes. inboxes.program ≡ program.now) }
        ensures map { IfOk result (λ inboxes. inboxes.map ≡ map) }
        ensures none { IfOk result (λ inboxes. HasCome (P.rules program.now) map inboxes.parts []) }
    {
        let boxes = open_all(alloc, program, map)?;
        Ok(Inboxes {
            program,
            map,
            boxes,
        })
    }

    /// The program whose messages come.
    pub fn program(&self) -> &'a P
        ensures { result.now ≡ self.now.program }
    {
        self.program
    }

    /// Which vertex is in which part.
    pub fn map(&self) -> PartMap
        ensures { result ≡ self.now.map }
    {
        self.map
    }

    /// Whether something may have come to a vertex of the block.
    pub fn has_mail(&self, block: u32) -> bool
        requires { block < block_total self.now.map }
        ensures { result ≡ false → (v : ℕ) → StandsIn self.now.map block v → came_to self.now.map self.now.parts v ≡ None }
    {
        let part = block % self.map.parts;
        self.boxes[part as usize].has_mail(block / self.map.parts)
    }

    /// Folds what came to the vertices of the block into their states, of which the first are given.
    pub(crate) fn fold_block(&self, block: u32, states: &mut [VState])
        requires block { block < block_total self.now.map }
        requires count { length states.old ≤ block_size self.now.map }
        ensures count { length states.new ≡ length states.old }
        ensures each { (k : ℕ) → k < length states.old → state_at states.new k
            ≡ received (P.rules self.now.program) (came_to self.now.map self.now.parts (block * block_size self.now.map + k)) (state_at states.old k) }
    {
        let part = block % self.map.parts;
        self.boxes[part as usize].fold_block(block / self.map.parts, states);
    }
}

impl<'a, P: Program + Sync> Inboxes<'a, P> {
    /// Delivers the batches of a wave: the inbox of each part combines the messages in those of its own, in any order. It takes no
    /// memory.
    pub fn deliver<R: Threads + Sync>(&mut self, rt: &R, wave: &[Vec<Batch>], threads: usize)
        requires threads { 0 < threads }
        requires fit { All (IsForItsPart self.old.map) (batches_in wave.now) }
        ensures program { self.new.program ≡ self.old.program }
        ensures map { self.new.map ≡ self.old.map }
        ensures came { Brings (P.rules self.old.program) self.old.map (mail_in (batches_in wave.now)) self.old.parts self.new.parts }
    {
        know_law(self.program);
        deliver_all(rt, self.map, wave, threads, &mut self.boxes);
    }

    /// Gives each vertex its state after the iteration: in a block with a mark each vertex that was awake gets the state of its run
    /// once more, and then each vertex folds in what came to it. The inboxes keep that. It takes no memory.
    pub fn gather<R: Threads + Sync>(
        &self,
        rt: &R,
        phase: u64,
        marks: &[bool],
        threads: usize,
        states: &mut [VState],
    )
        requires threads { 0 < threads }
        requires states { AreStates self.now.map.n states.old }
        requires marks { AreMarks (P.rules self.now.program) self.now.map phase states.old marks.now }
        ensures { IsIterated (P.rules self.now.program) self.now.map phase self.now.parts states.old states.new }
    {
        know_law(self.program);
        gather_all(rt, self, phase, marks, threads, states);
    }

    /// Takes out all that came, and keeps the room.
    pub fn empty<R: Threads + Sync>(&mut self, rt: &R, threads: usize)
        requires threads { 0 < threads }
        ensures program { self.new.program ≡ self.old.program }
        ensures map { self.new.map ≡ self.old.map }
        ensures none { HasCome (P.rules self.old.program) self.old.map self.new.parts [] }
    {
        empty_all(rt, threads, &mut self.boxes);
    }
}

/// An inbox to which nothing has come for each part.
fn open_all<'a, P: Program>(
    alloc: Global,
    program: &'a P,
    map: PartMap,
) -> Result<Vec<Inbox<'a, P>>, Memory>
    ensures inboxes { IfOk result (λ boxes. AreInboxes program.now map boxes.items) }
    ensures none { IfOk result (λ boxes. All HasNone boxes.items) }
{
    let mut boxes = Vec::with_capacity(alloc, map.parts as usize)?;
    for part in 0..map.parts {
        boxes.push(Inbox::new(alloc, program, map, part)?)?;
    }
    Ok(boxes)
}

/// Takes out all that came to each part, in threads.
fn empty_all<P: Program + Sync, R: Threads + Sync>(
    rt: &R,
    threads: usize,
    boxes: &mut [Inbox<'_, P>],
)
    requires threads { 0 < threads }
    ensures count { length boxes.new ≡ length boxes.old }
    ensures each { (part : ℕ) (d : Holding P) → part < length boxes.old → IsEmptied (slice_index_or boxes.old part d) (slice_index_or boxes.new part d) }
{
    thread::for_each_mut(
        rt,
        boxes,
        threads,
        &|_part: usize, inbox: &mut Inbox<'_, P>|
            ensures { IsEmptied inbox.entry.now inbox.exit.now }
        { inbox.empty() },
    );
}

/// The program's law.
fn know_law<P: Program>(program: &P)
    ensures { IsLawful (P.rules program.now) }
{}
