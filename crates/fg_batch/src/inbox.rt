//! What came to a part.

ghost use Rattle.std.specs.Prelude.{◌≡◌, ◌≢◌, ℕ, ◌<◌, ◌≤◌, None, false, All, IfOk, length, if◌then◌else◌};
ghost use Rattle.fg_model.specs.Iteration.{state_at};

use crate::batch::Batch;
use crate::bits::{empty_set, has, next_in, put, wipe_flagged};
use crate::mails::Mails;
use fg_base::{Memory, VState};
use fg_model::{Mail, Program};
use fg_part::PartMap;
use std::alloc::Global;
use std::marker::Model;

/// For each place of a part the one number that all messages to its vertex combine to, or none. It takes 8 bytes and a bit for
/// each place and a byte for each block, and only `new` takes memory. A block to which nothing came costs one look.
#[derive(Drop)]
pub struct Inbox<'a, P: Program> {
    program: &'a P,
    map: PartMap,
    part: u32,
    numbers: Vec<u64>,
    came: Vec<u64>,
    flags: Vec<bool>,
}

impl<'a, P: Program> Model for Inbox<'a, P> {
    ghost use Rattle.fg_batch.specs.Inbox.{Holding, IsInbox, held_by};

    ghost Value = { Holding P };

    ghost view = { λ inside. record {
      program = inside.program.now;
      map = inside.map;
      part = inside.part;
      held = held_by inside.numbers.items inside.came.items;
    } };

    ghost invariant = { λ inside. IsInbox inside.map inside.part inside.numbers.items inside.came.items inside.flags.items };
}

impl<'a, P: Program> Inbox<'a, P> {
    ghost use Rattle.fg_batch.specs.Inbox.{AreOpen, FoldsEach, HasBlockFolded, IsFoldedInto, held_in, with_all, with_mail};
    ghost use Rattle.fg_batch.specs.Lanes.{IsFor};
    ghost use Rattle.fg_part.specs.PartMap.{block_size, blocks_in};

    /// Nothing has come to the part.
    pub fn new(
        alloc: Global,
        program: &'a P,
        map: PartMap,
        part: u32,
    ) -> Result<Inbox<'a, P>, Memory>
        requires { part < map.parts }
        ensures program { IfOk result (λ inbox. inbox.program ≡ program.now) }
        ensures map { IfOk result (λ inbox. inbox.map ≡ map) }
        ensures part { IfOk result (λ inbox. inbox.part ≡ part) }
        ensures empty { IfOk result (λ inbox. AreOpen map part inbox.held) }
    {
        let places = map.places(part) as usize;
        Ok(Inbox {
            program,
            map,
            part,
            numbers: vec![in alloc; 0; places]?,
            came: empty_set(alloc, places.div_ceil(64))?,
            flags: vec![in alloc; false; map.blocks(part) as usize]?,
        })
    }

    /// Which part it is of.
    pub fn part(&self) -> u32
        ensures { result ≡ self.now.part }
    {
        self.part
    }

    /// Combines the messages of the batch into what came before. It takes no memory.
    pub fn deliver(&mut self, batch: Batch)
        requires { All (IsFor self.old.map self.old.part) batch.mails.items }
        ensures { self.new ≡ record self.old { held = with_all (P.rules self.old.program) self.old.map self.old.held batch.mails.items } }
    {
        self.accept(&batch.mails);
    }

    /// The same for messages that others read too.
    pub fn accept(&mut self, mails: &Mails)
        requires { All (IsFor self.old.map self.old.part) mails.now.items }
        ensures { self.new ≡ record self.old { held = with_all (P.rules self.old.program) self.old.map self.old.held mails.now.items } }
    {
        for mail in mails.iter() {
            self.take_in(mail);
        }
    }

    /// Combines one message into what came before.
    fn take_in(&mut self, mail: Mail)
        requires { IsFor self.old.map self.old.part mail }
        ensures { self.new ≡ record self.old { held = with_mail (P.rules self.old.program) self.old.map self.old.held mail } }
    {
        let place = self.map.place_of(mail.target) as usize;
        let came = has(&self.came, place);
        let number = joined(self.program, came, self.numbers[place], mail.message);
        self.numbers[place] = number;
        put(&mut self.came, place);
        self.flags[place >> self.map.shift] = true;
    }

    /// Folds what came to each vertex into its state. The inbox is empty then, and may be used again. It takes no memory.
    pub fn fold_into(&mut self, states: &mut [VState])
        requires { length states.old ≡ self.old.map.n }
        ensures folded { IsFoldedInto (P.rules self.old.program) self.old.map self.old.part self.old.held states.old states.new }
        ensures program { self.new.program ≡ self.old.program }
        ensures map { self.new.map ≡ self.old.map }
        ensures part { self.new.part ≡ self.old.part }
        ensures empty { AreOpen self.old.map self.old.part self.new.held }
    {
        let places = self.map.places(self.part) as usize;
        let mut place = next_in(&self.came, 0);
        while place < places {
            let v = self.map.vertex_at(self.part, place as u32) as usize;
            fold_at(self.program, states, v, self.numbers[place]);
            place = next_in(&self.came, place + 1);
        }
        self.empty();
    }

    /// Whether something may have come to block `number` of the part.
    pub fn has_mail(&self, number: u32) -> bool
        requires { number < blocks_in self.now.map self.now.part }
        ensures { result ≡ false → (k : ℕ) → k < block_size self.now.map → held_in self.now.map self.now.held number k ≡ None }
    {
        self.flags[number as usize]
    }

    /// Folds what came to block `number` of the part into the states of its vertices, and keeps it. It takes no memory.
    pub fn fold_block(&self, number: u32, states: &mut [VState])
        requires number { number < blocks_in self.now.map self.now.part }
        requires count { length states.old ≤ block_size self.now.map }
        ensures { HasBlockFolded (P.rules self.now.program) self.now.map number self.now.held states.old states.new }
    {
        if !self.has_mail(number) {
            return;
        }
        let first = number as usize * self.map.block_size() as usize;
        let end = first + states.len();
        let came = &self.came[..end.div_ceil(64)];
        let mut place = next_in(came, first);
        while place < end {
            fold_at(self.program, states, place - first, self.numbers[place]);
            place = next_in(came, place + 1);
        }
    }

    /// Takes out all that came, and keeps the room.
    pub fn empty(&mut self)
        ensures program { self.new.program ≡ self.old.program }
        ensures map { self.new.map ≡ self.old.map }
        ensures part { self.new.part ≡ self.old.part }
        ensures empty { AreOpen self.old.map self.old.part self.new.held }
    {
        let size = self.map.block_size() as usize;
        wipe_flagged(&mut self.came, &mut self.flags, size);
    }

    /// Combining loses nothing: what came since the inbox was empty is folded as each message by itself, in the order in which
    /// they came. A call does nothing when it runs; it gives its caller this law.
    pub fn folds_each(&self)
        ensures { FoldsEach (P.rules self.now.program) self.now.map self.now.part }
    {}
}

/// The number that a place holds after a message: `number` is there where something `came` before.
fn joined<P: Program>(program: &P, came: bool, number: u64, message: u64) -> u64
    ensures { result ≡ (if came then (P.rules program.now).combine number message else message) }
{
    if came {
        program.combine(number, message)
    } else {
        message
    }
}

/// Folds the number into the state of `v`, where there is one.
fn fold_at<P: Program>(program: &P, states: &mut [VState], v: usize, number: u64)
    ensures count { length states.new ≡ length states.old }
    ensures there { v < length states.old → state_at states.new v ≡ (P.rules program.now).receive (state_at states.old v) number }
    ensures other { (u : ℕ) → u ≢ v → state_at states.new u ≡ state_at states.old u }
{
    if v < states.len() {
        states[v] = program.receive(states[v], number);
    }
}
