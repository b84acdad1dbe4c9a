//! The directory of one page set.

ghost use Rattle.std.specs.Prelude.{◌≡◌, ◌<◌, ◌≤◌, ◌↔◌, true, replicate};
ghost use Rattle.fg_set.specs.Entry.{blank};
ghost use Rattle.fg_set.specs.Slips.{IsUnderWay, IsAllHeld, HasRoom};
ghost use Rattle.fg_set.specs.Want.{seen_of, is_hit, is_start, SlipNames};
ghost use Rattle.fg_set.specs.declared.answers.WantSeen.TheVariants as seen;

use crate::answers::{Placed, Want, WantSeen};
use crate::entry::Entry;
use crate::lookup::{finish, give_up, look_up, repair, unpin};
use crate::slips::{AllHeld, UnderWay};
use std::marker::Model;
use std::snapshot::Snapshot;

/// The directory of one page set. It has a fixed size and takes no memory. Contracts see its entries, its hand and its number of
/// workers.
#[derive(Drop)]
pub struct Directory {
    entries: [Entry; 16],
    ways: u8,
    hand: u8,
    workers: u8,
}

impl Model for Directory {
    ghost use Rattle.fg_set.specs.PageSet.{PageSet, IsSound};
    ghost use Rattle.fg_set.specs.Directory.{set_of, IsDirectory};

    ghost Value = { PageSet };

    ghost view = { set_of };

    ghost invariant = { IsDirectory };
}

impl Directory {
    ghost use Rattle.fg_set.specs.Change.{AnswerTells, PlacedTells, IsReady, ChangesOne, OneBecomes, KeepsPinned, ListsNoMore, ListsOneMore};
    ghost use Rattle.fg_set.specs.Entry.{ready, emptied, unpinned_by, repaired_by};
    ghost use Rattle.fg_set.specs.DirectoryStep.{wanted, made_ready, failed, unpinned, repaired};
    ghost use Rattle.fg_set.specs.PageSet.{new_set, ways_of, entry_at, IsSound};
    ghost use Rattle.fg_set.specs.declared.answers.Placed.TheVariants as placed;
    ghost use Rattle.fg_set.specs.declared.entry.EntryState.TheVariants as state;

    /// A directory of `ways` empty entries, which this many workers may ask.
    pub fn new(ways: u32, workers: u32) -> Directory
        requires some_way { 0 < ways }
        requires few_ways { ways ≤ 16 }
        requires few_workers { workers ≤ 64 }
        ensures new { result ≡ new_set ways workers }
        ensures sound { IsSound result }
    {
        Directory {
            entries: blank_entries(),
            ways: ways as u8,
            hand: 0,
            workers: workers as u8,
        }
    }

    /// How many entries there are.
    pub fn ways(&self) -> u32
        ensures count { result ≡ ways_of self.now }
        ensures sound { IsSound self.now }
    {
        u32::from(self.ways)
    }

    /// How many workers may ask.
    pub fn workers(&self) -> u32
        ensures count { result ≡ self.now.workers }
        ensures sound { IsSound self.now }
    {
        u32::from(self.workers)
    }

    /// A worker asks for a page. After `Hit` the page's frame is pinned for the worker until it calls `unpin` or `repair`. After
    /// `Start` the caller owes the entry a call of `ready` or `fail`. `Loading` and `Again` change nothing.
    pub fn want(&mut self, worker: u32, page: u32) -> Want
        requires { worker < self.old.workers }

        // the step
        ensures answer { seen_of result ≡ (wanted worker page self.old).answer }
        ensures after { self.new ≡ (wanted worker page self.old).after }
        ensures slip { SlipNames self.old page result }

        // when each answer comes
        ensures hit_exactly { (is_hit (seen_of result) ≡ true) ↔ IsReady self.old page }
        ensures start_exactly { (is_start (seen_of result) ≡ true) ↔ HasRoom self.old page }
        ensures loading_exactly { (seen_of result ≡ seen.Loading) ↔ IsUnderWay self.old page }
        ensures again_exactly { (seen_of result ≡ seen.Again) ↔ IsAllHeld self.old page }

        // what it tells of the entries
        ensures tells { AnswerTells worker page self.old self.new (seen_of result) }
        ensures pinned { KeepsPinned self.old self.new }
        ensures listed { ListsOneMore self.old self.new page }
        ensures ways { ways_of self.new ≡ ways_of self.old }
        ensures workers { self.new.workers ≡ self.old.workers }
        ensures sound { IsSound self.new }
    {
        let asked = Snapshot::of(self);
        let ways = usize::from(self.ways);
        let (answer, hand) = look_up(
            &mut self.entries[..ways],
            usize::from(self.hand),
            worker,
            page,
        );
        self.hand = hand as u8;
        with_slip(answer, page, asked)
    }

    /// The load of the page into this frame ended well: the entry is ready, and marked.
    pub fn ready(&mut self, frame: u32, page: u32) -> Placed
        requires { frame < ways_of self.old }
        ensures answer { result ≡ (made_ready frame page self.old).answer }
        ensures after { self.new ≡ (made_ready frame page self.old).after }
        ensures done_exactly { (result ≡ placed.Done) ↔ ((entry_at self.old frame).state ≡ state.Loading page) }
        ensures tells { PlacedTells frame page (ready page) self.old self.new result }
        ensures change { ChangesOne self.old self.new frame }
        ensures pinned { KeepsPinned self.old self.new }
        ensures listed { ListsNoMore self.old self.new }
        ensures ways { ways_of self.new ≡ ways_of self.old }
        ensures workers { self.new.workers ≡ self.old.workers }
        ensures sound { IsSound self.new }
    {
        let ways = usize::from(self.ways);
        finish(&mut self.entries[..ways], frame as usize, page)
    }

    /// The load of the page into this frame failed: the entry is empty.
    pub fn fail(&mut self, frame: u32, page: u32) -> Placed
        requires { frame < ways_of self.old }
        ensures answer { result ≡ (failed frame page self.old).answer }
        ensures after { self.new ≡ (failed frame page self.old).after }
        ensures done_exactly { (result ≡ placed.Done) ↔ ((entry_at self.old frame).state ≡ state.Loading page) }
        ensures tells { PlacedTells frame page emptied self.old self.new result }
        ensures change { ChangesOne self.old self.new frame }
        ensures pinned { KeepsPinned self.old self.new }
        ensures listed { ListsNoMore self.old self.new }
        ensures ways { ways_of self.new ≡ ways_of self.old }
        ensures workers { self.new.workers ≡ self.old.workers }
        ensures sound { IsSound self.new }
    {
        let ways = usize::from(self.ways);
        give_up(&mut self.entries[..ways], frame as usize, page)
    }

    /// A worker gives its pin of a frame back.
    pub fn unpin(&mut self, worker: u32, frame: u32)
        requires worker { worker < self.old.workers }
        requires frame { frame < ways_of self.old }
        ensures after { self.new ≡ unpinned worker frame self.old }
        ensures becomes { OneBecomes self.old self.new frame (unpinned_by worker) }
        ensures change { ChangesOne self.old self.new frame }
        ensures pinned { KeepsPinned self.old self.new }
        ensures listed { ListsNoMore self.old self.new }
        ensures ways { ways_of self.new ≡ ways_of self.old }
        ensures workers { self.new.workers ≡ self.old.workers }
        ensures sound { IsSound self.new }
    {
        let ways = usize::from(self.ways);
        unpin(&mut self.entries[..ways], worker, frame as usize);
    }

    /// A worker gives its pin back that found another page in the frame: where no bit is left, a ready entry is emptied.
    pub fn repair(&mut self, worker: u32, frame: u32)
        requires worker { worker < self.old.workers }
        requires frame { frame < ways_of self.old }
        ensures after { self.new ≡ repaired worker frame self.old }
        ensures becomes { OneBecomes self.old self.new frame (repaired_by worker) }
        ensures change { ChangesOne self.old self.new frame }
        ensures pinned { KeepsPinned self.old self.new }
        ensures listed { ListsNoMore self.old self.new }
        ensures ways { ways_of self.new ≡ ways_of self.old }
        ensures workers { self.new.workers ≡ self.old.workers }
        ensures sound { IsSound self.new }
    {
        let ways = usize::from(self.ways);
        repair(&mut self.entries[..ways], worker, frame as usize);
    }
}

/// The answer with its slip, made from the page and the directory that was asked.
fn with_slip(answer: WantSeen, page: u32, asked: Snapshot<Directory>) -> Want
    requires loading { answer ≡ seen.Loading → IsUnderWay asked.value page }
    requires again { answer ≡ seen.Again → IsAllHeld asked.value page }
    ensures seen { seen_of result ≡ answer }
    ensures slip { SlipNames asked.value page result }
{
    match answer {
        WantSeen::Hit(frame) => Want::Hit(frame),
        WantSeen::Start(frame) => Want::Start(frame),
        WantSeen::Loading => Want::Loading(UnderWay::of(page, asked)),
        WantSeen::Again => Want::Again(AllHeld::of(page, asked)),
    }
}

fn blank_entries() -> [Entry; 16]
    ensures { result ≡ replicate 16 blank }
{
    [
        Entry::blank(),
        Entry::blank(),
        Entry::blank(),
        Entry::blank(),
        Entry::blank(),
        Entry::blank(),
        Entry::blank(),
        Entry::blank(),
        Entry::blank(),
        Entry::blank(),
        Entry::blank(),
        Entry::blank(),
        Entry::blank(),
        Entry::blank(),
        Entry::blank(),
        Entry::blank(),
    ]
}
