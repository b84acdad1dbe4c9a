//! Marks of blocks.

ghost use Rattle.std.specs.Prelude.{◌≡◌, ℕ, ◌<◌, length};
ghost use Rattle.std.specs.List.{list_any};
ghost use Rattle.fg_gather.specs.Marks.{AreMadeAgain, AreMarks, IsMadeAgain, IsMark, TellsActive};
ghost use Rattle.fg_part.specs.PartMap.{block_total};

use crate::inboxes::Inboxes;
use fg_base::VState;
use fg_model::{Program, is_some_active};
use fg_part::PartMap;
use std::thread;
use std::thread::Threads;

/// Marks each block that has a vertex awake in this phase, and no other, in at most so many threads.
pub fn mark_all<P: Program + Sync, R: Threads + Sync>(
    rt: &R,
    program: &P,
    map: PartMap,
    phase: u64,
    states: &[VState],
    threads: usize,
    marks: &mut [bool],
)
    requires threads { 0 < threads }
    requires states { length states.now ≡ map.n }
    requires marks { length marks.old ≡ block_total map }
    ensures { AreMarks (P.rules program.now) map phase states.now marks.new }
{
    thread::for_each_mut(
        rt,
        marks,
        threads,
        &|block: usize, mark: &mut bool|
            requires { (length states.now ≡ map.n) × (block < block_total map) }
            ensures { IsMark (P.rules program.entry.now) map phase states.entry.now block mark.exit.now }
        { *mark = has_awake(program, map, phase, states, block as u32) },
    );
}

/// Makes the marks again after a gather. It looks only at the states of blocks that had a mark or to which something came.
pub fn mark_again<P: Program + Sync, R: Threads + Sync>(
    rt: &R,
    inboxes: &Inboxes<'_, P>,
    phase: u64,
    states: &[VState],
    threads: usize,
    marks: &mut [bool],
)
    requires threads { 0 < threads }
    requires states { length states.now ≡ inboxes.now.map.n }
    requires marks { length marks.old ≡ block_total inboxes.now.map }
    ensures count { length marks.new ≡ length marks.old }
    ensures again { AreMadeAgain (P.rules inboxes.now.program) inboxes.now phase states.now marks.old marks.new }
{
    thread::for_each_mut(
        rt,
        marks,
        threads,
        &|block: usize, mark: &mut bool|
            requires { (length states.now ≡ inboxes.now.map.n) × (block < block_total inboxes.now.map) }
            ensures { IsMadeAgain (P.rules inboxes.entry.now.program) inboxes.entry.now phase states.entry.now block
                mark.entry.now mark.exit.now }
        { mark_one(inboxes, phase, states, block as u32, mark) },
    );
}

/// Whether a block has a mark: whether a vertex is active.
pub fn any_marked(marks: &[bool]) -> bool
    ensures { TellsActive marks.now result }
{
    some_set(marks)
}

/// Whether one of them is set.
fn some_set(marks: &[bool]) -> bool
    ensures { result ≡ list_any (λ mark. mark) marks.now }
{
    marks.iter().any(|mark| *mark)
}

/// Makes the mark of one block again, where it had one or something came to it.
fn mark_one<P: Program>(
    inboxes: &Inboxes<'_, P>,
    phase: u64,
    states: &[VState],
    block: u32,
    mark: &mut bool,
)
    requires states { length states.now ≡ inboxes.now.map.n }
    requires block { block < block_total inboxes.now.map }
    ensures { IsMadeAgain (P.rules inboxes.now.program) inboxes.now phase states.now block mark.old mark.new }
{
    if *mark || inboxes.has_mail(block) {
        *mark = has_awake(inboxes.program(), inboxes.map(), phase, states, block);
    }
}

/// Whether a vertex of the block is awake.
fn has_awake<P: Program>(
    program: &P,
    map: PartMap,
    phase: u64,
    states: &[VState],
    block: u32,
) -> bool
    requires states { length states.now ≡ map.n }
    requires block { block < block_total map }
    ensures { IsMark (P.rules program.now) map phase states.now block result }
{
    let first = block as usize * map.block_size() as usize;
    let end = states.len().min(first + map.block_size() as usize);
    is_some_active(program, phase, &states[first..end])
}
