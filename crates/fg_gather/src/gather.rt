//! The states after an iteration.

ghost use Rattle.std.specs.Prelude.{◌≡◌, ℕ, ◌+◌, ◌%◌, ◌^◌, ◌<◌, ◌≤◌, Bool, length, if◌then◌else◌};
ghost use Rattle.fg_gather.specs.Gather.{RunIsGathered};
ghost use Rattle.fg_model.specs.Iteration.{own_state, state_at};
ghost use Rattle.fg_part.specs.PartMap.{block_size, block_total};

use crate::inboxes::Inboxes;
use fg_base::{Count, VState};
use fg_model::Program;
use std::thread;
use std::thread::Threads;

/// Gives each vertex its new state, in threads.
pub(crate) fn gather_all<P: Program + Sync, R: Threads + Sync>(
    rt: &R,
    inboxes: &Inboxes<'_, P>,
    phase: u64,
    marks: &[bool],
    threads: usize,
    states: &mut [VState],
)
    requires threads { 0 < threads }
    requires states { length states.old ≡ inboxes.now.map.n }
    requires marks { length marks.now ≡ block_total inboxes.now.map }
    ensures { RunIsGathered (P.rules inboxes.now.program) inboxes.now phase marks.now 0 states.old states.new }
{
    let size = inboxes.map().block_size() as usize;
    let chunk = marks.len().div_ceil(threads).max(1) * size;
    thread::for_each_chunk_mut(
        rt,
        states,
        chunk,
        &|first: usize, run: &mut [VState]|
            requires { (first % block_size inboxes.now.map ≡ 0) × (first + length run.now ≤ inboxes.now.map.n)
                × (length marks.now ≡ block_total inboxes.now.map) }
            ensures { RunIsGathered (P.rules inboxes.entry.now.program) inboxes.entry.now phase marks.entry.now first run.entry.now run.exit.now }
        { gather_run(inboxes, phase, marks, first, run) },
    );
}

/// Gives the vertices from `first` on, which begins a block, their new states.
fn gather_run<P: Program>(
    inboxes: &Inboxes<'_, P>,
    phase: u64,
    marks: &[bool],
    first: usize,
    states: &mut [VState],
)
    requires begins { first % block_size inboxes.now.map ≡ 0 }
    requires within { first + length states.old ≤ inboxes.now.map.n }
    requires marks { length marks.now ≡ block_total inboxes.now.map }
    ensures { RunIsGathered (P.rules inboxes.now.program) inboxes.now phase marks.now first states.old states.new }
{
    let size = inboxes.map().block_size() as usize;
    let mut at = 0;
    while at < states.len() {
        let end = states.len().min(at + size);
        gather_block(
            inboxes,
            phase,
            marks,
            (first + at) as u32,
            &mut states[at..end],
        );
        at = end;
    }
}

/// Gives the vertices of one block, of which `first` is the first, their new states.
fn gather_block<P: Program>(
    inboxes: &Inboxes<'_, P>,
    phase: u64,
    marks: &[bool],
    first: u32,
    states: &mut [VState],
)
    requires begins { first % block_size inboxes.now.map ≡ 0 }
    requires some { 0 < length states.old }
    requires count { length states.old ≤ block_size inboxes.now.map }
    requires within { first + length states.old ≤ inboxes.now.map.n }
    requires marks { length marks.now ≡ block_total inboxes.now.map }
    ensures { RunIsGathered (P.rules inboxes.now.program) inboxes.now phase marks.now first states.old states.new }
{
    let block = inboxes.map().block_of(first);
    run_again(
        inboxes.program(),
        phase,
        marks[block as usize],
        first,
        states,
    );
    inboxes.fold_block(block, states);
}

/// In a block with a mark, gives each vertex that is awake the state of its run. The run was counted when it sent.
fn run_again<P: Program>(program: &P, phase: u64, mark: bool, first: u32, states: &mut [VState])
    requires { first + length states.old ≤ 2 ^ 24 }
    ensures count { length states.new ≡ length states.old }
    ensures each { (k : ℕ) → k < length states.old → state_at states.new k
        ≡ (if mark then own_state (P.rules program.now) phase (first + k) (state_at states.old k) else state_at states.old k) }
{
    if mark {
        run_all(program, phase, first, states);
    }
}

/// Gives each vertex from `first` on that is awake the state of its run.
fn run_all<P: Program>(program: &P, phase: u64, first: u32, states: &mut [VState])
    requires { first + length states.old ≤ 2 ^ 24 }
    ensures count { length states.new ≡ length states.old }
    ensures each { (k : ℕ) → k < length states.old
        → state_at states.new k ≡ own_state (P.rules program.now) phase (first + k) (state_at states.old k) }
{
    for at in 0..states.len() {
        states[at] = run_one(program, phase, first + at as u32, states[at]);
    }
}

/// The state of the run of a vertex that is awake, and of any other its own.
fn run_one<P: Program>(program: &P, phase: u64, v: u32, s: VState) -> VState
    ensures { result ≡ own_state (P.rules program.now) phase v s }
{
    if !program.wake(phase, s) {
        return s;
    }
    let (state, _) = program.begin(phase, v, s, &mut Count::new());
    state
}
