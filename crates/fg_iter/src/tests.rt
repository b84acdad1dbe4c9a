//! Whole runs of levels on a ring with chords, by one worker and by several, beside the plain run.

ghost use Rattle.std.specs.Prelude.{◌≡◌, ℕ, ◌+◌, ◌-◌, ◌<◌, ◌≤◌, ◌^◌, ◌∷◌, [], true, All, IfOk, OnOk, length};
ghost use Rattle.std.specs.List.{range_with_len};
ghost use Rattle.fg_base.specs.declared.limits.TheConstants.{MAX_SHIFT, MAX_VERTICES, MAX_WORKERS};
ghost use Rattle.fg_batch.specs.Outbox.{IsForItsPart};
ghost use Rattle.fg_iter.specs.Crew.{IsSettled};
ghost use Rattle.fg_iter.specs.Ring.{AreBatchesOf, AreOfRuns, IsMailTo, opened, spent_by};
ghost use Rattle.fg_task.specs.Block.{awake_of};
ghost use Rattle.fg_walks.specs.Bfs.{bfs};

use crate::{Bounds, CrewRun, RunsOn, Settles, run_by_crew};
use fg_base::limits::{MAX_SHIFT, MAX_WORKERS};
use fg_base::{BadEdge, Count, Dir, Entry, Items, Memory, Tally, VState};
use fg_batch::{Batch, Mails};
use fg_crew::Slot;
use fg_model::{End, Graph, Mail, Program, RunFault, VecWatch, plain_run};
use fg_part::PartMap;
use fg_task::{BlockResult, WorkFault};
use fg_walks::Bfs;
use std::alloc::{AllocError, Global};
use std::mem;
use std::sync::Wait;
use std::test::Fail;
use std::thread::Threads;

const VERTICES: u32 = 29;

const PROGRAM: Bfs = Bfs { source: 3 };

/// Runs blocks of the ring. One has a bad edge besides, and one fails, if it is told to.
#[derive(Drop)]
struct Ring {
    n: u32,
    bad: Option<u32>,
    failing: Option<u32>,
}

/// The out-entries of a vertex.
fn entries_of(n: u32, v: u32) -> (Entry, Entry)
    requires { (v < n) × (n ≤ MAX_VERTICES) }
    ensures { (result.0.target < n) × (result.1.target < n) }
{
    let next = Entry {
        target: (v + 1) % n,
        weight: 1,
    };
    let far = Entry {
        target: (3 * v + 1) % n,
        weight: 1,
    };
    (next, far)
}

impl RunsOn<Bfs, Count> for Ring {
    ghost use Rattle.std.specs.Prelude.{◌≡◌, Some, refl};
    ghost use Rattle.fg_iter.specs.Ring.{ring_lists, spent_by};

    type Fault = u32;

    ghost lists = { λ ring. ring_lists ring.n };

    ghost allows = { λ _ _ _. Unit {0} };

    ghost lends = { λ _ _ _. Unit {0} };

    ghost spent = { λ count. spent_by (⟦<Count as Tally>⟧.runs count) (⟦<Count as Tally>⟧.entries count) };

    ghost caused = { λ ring block. ring.failing ≡ Some block };

    fn run_on<R: Wait>(
        &self,
        _rt: &R,
        alloc: Global,
        program: &Bfs,
        map: PartMap,
        phase: u64,
        states: &[VState],
        block: u32,
        kept: &mut Count,
    ) -> Result<BlockResult, WorkFault<u32>> {
        if self.failing == Some(block) {
            return Err(WorkFault::Fault(block));
        }
        let size = map.block_size();
        let first = block * size;
        let end = map.n.min(first + size);
        let sent = run_vertices(alloc, program, phase, states, first, end)?;
        let batches = batches_of(alloc, map, block, &sent.mails)?;
        let active = sent.count.runs();
        kept.join(sent.count);
        let bad = if self.bad == Some(block) && 0 < active {
            Some(bad_edge(block))
        } else {
            None
        };
        Ok(BlockResult {
            block,
            active: active as u32,
            sent: 2 * active,
            bad,
            batches,
        })
    }

    ghost none_visited = { λ _ _. refl };
}

impl Settles<Bfs, Count, Count> for Ring {
    fn settle(&self, kept: &mut Count, tally: &mut Count) {
        tally.join(mem::replace(kept, Count::new()));
    }
}

/// What vertices of a block sent, and the count of their runs.
#[derive(Drop)]
struct Sent {
    mails: Vec<Mail>,
    count: Count,
}

/// Runs the vertices that are awake.
fn run_vertices(
    alloc: Global,
    program: &Bfs,
    phase: u64,
    states: &[VState],
    first: u32,
    end: u32,
) -> Result<Sent, Memory>
    requires vertices { (first ≤ end) × (end ≤ length states.now) × (length states.now ≤ MAX_VERTICES) }
    ensures sent { IfOk result (λ sent. AreOfRuns (length states.now) sent.mails.items
        (⟦<Count as Tally>⟧.runs sent.count) (⟦<Count as Tally>⟧.entries sent.count)) }
    ensures active { IfOk result (λ sent. ⟦<Count as Tally>⟧.runs sent.count
        ≡ length (awake_of (bfs program.now.source) phase states.now (range_with_len first (end - first)))) }
{
    let mut sent = Sent {
        mails: Vec::new(alloc),
        count: Count::new(),
    };
    for v in first..end {
        let state = states[v as usize];
        if !program.wake(phase, state) {
            continue;
        }
        run_one(program, phase, v, state, states.len() as u32, &mut sent)?;
    }
    Ok(sent)
}

/// Runs a vertex.
fn run_one(
    program: &Bfs,
    phase: u64,
    v: u32,
    state: VState,
    n: u32,
    sent: &mut Sent,
) -> Result<(), Memory>
    requires awake { (bfs program.now.source).wake phase state ≡ true }
    requires vertex { (v < n) × (n ≤ MAX_VERTICES) }
    requires sent { AreOfRuns n sent.old.mails.items (⟦<Count as Tally>⟧.runs sent.old.count) (⟦<Count as Tally>⟧.entries sent.old.count) }
    requires few { ⟦<Count as Tally>⟧.runs sent.old.count < MAX_VERTICES }
    ensures sent { OnOk result (AreOfRuns n sent.new.mails.items
        (⟦<Count as Tally>⟧.runs sent.new.count) (⟦<Count as Tally>⟧.entries sent.new.count)) }
    ensures runs { OnOk result (⟦<Count as Tally>⟧.runs sent.new.count ≡ ⟦<Count as Tally>⟧.runs sent.old.count + 1) }
{
    let (_state, carry) = program.begin(phase, v, state, &mut sent.count);
    let (next, far) = entries_of(n, v);
    send(program, carry, next, sent)?;
    send(program, carry, far, sent)
}

/// Sends a message along an entry.
fn send(program: &Bfs, carry: u64, entry: Entry, sent: &mut Sent) -> Result<(), Memory>
    requires room { ⟦<Count as Tally>⟧.entries sent.old.count + 1 < 2 ^ 64 }
    ensures runs { ⟦<Count as Tally>⟧.runs sent.new.count ≡ ⟦<Count as Tally>⟧.runs sent.old.count }
    ensures entries { ⟦<Count as Tally>⟧.entries sent.new.count ≡ ⟦<Count as Tally>⟧.entries sent.old.count + 1 }
    ensures count { OnOk result (length sent.new.mails.items ≡ length sent.old.mails.items + 1) }
    ensures fit { OnOk result ((n : ℕ) → entry.target < n → All (IsMailTo n) sent.old.mails.items → All (IsMailTo n) sent.new.mails.items) }
{
    let message = program.edge(carry, Dir::Out, entry, &mut sent.count);
    sent.mails.push(Mail {
        target: entry.target,
        message,
    })?;
    Ok(())
}

/// The messages of a block, each in a batch of its own.
fn batches_of(alloc: Global, map: PartMap, block: u32, mails: &[Mail]) -> Result<Vec<Batch>, Memory>
    requires { All (IsMailTo map.n) mails.now }
    ensures { IfOk result (λ batches. AreBatchesOf map mails.now batches.items) }
{
    let mut batches = Vec::new(alloc);
    for mail in mails {
        batches.push(batch_of(alloc, map, block, *mail)?)?;
    }
    Ok(batches)
}

/// A message in a batch.
fn batch_of(alloc: Global, map: PartMap, block: u32, mail: Mail) -> Result<Batch, Memory>
    requires { mail.target < map.n }
    ensures part { IfOk result (IsForItsPart map) }
    ensures mail { IfOk result (λ batch. batch.mails.items ≡ mail ∷ []) }
{
    let mut mails = Mails::new(alloc);
    mails.reserve(1)?;
    mails.push(mail);
    Ok(Batch {
        block,
        part: map.part_of(mail.target),
        lane: 0,
        mails,
    })
}

/// The bad edge of a block.
fn bad_edge(block: u32) -> BadEdge {
    BadEdge {
        v: block,
        dir: Dir::Out,
        place: 0,
        found: 99,
    }
}

/// The ring as a graph.
fn ring_graph(alloc: Global) -> Result<Graph, Memory> {
    let mut outs = Vec::new(alloc);
    let mut ins = Vec::new(alloc);
    for v in 0..VERTICES {
        let (next, far) = entries_of(VERTICES, v);
        let mut row = Items::new(alloc);
        row.push(next)?;
        row.push(far)?;
        outs.push(row)?;
        ins.push(Items::new(alloc))?;
    }
    Ok(Graph {
        n: VERTICES,
        weighted: false,
        outs: Items::from_vec(outs),
        ins: Items::from_vec(ins),
    })
}

/// The end of the plain run, and how often it counted.
#[derive(Drop)]
struct Plain {
    end: End,
    runs: u64,
    entries: u64,
}

/// The plain run with at most so many iterations.
fn plain_end(alloc: Global, max: u32) -> Result<Plain, Fail> {
    let graph = ring_graph(alloc)?;
    let mut watch = VecWatch::new(alloc, Vec::new(alloc));
    let mut tally = Count::new();
    if !graph.is_within_limits() {
        return Err(Fail::new("the graph is too large"));
    }
    match plain_run(alloc, &graph, &PROGRAM, max, &mut watch, &mut tally) {
        Ok(end) => Ok(Plain {
            end,
            runs: tally.runs(),
            entries: tally.entries(),
        }),
        Err(_) => Err(Fail::new("the plain run has no end")),
    }
}

/// The opening states.
fn opening(alloc: Global) -> Result<Vec<VState>, AllocError>
    ensures { IfOk result (λ states. states.items ≡ opened 3 29) }
{
    let mut states = Vec::new(alloc);
    for v in 0..VERTICES {
        states.push(PROGRAM.init(v, 2, 0))?;
    }
    Ok(states)
}

/// The slots of so many workers.
fn new_slots(alloc: Global, workers: u32) -> Result<Vec<Slot<Count, u32>>, AllocError>
    ensures count { IfOk result (λ slots. length slots.items ≡ workers) }
    ensures settled { IfOk result (λ slots.
        All (λ slot. IsSettled (spent_by (⟦<Count as Tally>⟧.runs slot.kept) (⟦<Count as Tally>⟧.entries slot.kept))) slots.items) }
{
    let mut slots = Vec::with_capacity(alloc, workers as usize)?;
    for _worker in 0..workers {
        slots.push_reserved(Slot::new(Count::new()));
    }
    Ok(slots)
}

/// How a run by a crew is to be done.
#[derive(Clone, Copy)]
struct Setting {
    workers: u32,
    shift: u32,
    bounds: Bounds,
    max: u32,
    bad: Option<u32>,
    failing: Option<u32>,
}

/// What came of it: the answer, how many slots there were, the fault, and what was counted.
#[derive(Drop)]
struct Came {
    answer: Result<End, RunFault>,
    slots: usize,
    fault: Option<u32>,
    runs: u64,
    entries: u64,
}

/// Runs it.
fn ran<R: Threads + Wait + Sync>(rt: &R, alloc: Global, setting: Setting) -> Result<Came, Memory>
    requires workers { (0 < setting.workers) × (setting.workers ≤ MAX_WORKERS) }
    requires shift { setting.shift ≤ MAX_SHIFT }
{
    let map = PartMap::new(VERTICES, setting.shift, 2);
    let ring = Ring {
        n: VERTICES,
        bad: setting.bad,
        failing: setting.failing,
    };
    let size = map.block_size();
    let weights = vec![in alloc; 2 * u64::from(size); VERTICES.div_ceil(size) as usize]?;
    let mut watch = VecWatch::new(alloc, Vec::new(alloc));
    let mut tally = Count::new();
    let states = opening(alloc)?;
    let slots = new_slots(alloc, setting.workers)?;
    let done = run_by_crew(
        rt,
        alloc,
        &ring,
        &PROGRAM,
        map,
        &weights,
        setting.bounds,
        states,
        slots,
        setting.max,
        &mut watch,
        &mut tally,
    );
    Ok(counted(done, &tally))
}

/// What came of a run, by the tally that it counted in.
fn counted(done: CrewRun<Count, u32>, tally: &Count) -> Came {
    let CrewRun {
        answer,
        mut slots,
        fault,
    } = done;
    let count = slots.len();
    while let Some(slot) = slots.pop() {
        let _kept = slot.into_kept();
    }
    slots.destroy_empty();
    Came {
        answer,
        slots: count,
        fault,
        runs: tally.runs(),
        entries: tally.entries(),
    }
}

/// Runs it, where there is such a setting.
fn came_of<R: Threads + Wait + Sync>(
    rt: &R,
    alloc: Global,
    setting: Setting,
) -> Result<Came, Fail> {
    if setting.workers == 0 || MAX_WORKERS < setting.workers || MAX_SHIFT < setting.shift {
        return Err(Fail::new("there is no such setting"));
    }
    Ok(ran(rt, alloc, setting)?)
}

/// Whether it ended as the plain run.
fn ended_as(came: &Came, plain: &Plain, workers: u32) -> bool {
    let Ok(end) = &came.answer else {
        return false;
    };
    end.states.as_slice() == plain.end.states.as_slice()
        && end.settled == plain.end.settled
        && end.iterations == plain.end.iterations
        && end.phase == plain.end.phase
        && came.slots == workers as usize
        && came.runs == plain.runs
        && came.entries == plain.entries
}

/// Whether runs with blocks of several sizes, by all workers and by the first alone, end as the plain run.
fn is_plain<R: Threads + Wait + Sync>(
    rt: &R,
    alloc: Global,
    plain: &Plain,
    setting: Setting,
) -> Result<bool, Fail> {
    for (shift, few) in [(0, 0), (0, 8), (2, 0), (5, 0)] {
        let wave = setting.bounds.wave;
        let bounds = Bounds { wave, few };
        let cut = Setting {
            shift,
            bounds,
            ..setting
        };
        let came = came_of(rt, alloc, cut)?;
        if !ended_as(&came, plain, setting.workers) {
            return Ok(false);
        }
    }
    Ok(true)
}

const SETTING: Setting = Setting {
    workers: 4,
    shift: 0,
    bounds: Bounds { wave: 7, few: 0 },
    max: 100,
    bad: None,
    failing: None,
};

#[test]
fn a_run_by_a_crew_is_the_plain_run(rt: HostRuntime) -> Result<(), Fail> {
    let alloc = rt.alloc();
    for max in 0..10 {
        let plain = plain_end(alloc, max)?;
        for workers in [1, 2, 8] {
            for wave in [1, 7, 100] {
                let bounds = Bounds { wave, few: 0 };
                let setting = Setting {
                    workers,
                    bounds,
                    max,
                    ..SETTING
                };
                assert!(rt; is_plain(&rt, alloc, &plain, setting)?);
            }
        }
    }
    Ok(())
}

#[test]
fn a_bad_edge_ends_the_run(rt: HostRuntime) -> Result<(), Fail> {
    let setting = Setting {
        bad: Some(11),
        ..SETTING
    };
    let came = came_of(&rt, rt.alloc(), setting)?;
    let Err(RunFault::BadEdge(bad)) = came.answer else {
        panic!(rt; "the run goes past a bad edge");
    };
    assert_eq!(rt; bad, bad_edge(11));
    assert_eq!(rt; (came.slots, came.fault), (4, None));
    Ok(())
}

#[test]
fn a_fault_ends_the_run(rt: HostRuntime) -> Result<(), Fail> {
    let setting = Setting {
        failing: Some(11),
        ..SETTING
    };
    let came = came_of(&rt, rt.alloc(), setting)?;
    assert!(rt; matches!(&came.answer, Err(RunFault::Drive(0))));
    assert_eq!(rt; (came.slots, came.fault), (4, Some(11)));
    Ok(())
}
