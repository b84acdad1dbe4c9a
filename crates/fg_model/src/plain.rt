//! The run in memory, which everything faster is measured against.

ghost use Rattle.std.specs.Prelude.{◌≡◌, ◌+◌, ◌<◌, ◌≤◌, ◌^◌, ℕ, true, None, Some, find, length, map, slice_set, IfErr, IfOk, OnOk, All, vec_len};
ghost use Rattle.fg_model.specs.Engine.{HasTallied, MatchIterFault, RoseUpTo, ShownAs, TallyRoseWith, TellsEnd, TellsFaults, Went};
ghost use Rattle.fg_model.specs.Graph.{IsWithinLimits};
ghost use Rattle.fg_model.specs.Iteration.{AreStates, IsIteration, begun_at, first_bad, folded, is_bad, state_at, states_after_runs};
ghost use Rattle.fg_model.specs.Plain.{all_active, edges_over, messages_over, sent_from};
ghost use Rattle.fg_model.specs.Run.{begun_of, opening_states, run};
ghost use Rattle.fg_model.specs.Watch.{Grew};
ghost use Rattle.fg_model.specs.VertexRun.{edges_from, edges_of, message_along};

use crate::engine::Engine;
use crate::graph::Graph;
use crate::iteration::{Counts, IterFault, Iteration};
use crate::program::Program;
use crate::run::{End, RunFault, run_engine};
use crate::stand::is_some_active;
use crate::watch::Watch;
use fg_base::{BadEdge, Dir, Entry, Items, Memory, Need, Tally, VState};
use std::alloc::Global;
use std::mem;

/// An active vertex whose run began, and the carry that its messages are made from.
#[derive(Clone, Copy)]
struct Active {
    v: u32,
    carry: u64,
}

/// The states after all runs, and the vertices that ran.
#[derive(Drop)]
struct Runs {
    states: Vec<VState>,
    active: Vec<Active>,
}

/// Begins the run of one active vertex: its own new state, and the carry that it sends with.
fn begin_one<P: Program, T: Tally>(
    program: &P,
    phase: u64,
    v: u32,
    s: VState,
    tally: &mut T,
) -> (VState, Active)
    requires awake { (P.rules program.now).wake phase s ≡ true }
    requires room { T.runs tally.old + 1 < 2 ^ 64 }
    ensures state { result.0 ≡ ((P.rules program.now).begin phase v s).0 }
    ensures active { result.1 ≡ record { v = v; carry = ((P.rules program.now).begin phase v s).1 } }
    ensures runs { T.runs tally.new ≡ T.runs tally.old + 1 }
    ensures entries { T.entries tally.new ≡ T.entries tally.old }
{
    let (state, carry) = program.begin(phase, v, s, tally);
    (state, Active { v, carry })
}

/// Begins the run of each active vertex, on the states as they stand.
fn begin_runs<P: Program, T: Tally>(
    alloc: Global,
    program: &P,
    phase: u64,
    states: &[VState],
    tally: &mut T,
) -> Result<Runs, Memory>
    requires few { length states.now ≤ 2 ^ 24 }
    requires room { T.runs tally.old + length states.now < 2 ^ 64 }
    ensures states { IfOk result (λ runs. runs.states.items ≡ states_after_runs (P.rules program.now) phase states.now) }
    ensures active { IfOk result (λ runs. runs.active.items ≡ all_active (P.rules program.now) phase states.now) }
    ensures runs { IfOk result (λ runs. T.runs tally.new ≡ T.runs tally.old + vec_len runs.active) }
    ensures few_runs { RoseUpTo (length (all_active (P.rules program.now) phase states.now)) (T.runs tally.old) (T.runs tally.new) }
    ensures entries { T.entries tally.new ≡ T.entries tally.old }
{
    let mut next = Vec::with_capacity(alloc, states.len())?;
    let mut active = Vec::new(alloc);
    for v in 0..states.len() {
        let s = states[v];
        if !program.wake(phase, s) {
            next.push(s)?;
            continue;
        }
        let (state, begun) = begin_one(program, phase, v as u32, s, tally);
        next.push(state)?;
        active.push(begun)?;
    }
    Ok(Runs {
        states: next,
        active,
    })
}

/// Folds the message along one entry into its target.
fn send_one<P: Program, T: Tally>(
    program: &P,
    from: Active,
    dir: Dir,
    entry: Entry,
    states: &mut [VState],
    tally: &mut T,
)
    requires vertex { entry.target < length states.old }
    requires room { T.entries tally.old + 1 < 2 ^ 64 }
    ensures states { states.new ≡ slice_set states.old entry.target
        ((P.rules program.now).receive (state_at states.old entry.target) ((P.rules program.now).edge from.carry dir entry)) }
    ensures runs { T.runs tally.new ≡ T.runs tally.old }
    ensures entries { T.entries tally.new ≡ T.entries tally.old + 1 }
{
    let target = entry.target as usize;
    let m = program.edge(from.carry, dir, entry, tally);
    states[target] = program.receive(states[target], m);
}

/// Folds in a message along each entry of one list of an active vertex, up to the first bad edge.
fn send_along<P: Program, T: Tally>(
    program: &P,
    from: Active,
    dir: Dir,
    entries: &[Entry],
    states: &mut [VState],
    tally: &mut T,
) -> Result<(), BadEdge>
    requires few { length entries.now ≤ 2 ^ 26 }
    requires room { T.entries tally.old + length entries.now < 2 ^ 64 }
    ensures runs { T.runs tally.new ≡ T.runs tally.old }
    ensures ok_sound { OnOk result (find (is_bad (length states.old)) (edges_from from.v dir 0 entries.now) ≡ None) }
    ensures few_entries { RoseUpTo (length entries.now) (T.entries tally.old) (T.entries tally.new) }
    ensures ok_states { OnOk result (states.new ≡
        folded (P.rules program.now) (map (message_along (P.rules program.now) from.carry dir) entries.now) states.old) }
    ensures ok_entries { OnOk result (T.entries tally.new ≡ T.entries tally.old + length entries.now) }
    ensures err { IfErr result (λ bad. find (is_bad (length states.old)) (edges_from from.v dir 0 entries.now) ≡ Some bad) }
{
    for (place, entry) in entries.iter().enumerate() {
        if entry.target as usize >= states.len() {
            return Err(BadEdge {
                v: from.v,
                dir,
                place: place as u32,
                found: entry.target,
            });
        }
        send_one(program, from, dir, *entry, states, tally);
    }
    Ok(())
}

/// The same for all needed lists of an active vertex; the answer is how many messages it sent.
fn send<P: Program, T: Tally>(
    program: &P,
    need: Need,
    graph: &Graph,
    from: Active,
    states: &mut [VState],
    tally: &mut T,
) -> Result<u64, BadEdge>
    requires within { IsWithinLimits graph.now }
    requires vertex { from.v < graph.now.n }
    requires states { length states.old ≡ graph.now.n }
    requires room { T.entries tally.old + length (edges_of need graph.now from.v) < 2 ^ 64 }
    ensures runs { T.runs tally.new ≡ T.runs tally.old }
    ensures ok_sound { OnOk result (find (is_bad graph.now.n) (edges_of need graph.now from.v) ≡ None) }
    ensures few_entries { RoseUpTo (length (edges_of need graph.now from.v)) (T.entries tally.old) (T.entries tally.new) }
    ensures ok_states { OnOk result (states.new ≡
        folded (P.rules program.now) (sent_from (P.rules program.now) need graph.now from) states.old) }
    ensures ok_count { IfOk result (λ count. count ≡ length (edges_of need graph.now from.v)) }
    ensures ok_entries { OnOk result (T.entries tally.new ≡ T.entries tally.old + length (edges_of need graph.now from.v)) }
    ensures err { IfErr result (λ bad. find (is_bad graph.now.n) (edges_of need graph.now from.v) ≡ Some bad) }
{
    let outs = graph.outs.as_slice()[from.v as usize].as_slice();
    let ins = graph.ins.as_slice()[from.v as usize].as_slice();
    match need {
        Need::Out => {
            send_along(program, from, Dir::Out, outs, states, tally)?;
            Ok(outs.len() as u64)
        }
        Need::In => {
            send_along(program, from, Dir::In, ins, states, tally)?;
            Ok(ins.len() as u64)
        }
        Need::Both => {
            send_along(program, from, Dir::Out, outs, states, tally)?;
            send_along(program, from, Dir::In, ins, states, tally)?;
            Ok(outs.len() as u64 + ins.len() as u64)
        }
    }
}

/// Folds in all messages of these vertices; the answer is how many there were.
fn deliver<P: Program, T: Tally>(
    program: &P,
    need: Need,
    graph: &Graph,
    active: &[Active],
    states: &mut [VState],
    tally: &mut T,
) -> Result<u64, BadEdge>
    requires within { IsWithinLimits graph.now }
    requires vertices { All (λ from. from.v < graph.now.n) active.now }
    requires states { length states.old ≡ graph.now.n }
    requires few { length (edges_over need graph.now active.now) ≤ 2 ^ 27 }
    requires room { T.entries tally.old + 2 ^ 27 < 2 ^ 64 }
    ensures runs { T.runs tally.new ≡ T.runs tally.old }
    ensures ok_sound { OnOk result (find (is_bad graph.now.n) (edges_over need graph.now active.now) ≡ None) }
    ensures few_entries { RoseUpTo (length (edges_over need graph.now active.now)) (T.entries tally.old) (T.entries tally.new) }
    ensures ok_states { OnOk result (states.new ≡
        folded (P.rules program.now) (messages_over (P.rules program.now) need graph.now active.now) states.old) }
    ensures ok_count { IfOk result (λ count. count ≡ length (edges_over need graph.now active.now)) }
    ensures ok_entries { OnOk result (T.entries tally.new ≡ T.entries tally.old + length (edges_over need graph.now active.now)) }
    ensures err { IfErr result (λ bad. find (is_bad graph.now.n) (edges_over need graph.now active.now) ≡ Some bad) }
{
    let mut messages = 0;
    for from in active {
        messages += send(program, need, graph, *from, states, tally)?;
    }
    Ok(messages)
}

/// One iteration on a graph in memory. It keeps the carry of each active vertex, and walks its lists again once all
/// runs began: a vector of all messages would take 16 bytes for each.
fn iterate_in_memory<P: Program, T: Tally>(
    alloc: Global,
    program: &P,
    graph: &Graph,
    phase: u64,
    states: &[VState],
    tally: &mut T,
) -> Result<Iteration, IterFault>
    requires within { IsWithinLimits graph.now }
    requires are_states { AreStates graph.now.n states.now }
    requires room_of_runs { T.runs tally.old + 2 ^ 24 < 2 ^ 64 }
    requires room_of_entries { T.entries tally.old + 2 ^ 27 < 2 ^ 64 }
    ensures ok { IfOk result (λ iteration. IsIteration (P.rules program.now) graph.now phase states.now iteration) }
    ensures ok_states { IfOk result (λ iteration. AreStates graph.now.n iteration.states) }
    ensures ok_active { IfOk result (λ iteration. iteration.active ≤ 2 ^ 24) }
    ensures ok_messages { IfOk result (λ iteration. iteration.messages ≤ 2 ^ 27) }
    ensures ok_runs { IfOk result (λ iteration. T.runs tally.new ≡ T.runs tally.old + iteration.active) }
    ensures ok_entries { IfOk result (λ iteration. T.entries tally.new ≡ T.entries tally.old + iteration.messages) }
    ensures few_runs { RoseUpTo (length (begun_at (P.rules program.now) graph.now phase states.now).active)
        (T.runs tally.old) (T.runs tally.new) }
    ensures few_entries { RoseUpTo (begun_at (P.rules program.now) graph.now phase states.now).messages
        (T.entries tally.old) (T.entries tally.new) }
    ensures bad_edge { IfErr result (λ fault. MatchIterFault fault (Unit {0}) (λ drive. ⊥)
        (λ bad. first_bad (P.rules program.now) graph.now phase states.now ≡ Some bad)) }
{
    let Runs {
        states: mut next,
        active,
    } = begin_runs(alloc, program, phase, states, tally)?;
    let need = program.need();
    let messages = deliver(
        program,
        need,
        graph,
        active.as_slice(),
        next.as_mut_slice(),
        tally,
    )?;
    Ok(Iteration {
        states: Items::from_vec(next),
        active: active.len() as u64,
        messages,
    })
}

/// An engine over a graph in memory. It reads nothing, so no drive can fail, and it knows its graph.
#[derive(Drop)]
struct PlainEngine<'a> {
    graph: &'a Graph,
    states: Items<VState>,
}

impl<P: Program, T: Tally> Engine<P, T> for PlainEngine<'_> {
    ghost graph = { λ engine. engine.graph.now };

    ghost knows = { λ engine. true };

    ghost states_of = { λ engine. engine.states };

    ghost ready = { λ engine rules. IsWithinLimits engine.graph.now };

    ghost allows = { λ engine rules begun. Unit {0} };

    ghost kept = { λ old new. Unit {0} };

    ghost failed = { λ old new drive. ⊥ };

    ghost did = { λ old new rules begun. Unit {0} };

    ghost kept_none = { λ engine. tt };

    ghost kept_more = { λ first middle last kept more. tt };

    ghost failed_more = { λ first middle last drive kept failed. failed };

    ghost did_none = { λ engine rules. tt };

    ghost did_more = { λ first middle last rules begun next did more. tt };

    fn states(&self) -> &[VState] {
        self.states.as_slice()
    }

    fn give_states(&mut self, alloc: Global) -> Items<VState> {
        mem::replace(&mut self.states, Items::new(alloc))
    }

    fn some_active(&mut self, program: &P, phase: u64) -> bool {
        is_some_active(program, phase, self.states.as_slice())
    }

    fn iterate(
        &mut self,
        alloc: Global,
        program: &P,
        phase: u64,
        tally: &mut T,
    ) -> Result<Counts, IterFault> {
        let Iteration {
            states,
            active,
            messages,
        } = iterate_in_memory(
            alloc,
            program,
            self.graph,
            phase,
            self.states.as_slice(),
            tally,
        )?;
        self.states = states;
        Ok(Counts { active, messages })
    }
}

/// The opening state of each vertex, from its two degrees.
fn open_states<P: Program>(alloc: Global, program: &P, graph: &Graph) -> Result<Vec<VState>, Memory>
    requires { IsWithinLimits graph.now }
    ensures { IfOk result (λ states. states.items ≡ opening_states (P.rules program.now) graph.now) }
{
    let mut states = Vec::with_capacity(alloc, graph.n as usize)?;
    for v in 0..graph.n {
        let outs = graph.outs.as_slice()[v as usize].len() as u32;
        let ins = graph.ins.as_slice()[v as usize].len() as u32;
        states.push(program.init(v, outs, ins))?;
    }
    Ok(states)
}

/// The run of a program on a graph in memory, with at most `max` iterations. The watch is shown each finished iteration
/// in order; a refused one isn't shown. The tally rises by one run for each active vertex and by one entry for each of
/// their needed entries. It takes O(n + entries) per iteration, and five vectors in all that stand at once.
///
/// It answers `BadEdge` exactly where the run of the definition ends so and no note failed, `Watch` exactly where the
/// watch's count rose in this call, and `Drive` never.
pub fn plain_run<P: Program, W: Watch, T: Tally>(
    alloc: Global,
    graph: &Graph,
    program: &P,
    max: u32,
    watch: &mut W,
    tally: &mut T,
) -> Result<End, RunFault>
    requires within { IsWithinLimits graph.now }
    requires room_of_runs { T.runs tally.old + 2 ^ 57 ≤ 2 ^ 64 }
    requires room_of_entries { T.entries tally.old + 2 ^ 60 ≤ 2 ^ 64 }
    ensures went { Went (λ begun. Unit {0}) (TallyRoseWith T.runs T.entries tally.old tally.new) true result
        (begun_of (run (P.rules program.now) graph.now max)) }
    ensures same_told { W.told watch.new ≡ W.told watch.old }
    ensures same_borrows { W.same_borrows watch.old watch.new }
    ensures grew { Grew (W.notes watch.old) (W.notes watch.new) }
    // of each answer: whether the watch's count rose, whether the run ends so, and what was shown
    ensures faults { TellsFaults result (Unit {0}) (λ drive. ⊥) (W.faults watch.old) (W.faults watch.new) }
    ensures answer { TellsEnd result (run (P.rules program.now) graph.now max) }
    ensures shown { ShownAs result (W.told watch.old) (run (P.rules program.now) graph.now max).finished
        (W.notes watch.old) (W.notes watch.new) }
    // of a run with an end
    ensures ok_states { IfOk result (λ end. AreStates graph.now.n end.states) }
    ensures ok_tally { OnOk result (HasTallied T.runs T.entries tally.old tally.new
        (run (P.rules program.now) graph.now max).finished) }
{
    let states = open_states(alloc, program, graph)?;
    let mut engine = PlainEngine {
        graph,
        states: Items::from_vec(states),
    };
    run_engine(alloc, &mut engine, program, max, watch, tally)
}
