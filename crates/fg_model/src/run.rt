//! A whole run, whatever runs its iterations.

ghost use Rattle.std.specs.Prelude.{◌≡◌, ℕ, ◌+◌, ◌<◌, ◌≤◌, ◌^◌, true, List, IfOk, OnErr, OnOk};
ghost use Rattle.fg_base.specs.Faults.{Counts as CountsFaults};
ghost use Rattle.fg_base.specs.Told.{GrewByFirst, grown};
ghost use Rattle.fg_model.specs.declared.run.RunFault.{RunFault};
ghost use Rattle.fg_model.specs.Engine.{EngineWent, HasTallied, OfEachBegun, TallyRoseWith, TellsEnd, TellsFaults, WatchShown, begun_in, run_fault_of};
ghost use Rattle.fg_model.specs.Iteration.{AreStates, Begun};
ghost use Rattle.fg_model.specs.Program.{Rules};
ghost use Rattle.fg_model.specs.Run.{last_end, opening_states, run};
ghost use Rattle.fg_model.specs.Watch.{Grew, line_at};

use crate::engine::Engine;
use crate::iteration::{Counts, IterFault};
use crate::program::Program;
use crate::stand::{Stand, find_stand};
use crate::watch::{IterLine, Watch};
use fg_base::{BadEdge, Failed, Items, Memory, Tally, VState};
use std::alloc::Global;

/// The end of a run: whether it settled or was stopped at the most iterations, how many were finished, the last phase,
/// and the last states.
#[derive(Drop)]
pub struct End {
    pub settled: bool,
    pub iterations: u32,
    pub phase: u64,
    pub states: Items<VState>,
}

/// Why a run has no end.
#[derive(Clone, Copy, PartialEq, Eq, Debug)]
pub enum RunFault {
    Memory,
    /// The drive of this number failed.
    Drive(u32),
    /// A needed entry leads to no vertex.
    BadEdge(BadEdge),
    /// The watch failed.
    Watch,
}

impl From<Memory> for RunFault {
    ghost from_gives = { λ _ fault. fault ≡ RunFault.Memory };

    fn from(_memory: Memory) -> RunFault {
        RunFault::Memory
    }
}

impl From<IterFault> for RunFault {
    ghost from_gives = { λ of fault. fault ≡ run_fault_of of };

    fn from(of: IterFault) -> RunFault {
        match of {
            IterFault::Memory => RunFault::Memory,
            IterFault::Drive(drive) => RunFault::Drive(drive),
            IterFault::BadEdge(bad) => RunFault::BadEdge(bad),
        }
    }
}

impl From<Failed> for RunFault {
    ghost from_gives = { λ _ fault. fault ≡ RunFault.Watch };

    fn from(_failed: Failed) -> RunFault {
        RunFault::Watch
    }
}

/// The run of a program on the engine's graph from its opening states on, with at most `max` iterations. The watch is
/// shown each finished iteration in order; a refused one isn't shown. The tally rises by one run for each active vertex
/// and by one entry for each of their needed entries. At the end the engine gives its states away.
pub fn run_engine<P: Program, E: Engine<P, T>, W: Watch, T: Tally>(
    alloc: Global,
    engine: &mut E,
    program: &P,
    max: u32,
    watch: &mut W,
    tally: &mut T,
) -> Result<End, RunFault>
    requires is_ready { E.ready engine.old (P.rules program.now) }
    requires opening { E.states_of engine.old ≡ opening_states (P.rules program.now) (E.graph engine.old) }
    requires are_states { AreStates (E.graph engine.old).n (E.states_of engine.old) }
    requires is_allowed { OfEachBegun (E.knows engine.old)
        (begun_in (P.rules program.now) (E.graph engine.old) max) (E.allows engine.old (P.rules program.now)) }
    requires room_of_runs { T.runs tally.old + 2 ^ 57 ≤ 2 ^ 64 }
    requires room_of_entries { T.entries tally.old + 2 ^ 60 ≤ 2 ^ 64 }
    ensures stays_ready { E.ready engine.new (P.rules program.now) }
    ensures same_graph { E.graph engine.new ≡ E.graph engine.old }
    ensures same_knows { E.knows engine.new ≡ E.knows engine.old }
    ensures still_allows { (rules : Rules) (begun : Begun) → E.allows engine.old rules begun → E.allows engine.new rules begun }
    ensures went { EngineWent E.did E.knows E.graph engine.old engine.new (P.rules program.now) max
        (TallyRoseWith T.runs T.entries tally.old tally.new) result }
    ensures same_told { W.told watch.new ≡ W.told watch.old }
    ensures same_borrows { W.same_borrows watch.old watch.new }
    ensures grew { Grew (W.notes watch.old) (W.notes watch.new) }
    // of each answer: whose count rose, whether the run ends so, and what was shown
    ensures faults { TellsFaults result (E.kept engine.old engine.new) (E.failed engine.old engine.new)
        (W.faults watch.old) (W.faults watch.new) }
    ensures answer { E.knows engine.old ≡ true → TellsEnd result (run (P.rules program.now) (E.graph engine.old) max) }
    ensures shown { E.knows engine.old ≡ true → WatchShown result W.told W.notes watch.old watch.new
        (run (P.rules program.now) (E.graph engine.old) max).finished }
    // of a run with an end
    ensures ok_states { IfOk result (λ end. AreStates (E.graph engine.old).n end.states) }
    ensures ok_tally { OnOk result (E.knows engine.old ≡ true → HasTallied T.runs T.entries tally.old tally.new
        (run (P.rules program.now) (E.graph engine.old) max).finished) }
{
    let mut phase = 0;
    for number in 0..max {
        match find_stand::<P, E, T>(engine, program, phase) {
            Stand::Rests(rests) => {
                return Ok(End {
                    settled: true,
                    iterations: number,
                    phase: rests,
                    states: engine.give_states(alloc),
                });
            }
            Stand::Begins(begins) => phase = begins,
        }
        let counts = engine.iterate(alloc, program, phase, tally)?;
        note_iteration(watch, number, phase, counts, engine.states())?;
    }
    let last = find_stand::<P, E, T>(engine, program, phase);
    Ok(end_after(max, last, engine.give_states(alloc)))
}

/// Shows the watch a finished iteration.
fn note_iteration<W: Watch>(
    watch: &mut W,
    number: u32,
    phase: u64,
    counts: Counts,
    states: &[VState],
) -> Result<(), Failed>
    ensures told { W.told watch.new ≡ W.told watch.old }
    ensures same_borrows { W.same_borrows watch.old watch.new }
    ensures faults { CountsFaults (W.faults watch.old) (W.faults watch.new) result }
    ensures ok { OnOk result (W.notes watch.new ≡
        grown (W.notes watch.old) (W.told watch.old (line_at number phase counts) states.now)) }
    ensures err { OnErr result (GrewByFirst (W.told watch.old (line_at number phase counts) states.now)
        (W.notes watch.old) (W.notes watch.new)) }
{
    let line = IterLine {
        number,
        phase,
        active: counts.active,
        messages: counts.messages,
    };
    watch.note(line, states)
}

/// The end of a run with no iteration left: it settled where nothing is left to do.
fn end_after(iterations: u32, last: Stand, states: Items<VState>) -> End
    ensures { result ≡ last_end iterations states last }
{
    match last {
        Stand::Rests(rests) => End {
            settled: true,
            iterations,
            phase: rests,
            states,
        },
        Stand::Begins(begins) => End {
            settled: false,
            iterations,
            phase: begins,
            states,
        },
    }
}
