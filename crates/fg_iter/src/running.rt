//! A whole run by a crew.

ghost use Rattle.std.specs.Prelude.{◌≡◌, ◌+◌, ◌<◌, ◌≤◌, ◌^◌, true, None, Err, All, IfOk, OnOk, length};
ghost use Rattle.fg_base.specs.declared.limits.TheConstants.{MAX_WORKERS};
ghost use Rattle.fg_iter.specs.Crew.{CanMark, HasMarked, HasVisited, IsCrew, IsSameCrew, IsSettled, rules_in, start_of};
ghost use Rattle.fg_crew.specs.Slots.{Has};
ghost use Rattle.fg_iter.specs.Engine.{MayIterate, whole_answer};
ghost use Rattle.fg_iter.specs.Lists.{AreBlockWeights};
ghost use Rattle.fg_iter.specs.Running.{AllowsRun, CrewWent, FoundAll, RunShown, RunTallied};
ghost use Rattle.fg_iter.specs.Start.{HasEnded, HasRaised};
ghost use Rattle.fg_model.specs.Engine.{TallyRoseWith, TellsEnd, TellsFaults};
ghost use Rattle.fg_model.specs.Graph.{IsWithinLimits};
ghost use Rattle.fg_model.specs.Iteration.{AreStates};
ghost use Rattle.fg_model.specs.Run.{opening_states, run};
ghost use Rattle.fg_model.specs.Watch.{Grew};

use crate::crew::{Crew, Outfit, some_active};
use crate::engine::CrewEngine;
use crate::iterating::{Bounds, iterate};
use crate::runs_on::{RunsOn, Settles};
use fg_base::{Tally, VState};
use fg_crew::Slot;
use fg_model::{End, Program, RunFault, Watch, run_engine};
use fg_part::PartMap;
use std::alloc::Global;
use std::marker::PhantomData;
use std::sync::Wait;
use std::thread::Threads;

/// What came of a run, with the slots of all workers, and the fault that ended it where its answer is a drive.
pub struct CrewRun<K, F: Drop> {
    pub answer: Result<End, RunFault>,
    pub slots: Vec<Slot<K, F>>,
    pub fault: Option<F>,
}

impl<K, F: Drop> CrewRun<K, F> {
    /// A run for which no memory was got.
    fn without_memory(slots: Vec<Slot<K, F>>) -> CrewRun<K, F>
        ensures { result ≡ record { answer = Err RunFault.Memory; slots = slots; fault = None } }
    {
        CrewRun {
            answer: Err(RunFault::Memory),
            slots,
            fault: None,
        }
    }
}

/// The run of a program from its opening states on, with at most `max` iterations, by as many workers at once as there are slots.
///
/// The watch is shown each finished iteration in order. A fault of the runner ends the run as that of drive 0; it is given back, and whoever
/// has the drives knows of which it is. The slots come back in order at every answer, and nothing is counted in them that isn't in the tally.
/// It takes a mark for each block, and a place in an inbox for each vertex, once.
pub fn run_by_crew<
    P: Program + Sync,
    K: Send,
    T: Tally,
    B: Settles<P, K, T> + Sync,
    W: Watch,
    R: Threads + Wait + Sync,
>(
    rt: &R,
    alloc: Global,
    runner: &B,
    program: &P,
    map: PartMap,
    weights: &[u64],
    bounds: Bounds,
    states: Vec<VState>,
    slots: Vec<Slot<K, B::Fault>>,
    max: u32,
    watch: &mut W,
    tally: &mut T,
) -> CrewRun<K, B::Fault>
    requires limits { IsWithinLimits (B.lists runner.now).graph }
    requires vertices { map.n ≡ (B.lists runner.now).graph.n }
    requires weights { AreBlockWeights (P.rules program.now) (B.lists runner.now).graph map weights.now }
    requires opening { states.items ≡ opening_states (P.rules program.now) (B.lists runner.now).graph }
    requires are_states { AreStates (B.lists runner.now).graph.n states.items }
    requires is_allowed { AllowsRun (B.allows runner.now) (B.lists runner.now) (P.rules program.now) max }
    requires workers { (0 < length slots.items) × (length slots.items ≤ MAX_WORKERS) }
    requires lent { All (λ slot. B.lends runner.now map slot.kept) slots.items }
    requires settled { All (λ slot. IsSettled (B.spent slot.kept)) slots.items }
    requires room_of_runs { T.runs tally.old + 2 ^ 57 ≤ 2 ^ 64 }
    requires room_of_entries { T.entries tally.old + 2 ^ 60 ≤ 2 ^ 64 }
    ensures went { CrewWent (B.lists runner.now) (P.rules program.now) max (TallyRoseWith T.runs T.entries tally.old tally.new) result.answer }
    ensures same_told { W.told watch.new ≡ W.told watch.old }
    ensures same_borrows { W.same_borrows watch.old watch.new }
    ensures grew { Grew (W.notes watch.old) (W.notes watch.new) }
    // of each answer: whether there was a fault, whether the run ends so, and what was shown
    ensures faults { TellsFaults result.answer (result.fault ≡ None) (λ _. Has (B.caused runner.now) result.fault)
        (W.faults watch.old) (W.faults watch.new) }
    ensures answer { (B.lists runner.now).knows ≡ true → TellsEnd result.answer (run (P.rules program.now) (B.lists runner.now).graph max) }
    ensures shown { RunShown (B.lists runner.now) (P.rules program.now) max W.told W.notes watch.old watch.new result.answer }
    // of a run with an end
    ensures ok_states { IfOk result.answer (λ end. AreStates (B.lists runner.now).graph.n end.states) }
    ensures ok_tally { OnOk result.answer (RunTallied (B.lists runner.now) (P.rules program.now) max T.runs T.entries tally.old tally.new) }
    ensures ok_hits { OnOk result.answer
        (FoundAll B.spent (B.lists runner.now) (P.rules program.now) map max slots.items result.slots.items) }
    // of the workers
    ensures count { length result.slots.items ≡ length slots.items }
    ensures lent { All (λ slot. B.lends runner.now map slot.kept) result.slots.items }
    ensures settled { All (λ slot. IsSettled (B.spent slot.kept)) result.slots.items }
{
    let Ok(outfit) = Outfit::new(alloc, program, map) else {
        return CrewRun::without_memory(slots);
    };
    let mut engine = CrewEngine {
        kept: PhantomData::<K>,
        runner,
        crew: Crew::new(outfit, states, slots),
        fault: None,
        cut_short: false,
        some_active: |phase: u64, crew: &mut Crew<'_, P, K, B::Fault>|
            requires { CanMark P.rules crew.now }
            ensures { HasMarked P.rules phase result crew.entry.now crew.exit.now }
        { some_active(rt, phase, crew) },
        iterates: |phase: u64, crew: &mut Crew<'_, P, K, B::Fault>, tally: &mut T|
            requires may { MayIterate P.rules (B.lists runner.now) (B.allows runner.now) (B.lends runner.now) B.spent phase crew.now
                (T.runs tally.now) (T.entries tally.now) }
            requires limits { IsWithinLimits (B.lists runner.now).graph }
            requires weights { AreBlockWeights (rules_in P.rules crew.now) (B.lists runner.now).graph crew.now.inboxes.map weights.now }
            ensures ended { HasEnded (B.caused runner.entry.now) (start_of P.rules (B.lists runner.entry.now) phase crew.entry.now)
                result crew.exit.now.states.items }
            ensures raised { HasRaised (start_of P.rules (B.lists runner.entry.now) phase crew.entry.now) result
                (T.runs tally.entry.now) (T.entries tally.entry.now) (T.runs tally.exit.now) (T.entries tally.exit.now) }
            ensures visited { HasVisited B.spent (start_of P.rules (B.lists runner.entry.now) phase crew.entry.now) result
                crew.entry.now crew.exit.now }
            ensures is_crew { IsCrew P.rules (B.lends runner.entry.now) B.spent crew.exit.now }
            ensures same { IsSameCrew crew.entry.now crew.exit.now }
        { iterate(rt, alloc, runner, weights, bounds, phase, crew, tally) },
    };
    let answer = run_engine(alloc, &mut engine, program, max, watch, tally);
    finish(engine, answer)
}

/// What came of a run that its engine answered so.
fn finish<'a, P: Program, K, E: Drop, B, A: Drop, I: Drop>(
    engine: CrewEngine<'a, K, Crew<'_, P, K, E>, E, B, A, I>,
    answer: Result<End, RunFault>,
) -> CrewRun<K, E>
    ensures { result ≡ record { answer = whole_answer engine.entry.cut_short answer; slots = engine.entry.crew.slots; fault = engine.entry.fault } }
{
    let CrewEngine {
        kept: _,
        runner: _runner,
        crew,
        fault,
        cut_short,
        some_active: _some_active,
        iterates: _iterates,
    } = engine;
    CrewRun {
        answer: whole(answer, cut_short),
        slots: crew.into_slots(),
        fault,
    }
}

/// The answer, but an end only where no iteration was cut short. A run where one was has no end anyway.
fn whole(answer: Result<End, RunFault>, cut_short: bool) -> Result<End, RunFault>
    ensures { result ≡ whole_answer cut_short answer }
{
    match answer {
        Ok(_) if cut_short => Err(RunFault::Memory),
        _ => answer,
    }
}
