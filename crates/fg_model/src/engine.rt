//! What runs one iteration.

ghost use Rattle.std.specs.Prelude.{◌≡◌, ℕ, ◌+◌, ◌<◌, ◌≤◌, ◌^◌, Bool, true, Some, List, [], ◌∷◌, ◌++◌, OnErr, OnOk, IfOk, IfErr, length};
ghost use Rattle.fg_base.specs.declared.plain.VState.{VState};
ghost use Rattle.fg_model.specs.declared.graph.Graph.{Graph};
ghost use Rattle.fg_model.specs.Engine.{HasCounted, HasIterated, IfBadEdge, MatchIterFault, RoseUpTo};
ghost use Rattle.fg_model.specs.Iteration.{AreStates, Begun, begun_at, first_bad};
ghost use Rattle.fg_model.specs.Program.{Rules};
ghost use Rattle.fg_model.specs.Run.{is_some_active};

use crate::iteration::{Counts, IterFault};
use crate::program::Program;
use fg_base::{Items, Tally, VState};
use std::alloc::Global;

/// What runs one iteration at a time over one graph, wherever the graph lies, on states of its own. `run_engine` makes a
/// whole run of it.
///
/// The graph is total: where the outside doesn't tell what it holds, `knows` is false, and then nothing is said of the
/// states and of bad edges. All else holds either way.
pub trait Engine<P: Program, T: Tally> {
    /// The graph that it works on.
    ghost graph: { Self → Graph };
    /// Whether what the outside told fixes that graph.
    ghost knows: { Self → Bool };
    /// The states of the vertices.
    ghost states_of: { Self → List VState };
    /// The engine's own conditions for a program, which stay.
    ghost ready: { Self → Rules → Type 0 };
    /// Whether the engine may run this iteration; what it may once it always may.
    ghost allows: { Self → Rules → Begun → Type 0 };
    /// From the first value to the second no drive's count of faults rose.
    ghost kept: { Self → Self → Type 0 };
    /// This drive is the least whose count rose.
    ghost failed: { Self → Self → ℕ → Type 0 };
    /// What was read from the first value to the second is what these iterations, which began, may read.
    ghost did: { Self → Self → Rules → List Begun → Type 0 };

    /// The states as they stand.
    fn states(&self) -> &[VState]
        ensures { result.now ≡ states_of self.now };

    /// Gives the states away.
    fn give_states(&mut self, alloc: Global) -> Items<VState>
        ensures value { result ≡ states_of self.old }
        ensures stays_ready { (rules : Rules) → ready self.old rules → ready self.new rules }
        ensures same_graph { graph self.new ≡ graph self.old }
        ensures same_knows { knows self.new ≡ knows self.old }
        ensures still_allows { (rules : Rules) (begun : Begun) → allows self.old rules begun → allows self.new rules begun }
        ensures none_failed { kept self.old self.new }
        ensures none_read { (rules : Rules) → did self.old self.new rules [] };

    /// Whether some vertex is active. The engine may prepare for this phase.
    fn some_active(&mut self, program: &P, phase: u64) -> bool
        requires is_ready { ready self.old (P.rules program.now) }
        requires are_states { AreStates (graph self.old).n (states_of self.old) }
        ensures value { result ≡ is_some_active (P.rules program.now) phase (states_of self.old) }
        ensures same_states { states_of self.new ≡ states_of self.old }
        ensures stays_ready { ready self.new (P.rules program.now) }
        ensures same_graph { graph self.new ≡ graph self.old }
        ensures same_knows { knows self.new ≡ knows self.old }
        ensures still_allows { (rules : Rules) (begun : Begun) → allows self.old rules begun → allows self.new rules begun }
        ensures none_failed { kept self.old self.new }
        ensures none_read { (rules : Rules) → did self.old self.new rules [] };

    /// Runs one iteration and changes the states by it. The least bad edge refuses it, by vertex, then `Out` before `In`,
    /// then place; an iteration that isn't finished leaves the states as they were.
    fn iterate(
        &mut self,
        alloc: Global,
        program: &P,
        phase: u64,
        tally: &mut T,
    ) -> Result<Counts, IterFault>
        requires is_ready { ready self.old (P.rules program.now) }
        requires are_states { AreStates (graph self.old).n (states_of self.old) }
        requires is_allowed { allows self.old (P.rules program.now)
            (begun_at (P.rules program.now) (graph self.old) phase (states_of self.old)) }
        requires room_of_runs { T.runs tally.old + 2 ^ 30 < 2 ^ 64 }
        requires room_of_entries { T.entries tally.old + 2 ^ 33 < 2 ^ 64 }
        ensures stays_ready { ready self.new (P.rules program.now) }
        ensures same_graph { graph self.new ≡ graph self.old }
        ensures same_knows { knows self.new ≡ knows self.old }
        ensures still_allows { (rules : Rules) (begun : Begun) → allows self.old rules begun → allows self.new rules begun }
        ensures has_read { did self.old self.new (P.rules program.now)
            (begun_at (P.rules program.now) (graph self.old) phase (states_of self.old) ∷ []) }
        // at most one run for each active vertex, and one entry for each of their needed entries
        ensures few_runs { RoseUpTo (length (begun_at (P.rules program.now) (graph self.old) phase (states_of self.old)).active)
            (T.runs tally.old) (T.runs tally.new) }
        ensures few_entries { RoseUpTo (begun_at (P.rules program.now) (graph self.old) phase (states_of self.old)).messages
            (T.entries tally.old) (T.entries tally.new) }
        // of a finished iteration
        ensures ok { IfOk result (λ counts. knows self.old ≡ true → HasIterated (P.rules program.now) (graph self.old) phase
            (states_of self.old) (states_of self.new) counts) }
        ensures ok_states { OnOk result (AreStates (graph self.old).n (states_of self.new)) }
        ensures ok_counts { IfOk result (λ counts. HasCounted counts
            (begun_at (P.rules program.now) (graph self.old) phase (states_of self.old))) }
        ensures ok_active { IfOk result (λ counts. counts.active ≤ 2 ^ 24) }
        ensures ok_messages { IfOk result (λ counts. counts.messages ≤ 2 ^ 27) }
        ensures ok_runs { IfOk result (λ counts. T.runs tally.new ≡ T.runs tally.old + counts.active) }
        ensures ok_entries { IfOk result (λ counts. T.entries tally.new ≡ T.entries tally.old + counts.messages) }
        ensures ok_kept { OnOk result (kept self.old self.new) }
        // of the other answers
        ensures err_states { OnErr result (states_of self.new ≡ states_of self.old) }
        ensures faults { IfErr result (λ fault. MatchIterFault fault
            (kept self.old self.new)
            (λ drive. failed self.old self.new drive)
            (λ bad. kept self.old self.new)) }
        ensures bad_edge { IfBadEdge result (λ bad. knows self.old ≡ true →
            first_bad (P.rules program.now) (graph self.old) phase (states_of self.old) ≡ Some bad) };

    ghost kept_none: { (engine : Self) → kept engine engine };

    ghost kept_more: { (first middle last : Self) → kept first middle → kept middle last → kept first last };

    ghost failed_more: { (first middle last : Self) (drive : ℕ) → kept first middle → failed middle last drive → failed first last drive };

    ghost did_none: { (engine : Self) (rules : Rules) → did engine engine rules [] };

    ghost did_more: { (first middle last : Self) (rules : Rules) (begun next : List Begun)
        → did first middle rules begun → did middle last rules next → did first last rules (begun ++ next) };
}
