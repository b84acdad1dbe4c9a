//! Where a run stands before an iteration.

ghost use Rattle.std.specs.Prelude.{◌≡◌, None, List, []};
ghost use Rattle.fg_model.specs.Iteration.{AreStates, Begun};
ghost use Rattle.fg_model.specs.Program.{Rules};
ghost use Rattle.fg_model.specs.Run.{IsRest, bid_above, is_some_active, least_bid_above, lesser, stand};

use crate::engine::Engine;
use crate::program::Program;
use fg_base::{Tally, VState};

/// Where a run stands before an iteration: one begins at this phase, or nothing is left to do.
#[derive(Clone, Copy, PartialEq, Eq, Debug)]
pub enum Stand {
    Begins(u64),
    Rests(u64),
}

/// Where a run with this phase and the engine's states stands: while no vertex is active, the phase rises to the least
/// bid above it.
pub fn find_stand<P: Program, E: Engine<P, T>, T: Tally>(
    engine: &mut E,
    program: &P,
    phase: u64,
) -> Stand
    requires is_ready { E.ready engine.old (P.rules program.now) }
    requires are_states { AreStates (E.graph engine.old).n (E.states_of engine.old) }
    ensures value { result ≡ stand (P.rules program.now) phase (E.states_of engine.old) }
    ensures rests { IsRest (P.rules program.now) (E.states_of engine.old) result }
    ensures same_states { E.states_of engine.new ≡ E.states_of engine.old }
    ensures stays_ready { E.ready engine.new (P.rules program.now) }
    ensures same_graph { E.graph engine.new ≡ E.graph engine.old }
    ensures same_knows { E.knows engine.new ≡ E.knows engine.old }
    ensures still_allows { (rules : Rules) (begun : Begun) → E.allows engine.old rules begun → E.allows engine.new rules begun }
    ensures none_failed { E.kept engine.old engine.new }
    ensures none_read { (rules : Rules) → E.did engine.old engine.new rules [] }
{
    let mut risen = phase;
    for _ in 0..engine.states().len() {
        if engine.some_active(program, risen) {
            return Stand::Begins(risen);
        }
        match least_bid_above(program, risen, engine.states()) {
            None => return Stand::Rests(risen),
            Some(bid) => risen = bid,
        }
    }
    // each rise left a vertex's bid behind, so none is above by now
    if engine.some_active(program, risen) {
        Stand::Begins(risen)
    } else {
        Stand::Rests(risen)
    }
}

/// Whether some vertex is active.
pub fn is_some_active<P: Program>(program: &P, phase: u64, states: &[VState]) -> bool
    ensures { result ≡ is_some_active (P.rules program.now) phase states.now }
{
    states.iter().any(|s| program.wake(phase, *s))
}

/// The least bid above the phase.
fn least_bid_above<P: Program>(program: &P, phase: u64, states: &[VState]) -> Option<u64>
    ensures { result ≡ least_bid_above (P.rules program.now) phase states.now }
{
    let mut least = None;
    for s in states {
        least = lesser(least, bid_above(phase, program.bid(*s)));
    }
    least
}

fn bid_above(phase: u64, bid: Option<u64>) -> Option<u64>
    ensures { result ≡ bid_above phase bid }
{
    match bid {
        Some(bid) if phase < bid => Some(bid),
        _ => None,
    }
}

fn lesser(one: Option<u64>, other: Option<u64>) -> Option<u64>
    ensures { result ≡ lesser one other }
{
    match (one, other) {
        (None, _) => other,
        (Some(_), None) => one,
        (Some(one), Some(other)) => Some(one.min(other)),
    }
}
