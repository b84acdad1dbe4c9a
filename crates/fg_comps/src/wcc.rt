//! Weakly connected components.

ghost use Rattle.fg_comps.specs.Components.{GivesLeastConnected};
ghost use Rattle.fg_comps.specs.Wcc.{wcc};

use fg_base::{Dir, Entry, Need, Tally, VState, Value};
use fg_model::Program;

/// The number that stands for no vertex.
const NONE: u64 = u64::MAX;

/// Weakly connected components: a vertex's value is the least vertex that is connected with it when directions are
/// ignored. Each iteration sends on, along both lists, the numbers that fell.
#[derive(Clone, Copy, Debug)]
pub struct Wcc;

#[tactic(auto, unfolding(crate::specs::Wcc::wcc))]
impl Program for Wcc {
    ghost use Rattle.fg_comps.specs.WccLaws.{wcc_is_lawful};

    ghost rules = { λ program. wcc };

    ghost lawful = { λ program. wcc_is_lawful };

    fn need(&self) -> Need {
        Need::Both
    }

    fn init(&self, v: u32, _outs: u32, _ins: u32) -> VState {
        VState {
            a: u64::from(v),
            b: NONE,
            c: 0,
        }
    }

    fn begin<T: Tally>(&self, _phase: u64, _v: u32, s: VState, tally: &mut T) -> (VState, u64) {
        tally.run_one();
        (VState { b: s.a, ..s }, s.a)
    }

    fn edge<T: Tally>(&self, carry: u64, _dir: Dir, _entry: Entry, tally: &mut T) -> u64 {
        tally.entry_one();
        carry
    }

    fn receive(&self, s: VState, m: u64) -> VState {
        VState { a: s.a.min(m), ..s }
    }

    fn combine(&self, x: u64, y: u64) -> u64 {
        x.min(y)
    }

    fn wake(&self, _phase: u64, s: VState) -> bool {
        s.a < s.b
    }

    fn bid(&self, _s: VState) -> Option<u64> {
        None
    }

    fn show(&self, s: VState) -> Value {
        Value::One(s.a)
    }
}

impl Wcc {
    /// What the values mean: after a settled run of this program, on any graph within the limits whose in-lists are its
    /// out-lists turned round, a vertex's value is the least vertex that is connected with it when directions are ignored.
    /// A call does nothing when it runs; it gives its caller this law.
    pub fn values_are_least_connected(self)
        ensures { GivesLeastConnected }
    {}
}
