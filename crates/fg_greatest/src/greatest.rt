//! The greatest vertex that reaches each.

ghost use Rattle.fg_greatest.specs.Greatest.{greatest};
ghost use Rattle.fg_greatest.specs.Reaching.{GivesGreatestReaching};

use fg_base::{Dir, Entry, Need, Tally, VState, Value};
use fg_model::Program;

/// A vertex's value is the greatest vertex from which a walk along out-entries leads to it, which is itself where no greater
/// one does. Each iteration sends on the numbers that rose.
#[derive(Clone, Copy, Debug)]
pub struct Greatest;

#[tactic(auto, unfolding(crate::specs::Greatest::greatest))]
impl Program for Greatest {
    ghost use Rattle.fg_greatest.specs.GreatestLaws.{greatest_is_lawful};

    ghost rules = { λ program. greatest };

    ghost lawful = { λ program. greatest_is_lawful };

    fn need(&self) -> Need {
        Need::Out
    }

    fn init(&self, v: u32, _outs: u32, _ins: u32) -> VState {
        VState {
            a: u64::from(v),
            b: 0,
            c: 0,
        }
    }

    fn begin<T: Tally>(&self, _phase: u64, _v: u32, s: VState, tally: &mut T) -> (VState, u64) {
        tally.run_one();
        (VState { b: s.a, ..s }, s.a)
    }

    fn edge<T: Tally>(&self, carry: u64, _dir: Dir, _entry: Entry, tally: &mut T) -> u64 {
        tally.entry_one();
        carry
    }

    fn receive(&self, s: VState, m: u64) -> VState {
        VState { a: s.a.max(m), ..s }
    }

    fn combine(&self, x: u64, y: u64) -> u64 {
        x.max(y)
    }

    fn wake(&self, _phase: u64, s: VState) -> bool {
        s.b < s.a
    }

    fn bid(&self, _s: VState) -> Option<u64> {
        None
    }

    fn show(&self, s: VState) -> Value {
        Value::One(s.a)
    }
}

impl Greatest {
    /// What the values mean: after a settled run of this program, on any graph within the limits, a vertex's value is the
    /// greatest vertex from which a walk leads to it. A call does nothing when it runs; it gives its caller this law.
    pub fn values_are_greatest_reaching(self)
        ensures { GivesGreatestReaching }
    {}
}
