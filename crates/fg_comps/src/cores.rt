//! Core numbers.

ghost use Rattle.fg_comps.specs.Core.{core};
ghost use Rattle.fg_comps.specs.CoreNumbers.{GivesCoreNumbers};

use fg_base::{Dir, Entry, Need, Tally, VState, Value};
use fg_model::Program;

/// Core numbers: a vertex's value is the greatest k for which it lies in the k-core, both lists counted. The phase is k:
/// a vertex with at most k entries left to vertices that are left is taken out, and tells its neighbours.
#[derive(Clone, Copy, Debug)]
pub struct Core;

#[tactic(auto, unfolding(crate::specs::Core::core))]
impl Program for Core {
    ghost use Rattle.fg_comps.specs.CoreLaws.{core_is_lawful};

    ghost rules = { λ program. core };

    ghost lawful = { λ program. core_is_lawful };

    fn need(&self) -> Need {
        Need::Both
    }

    fn init(&self, _v: u32, outs: u32, ins: u32) -> VState {
        VState {
            a: u64::from(outs) + u64::from(ins),
            b: 0,
            c: 0,
        }
    }

    fn begin<T: Tally>(&self, phase: u64, _v: u32, s: VState, tally: &mut T) -> (VState, u64) {
        tally.run_one();
        let out = VState {
            b: 1,
            c: phase,
            ..s
        };
        (out, 1)
    }

    fn edge<T: Tally>(&self, carry: u64, _dir: Dir, _entry: Entry, tally: &mut T) -> u64 {
        tally.entry_one();
        carry
    }

    fn receive(&self, s: VState, m: u64) -> VState {
        if s.b == 0 {
            VState {
                a: s.a.saturating_sub(m),
                ..s
            }
        } else {
            s
        }
    }

    fn combine(&self, x: u64, y: u64) -> u64 {
        x.saturating_add(y)
    }

    fn wake(&self, phase: u64, s: VState) -> bool {
        s.b == 0 && s.a <= phase
    }

    fn bid(&self, s: VState) -> Option<u64> {
        if s.b == 0 { Some(s.a) } else { None }
    }

    fn show(&self, s: VState) -> Value {
        Value::One(s.c)
    }
}

impl Core {
    /// What the values mean: after a settled run of this program, on any graph within the limits whose in-lists are its
    /// out-lists turned round, a vertex's value is its core number: the greatest k for which it lies in the k-core, the
    /// largest set in which each vertex has at least k entries of both lists into the set. A call does nothing when it
    /// runs; it gives its caller this law.
    pub fn values_are_core_numbers(self)
        ensures { GivesCoreNumbers }
    {}
}
