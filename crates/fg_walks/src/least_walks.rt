//! Levels and least weights from a source.

ghost use Rattle.fg_walks.specs.Bfs.{bfs};
ghost use Rattle.fg_walks.specs.Sssp.{sssp};
ghost use Rattle.fg_walks.specs.Walks.{LevelsAreLeastLengths, MakesWholeSums, ValuesAreLeastWeights};

use fg_base::{Dir, Entry, Need, Tally, VState, Value};
use fg_model::Program;

/// The number that stands for none, and at which a sum stops.
const NONE: u64 = u64::MAX;

/// A vertex's value is the least number that reached it from the source, to which each entry on the way added its weight
/// (`WEIGHTED`) or 1, and is absent where no walk leads there. Each iteration sends on the numbers that fell.
#[derive(Clone, Copy, Debug)]
pub struct LeastWalks<const WEIGHTED: bool> {
    pub source: u32,
}

/// Breadth-first search: a vertex's value is its level, the least number of out-entries from the source to it, and is
/// absent where no walk leads there. Each iteration sends on the levels that fell.
pub type Bfs = LeastWalks<false>;

/// Shortest walks: a vertex's value is the least weight of a walk along out-entries from the source to it, and is
/// absent where no walk leads there. Each iteration sends on the weights that fell.
pub type Sssp = LeastWalks<true>;

#[tactic(auto, using(crate::proofs::Spread::least_walks_spread))]
impl<const WEIGHTED: bool> Program for LeastWalks<WEIGHTED> {
    ghost use Rattle.fg_walks.specs.LeastWalks.{least_walks};
    ghost use Rattle.fg_walks.specs.SpreadLaws.{least_walks_are_lawful};

    ghost rules = { λ program. least_walks WEIGHTED program.source };

    ghost lawful = { λ program. least_walks_are_lawful WEIGHTED program.source };

    fn need(&self) -> Need {
        Need::Out
    }

    fn init(&self, v: u32, _outs: u32, _ins: u32) -> VState {
        let a = if v == self.source { 0 } else { NONE };
        VState { a, b: NONE, c: 0 }
    }

    fn begin<T: Tally>(&self, _phase: u64, _v: u32, s: VState, tally: &mut T) -> (VState, u64) {
        tally.run_one();
        (VState { b: s.a, ..s }, s.a)
    }

    fn edge<T: Tally>(&self, carry: u64, _dir: Dir, entry: Entry, tally: &mut T) -> u64 {
        tally.entry_one();
        let cost = if WEIGHTED { u64::from(entry.weight) } else { 1 };
        carry.saturating_add(cost)
    }

    fn receive(&self, s: VState, m: u64) -> VState {
        VState { a: s.a.min(m), ..s }
    }

    fn combine(&self, x: u64, y: u64) -> u64 {
        x.min(y)
    }

    fn wake(&self, _phase: u64, s: VState) -> bool {
        s.a < s.b
    }

    fn bid(&self, _s: VState) -> Option<u64> {
        None
    }

    fn show(&self, s: VState) -> Value {
        if s.a == NONE {
            Value::Absent
        } else {
            Value::One(s.a)
        }
    }
}

impl Bfs {
    /// What the values mean: after a settled run of this program, on any graph within the limits, a vertex's value is
    /// absent exactly where no walk leads to it from the source, and is else the least length of such a walk. No
    /// message of a run stops at 2^64 - 1: what nothing has reached sends none, and a level is at most the number of
    /// iterations. A call does nothing when it runs; it gives its caller these laws.
    pub fn levels_are_least_lengths(self)
        ensures law { LevelsAreLeastLengths self.source }
        ensures whole { MakesWholeSums (λ entry. 1) (bfs self.source) }
    {}
}

impl Sssp {
    /// What the values mean: after a settled run of this program, on any graph within the limits, a vertex's value is
    /// absent exactly where no walk leads to it from the source, and is else the least weight of such a walk, a sum
    /// without an end. No message of a run stops at 2^64 - 1: what nothing has reached sends none, after k iterations
    /// a weight is at most k * (2^32 - 1), and a run has below 2^32 iterations. A call does nothing when it runs; it
    /// gives its caller these laws.
    pub fn values_are_least_weights(self)
        ensures law { ValuesAreLeastWeights self.source }
        ensures whole { MakesWholeSums (λ entry. entry.weight) (sssp self.source) }
    {}
}
