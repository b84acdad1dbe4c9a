//! Ranks in whole numbers.

ghost use Rattle.std.specs.Prelude.{◌≡◌};
ghost use Rattle.fg_rank.specs.Rank.{rank, share_of};
ghost use Rattle.fg_rank.specs.RankSums.{StaysBounded};

use fg_base::{Dir, Entry, Need, Tally, VState, Value};
use fg_model::Program;

/// What each vertex opens with: 15 hundredths of the unit, which is 2^20.
const OPENING: u64 = 15 * (1 << 20) / 100;

/// Rank in fixed point, in units of 1/2^20: a vertex's value is the rank that it sent on, and what came to it since.
/// A vertex sends on 85 hundredths of what came, in equal parts along its out-entries, once that is `cut` or more.
/// Sums stop at 2^64 - 1.
#[derive(Clone, Copy, Debug)]
pub struct Rank {
    pub cut: u64,
}

/// What goes along each of `outs` out-entries of what is left.
fn share(left: u64, outs: u64) -> u64
    ensures { result ≡ share_of left outs }
{
    if outs == 0 {
        0
    } else {
        (u128::from(left) * 85 / 100 / u128::from(outs)) as u64
    }
}

#[tactic(auto, unfolding(crate::specs::Rank::rank))]
impl Program for Rank {
    ghost use Rattle.fg_rank.specs.RankLaws.{rank_is_lawful};

    ghost rules = { λ program. rank program.cut };

    ghost lawful = { λ program. rank_is_lawful program.cut };

    fn need(&self) -> Need {
        Need::Out
    }

    fn init(&self, _v: u32, outs: u32, _ins: u32) -> VState {
        VState {
            a: 0,
            b: OPENING,
            c: u64::from(outs),
        }
    }

    fn begin<T: Tally>(&self, _phase: u64, _v: u32, s: VState, tally: &mut T) -> (VState, u64) {
        tally.run_one();
        let sent = VState {
            a: s.a.saturating_add(s.b),
            b: 0,
            ..s
        };
        (sent, share(s.b, s.c))
    }

    fn edge<T: Tally>(&self, carry: u64, _dir: Dir, _entry: Entry, tally: &mut T) -> u64 {
        tally.entry_one();
        carry
    }

    fn receive(&self, s: VState, m: u64) -> VState {
        VState {
            b: s.b.saturating_add(m),
            ..s
        }
    }

    fn combine(&self, x: u64, y: u64) -> u64 {
        x.saturating_add(y)
    }

    fn wake(&self, _phase: u64, s: VState) -> bool {
        s.b >= self.cut
    }

    fn bid(&self, _s: VState) -> Option<u64> {
        None
    }

    fn show(&self, s: VState) -> Value {
        Value::Two(s.a, s.b)
    }
}

impl Rank {
    /// What the ranks of a run come to: at its end, settled or stopped, on any graph, three times all ranks and twenty
    /// times all that wasn't sent on are together at most three units for each vertex. A call does nothing when it runs;
    /// it gives its caller this law.
    pub fn ranks_stay_bounded(self)
        ensures { StaysBounded self.cut }
    {}
}

#[cfg(test)]
mod tests {
    use super::*;
    use fg_base::{Count, Items};
    use fg_model::{Graph, VecWatch, plain_run};
    use std::alloc::{AllocError, Global};
    use std::test::Fail;

    fn row(alloc: Global, target: u32) -> Result<Items<Entry>, AllocError> {
        let mut row = Vec::new(alloc);
        row.push(Entry { target, weight: 1 })?;
        Ok(Items::from_vec(row))
    }

    /// The edges 0 1 and 1 0, of which each list is the same.
    fn lists(alloc: Global) -> Result<Items<Items<Entry>>, AllocError> {
        let mut rows = Vec::new(alloc);
        rows.push(row(alloc, 1)?)?;
        rows.push(row(alloc, 0)?)?;
        Ok(Items::from_vec(rows))
    }

    #[test]
    fn two_vertices_that_rank_each_other(rt: HostRuntime) -> Result<(), Fail> {
        let alloc = rt.alloc();
        let graph = Graph {
            n: 2,
            weighted: false,
            outs: lists(alloc)?,
            ins: lists(alloc)?,
        };
        assert!(rt; graph.is_within_limits());
        let program = Rank { cut: 1048 };
        let mut watch = VecWatch::new(alloc, Vec::new(alloc));
        let mut tally = Count::new();
        let run = plain_run(alloc, &graph, &program, 2, &mut watch, &mut tally);
        let Ok(end) = run else { panic!(rt; "no end") };
        assert!(rt; !end.settled);
        assert_eq!(rt; end.iterations, 2);
        assert_eq!(rt; end.states.len(), 2);
        for state in end.states.as_slice() {
            assert_eq!(rt; program.show(*state), Value::Two(290_979, 113_639));
        }
        assert_eq!(rt; watch.notes().len(), 2);
        for shown in watch.notes() {
            assert_eq!(rt; (shown.line.active, shown.line.messages), (2, 2));
        }
        assert_eq!(rt; (tally.runs(), tally.entries()), (4, 4));
        Ok(())
    }

    #[test]
    fn sums_stop_and_shares_are_exact(rt: HostRuntime) -> Result<(), Fail> {
        let program = Rank { cut: 1 };
        let full = VState {
            a: u64::MAX - 1,
            b: u64::MAX,
            c: 1,
        };
        assert!(rt; program.wake(0, full));
        let mut tally = Count::new();
        let (sent, carry) = program.begin(0, 0, full, &mut tally);
        assert_eq!(rt; (sent.a, sent.b), (u64::MAX, 0));
        // 85 hundredths of 2^64 - 1, rounded down
        assert_eq!(rt; carry, 15_679_732_462_653_118_872);
        assert_eq!(rt; program.receive(full, 1).b, u64::MAX);
        Ok(())
    }
}
