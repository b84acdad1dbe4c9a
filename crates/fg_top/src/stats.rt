//! The stats of a run.

ghost use Rattle.std.specs.Prelude.{◌≡◌, ◌+◌, ◌<◌, ◌≤◌, ◌^◌, OnErr, OnOk};
ghost use Rattle.fg_engine.specs.Tallies.{tally_between};
ghost use Rattle.fg_top.specs.Stats.{CountsTally, IsSettled, without_count};
ghost use Rattle.fg_top.specs.Tallies.{Stood};

use fg_base::{Count, Memory, Tally};
use fg_model::{End, RunFault};

/// What a run read of its drives once they were opened, in reads and in pages, and what its tally counted. The first two
/// stop at 2^64 - 1.
#[derive(Clone, Copy, PartialEq, Eq, Debug)]
pub struct Stats {
    pub reads: u64,
    pub pages: u64,
    pub runs: u64,
    pub entries: u64,
}

/// The most by which a tally is raised, a number that no run counts to within centuries.
const MOST: u64 = 1 << 63;

/// Counts so many vertex runs.
fn raise_runs<T: Tally>(tally: &mut T, runs: u64)
    requires { T.runs tally.old + runs < 2 ^ 64 }
    ensures runs { T.runs tally.new ≡ T.runs tally.old + runs }
    ensures entries { T.entries tally.new ≡ T.entries tally.old }
{
    for _ in 0..runs {
        tally.run_one();
    }
}

/// Counts so many entries.
fn raise_entries<T: Tally>(tally: &mut T, entries: u64)
    requires { T.entries tally.old + entries < 2 ^ 64 }
    ensures runs { T.runs tally.new ≡ T.runs tally.old }
    ensures entries { T.entries tally.new ≡ T.entries tally.old + entries }
{
    for _ in 0..entries {
        tally.entry_one();
    }
}

impl Stats {
    /// The stats of a run that read so many pages in so many reads, and that was counted so.
    pub fn new(reads: u64, pages: u64, count: &Count) -> Stats
        ensures reads { result.reads ≡ reads }
        ensures pages { result.pages ≡ pages }
        ensures runs { result.runs ≡ ⟦<Count as Tally>⟧.runs count.now }
        ensures entries { result.entries ≡ ⟦<Count as Tally>⟧.entries count.now }
    {
        Stats {
            reads,
            pages,
            runs: count.runs(),
            entries: count.entries(),
        }
    }

    /// Raises the tally by what the run counted. Where that is more than 2^63 the tally stands, since it may have no room
    /// for the sum.
    pub fn raise<T: Tally>(&self, tally: &mut T) -> Result<(), Memory>
        requires room_of_runs { T.runs tally.old ≤ 2 ^ 62 }
        requires room_of_entries { T.entries tally.old ≤ 2 ^ 62 }
        ensures raised { OnOk result (CountsTally self.now (tally_between T.Tally tally.old tally.new)) }
        ensures stands { OnErr result (Stood (tally_between T.Tally tally.old tally.new)) }
    {
        if self.runs > MOST || self.entries > MOST {
            return Err(Memory);
        }
        raise_runs(tally, self.runs);
        raise_entries(tally, self.entries);
        Ok(())
    }

    /// Raises the tally by what a run counted that ended so. Where it may have no room for that it stands, and the run is
    /// refused for want of memory, unless something else than what it ran refused it.
    pub fn settle<T: Tally>(
        &self,
        answer: Result<End, RunFault>,
        tally: &mut T,
    ) -> Result<End, RunFault>
        requires room_of_runs { T.runs tally.old ≤ 2 ^ 62 }
        requires room_of_entries { T.entries tally.old ≤ 2 ^ 62 }
        ensures { IsSettled self.now answer result (tally_between T.Tally tally.old tally.new) }
    {
        match self.raise(tally) {
            Ok(()) => answer,
            Err(Memory) => without_count(answer),
        }
    }
}

/// How a run ends whose counts found no room.
fn without_count(answer: Result<End, RunFault>) -> Result<End, RunFault>
    ensures { result ≡ without_count answer }
{
    match answer {
        Err(RunFault::Drive(drive)) => Err(RunFault::Drive(drive)),
        Err(RunFault::Watch) => Err(RunFault::Watch),
        Ok(_) | Err(RunFault::Memory | RunFault::BadEdge(_)) => Err(RunFault::Memory),
    }
}
