//! The function that runs jobs.

ghost use Rattle.std.specs.Prelude.{◌≡◌, ℕ, ◌+◌, ◌^◌, ◌<◌, length};
ghost use Rattle.fg_base.specs.declared.limits.TheConstants.{PAGE_BYTES};
ghost use Rattle.fg_batch.specs.Outbox.{HasRoom, Sends};
ghost use Rattle.fg_task.specs.declared.job.Step.TheVariants.{Done};
ghost use Rattle.fg_task.specs.Jobs.{IsJob, Work, bad_in, entry_count, messages_in};

use crate::job::{Job, Step};
use fg_base::Tally;
use fg_batch::Outbox;

/// A segment function: it runs any job whose page's bytes it is given. What it does is the same for every kind of it, and is said
/// here once; a book stores one and promises of all its jobs what is promised here of each.
pub trait SegmentRun: Drop {
    /// The rules by which messages are made, the number of vertices, and whether entries have weights.
    ghost work: { Self → Work };

    /// Whether entries have weights.
    fn is_weighted(&self) -> bool
        ensures { result ≡ (work self.now).weighted };

    /// Sends the messages along the entries of the job's segment, in order, of those entries that lead to a vertex. It counts
    /// each of these entries, and answers the first of the others. It takes no memory.
    fn run<T: Tally>(&self, job: &Job, bytes: &[u8], outbox: &mut Outbox, tally: &mut T) -> Step
        requires page { length bytes.now ≡ PAGE_BYTES }
        requires job { IsJob (work self.now) job.now }
        requires vertices { outbox.old.map.n ≡ (work self.now).n }
        requires room { HasRoom (entry_count (work self.now) job.now) outbox.old }
        requires counted { T.entries tally.old + entry_count (work self.now) job.now < 2 ^ 64 }
        ensures sent { Sends outbox.old outbox.new (messages_in (work self.now) bytes.now job.now) }
        ensures room { (k : ℕ) → HasRoom (k + entry_count (work self.now) job.now) outbox.old → HasRoom k outbox.new }
        ensures runs { T.runs tally.new ≡ T.runs tally.old }
        ensures entries { T.entries tally.new ≡ T.entries tally.old + length (messages_in (work self.now) bytes.now job.now) }
        ensures bad { result ≡ Done (bad_in (work self.now) bytes.now job.now) };
}
