//! What a worker has to do for a block.

ghost use Rattle.std.specs.Prelude.{◌≡◌, ℕ, ◌+◌, ◌^◌, ◌<◌, ◌≤◌, [], IfOk, OnErr, OnOk, length};
ghost use Rattle.fg_base.specs.declared.limits.TheConstants.{PAGE_BYTES};
ghost use Rattle.fg_batch.specs.Outbox.{HasRoom, Sends};
ghost use Rattle.fg_task.specs.Book.{ArePagesOf, jobs_of, jobs_on, with_job, without_page};
ghost use Rattle.fg_task.specs.Jobs.{IsJob, entry_count};
ghost use Rattle.fg_task.specs.Least.{IsLeastBad};
ghost use Rattle.fg_task.specs.Running.{edges_of, entries_in, entries_of, messages_of};

use crate::counting::added;
use crate::job::Job;
use crate::least::lesser;
use crate::page_jobs::PageJobs;
use crate::segment_run::SegmentRun;
use crate::spent::{Number, Sent, Spent, none, picked};
use fg_base::{BadEdge, Dir, Memory, Tally};
use fg_batch::Outbox;
use std::alloc::Global;
use std::marker::{Brand, Model};
use std::snapshot::Snapshot;

/// The jobs of a block by the pages that they wait for, and the function that runs them. Contracts see both, and how many messages
/// were sent, which takes no room.
#[derive(Drop)]
pub struct TaskBook<F: SegmentRun> {
    function: F,
    outs: PageJobs,
    ins: PageJobs,
    sent: Snapshot<Sent>,
}

impl<F: SegmentRun> Model for TaskBook<F> {
    ghost use Rattle.std.specs.Prelude.{All};
    ghost use Rattle.fg_task.specs.Book.{Book};
    ghost use Rattle.fg_task.specs.Jobs.{IsJob};

    ghost Value = { Book F };

    ghost view = { λ inside. record { function = inside.function; outs = inside.outs; ins = inside.ins; sent = inside.sent.value.messages } };

    ghost invariant = { λ inside. All (IsJob (F.work inside.function)) inside.outs × All (IsJob (F.work inside.function)) inside.ins };
}

impl<F: SegmentRun> TaskBook<F> {
    /// Nothing to do, for this function.
    pub fn new(alloc: Global, function: F) -> TaskBook<F>
        ensures { result ≡ record { function = function; outs = []; ins = []; sent = 0 } }
    {
        TaskBook {
            function,
            outs: PageJobs::new(alloc),
            ins: PageJobs::new(alloc),
            sent: none(),
        }
    }

    /// Adds a job. Jobs of the lists of one direction are best added by ascending page; in any other order a page costs a look
    /// at each of them.
    pub fn add(&mut self, job: Job) -> Result<(), Memory>
        requires { IsJob (F.work self.old.function) job }
        ensures ok { OnOk result (self.new ≡ with_job job.dir job self.old) }
        ensures more { OnOk result (entries_in F.work self.new ≡ entries_in F.work self.old + entry_count (F.work self.old.function) job) }
        ensures err { OnErr result (self.new ≡ self.old) }
    {
        match job.dir {
            Dir::Out => self.outs.add(job),
            Dir::In => self.ins.add(job),
        }
    }

    /// The pages that jobs wait for, ascending and each once.
    pub fn pages(&self, alloc: Global) -> Result<Vec<u32>, Memory>
        ensures { IfOk result (λ pages. ArePagesOf (jobs_of self.now) pages.items) }
    {
        let mut pages = Vec::new(alloc);
        self.outs.tell_pages(&mut pages)?;
        self.ins.tell_pages(&mut pages)?;
        pages.sort_unstable();
        pages.dedup();
        Ok(pages)
    }

    /// Takes memory for the outbox, after which the jobs that wait for a page can be run. What was sent stays, and no room is lost.
    pub fn make_room(&self, page: u32, outbox: &mut Outbox) -> Result<(), Memory>
        ensures sent { Sends outbox.old outbox.new [] }
        ensures ok { OnOk result (HasRoom (entries_of (F.work self.now.function) (jobs_on page self.now)) outbox.new) }
        ensures kept { (k : ℕ) → HasRoom k outbox.old → HasRoom k outbox.new }
        ensures few { entries_of (F.work self.now.function) (jobs_on page self.now) ≤ entries_in F.work self.now }
    {
        let outs = self.outs.entries_on(&self.function, page)?;
        let ins = self.ins.entries_on(&self.function, page)?;
        outbox.reserve(added(outs, ins)?)
    }

    /// Runs the jobs that wait for a page on its bytes, and takes them out. What each does is what its function says of it.
    /// The answer is the least bad edge of them all. It takes no memory.
    pub fn run_on<T: Tally>(
        &mut self,
        page: u32,
        bytes: &[u8],
        outbox: &mut Outbox,
        tally: &mut T,
    ) -> Option<BadEdge>
        requires page { length bytes.now ≡ PAGE_BYTES }
        requires vertices { outbox.old.map.n ≡ (F.work self.old.function).n }
        requires room { HasRoom (entries_of (F.work self.old.function) (jobs_on page self.old)) outbox.old }
        requires counted { T.entries tally.old + entries_of (F.work self.old.function) (jobs_on page self.old) < 2 ^ 64 }
        ensures left { self.new ≡ without_page page (length (messages_of (F.work self.old.function) bytes.now (jobs_on page self.old))) self.old }
        ensures sent { Sends outbox.old outbox.new (messages_of (F.work self.old.function) bytes.now (jobs_on page self.old)) }
        ensures room { (k : ℕ) → HasRoom (k + entries_of (F.work self.old.function) (jobs_on page self.old)) outbox.old → HasRoom k outbox.new }
        ensures runs { T.runs tally.new ≡ T.runs tally.old }
        ensures entries { T.entries tally.new ≡ T.entries tally.old
            + length (messages_of (F.work self.old.function) bytes.now (jobs_on page self.old)) }
        ensures fewer { T.entries tally.new + entries_in F.work self.new ≤ T.entries tally.old + entries_in F.work self.old }
        ensures bad { IsLeastBad (F.work self.old.function).n (edges_of (F.work self.old.function) bytes.now (jobs_on page self.old)) result }
    {
        let sent = sent_after::<F, Brand>(self, page, bytes);
        let first = self.outs.run_on(&self.function, page, bytes, outbox, tally);
        let second = self.ins.run_on(&self.function, page, bytes, outbox, tally);
        self.sent = sent;
        lesser(first, second)
    }

    /// Nothing more is to be done: the slip tells how many messages were sent. It takes no memory.
    pub fn finish(self) -> Spent
        ensures { result.sent ≡ self.sent }
    {
        let TaskBook { sent, .. } = self;
        Spent::of(sent)
    }
}

// The number is picked from what is passed, for that alone.
fn sent_after<F: SegmentRun, N: Number>(
    _book: &TaskBook<F>,
    _page: u32,
    _bytes: &[u8],
) -> Snapshot<Sent>
    ensures { result.value.messages ≡ N.messages }
{
    picked::<N>()
}
