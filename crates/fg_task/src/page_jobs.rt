//! Jobs by the pages that they wait for.

ghost use Rattle.std.specs.Prelude.{◌≡◌, ◌++◌, ◌∷◌, [], IfOk, OnErr, OnOk, filter};
ghost use Rattle.fg_task.specs.Book.{Tells};
ghost use Rattle.fg_task.specs.Jobs.{is_elsewhere, is_on};
ghost use Rattle.fg_task.specs.Running.{CanRun, HasRun, entries_of};

use crate::counting::count_groups;
use crate::group::{Group, ends_at, lengthen, places_of, still_ascends, tell};
use crate::job::Job;
use crate::running::run_groups;
use crate::segment_run::SegmentRun;
use fg_base::{BadEdge, Memory, Tally};
use fg_batch::Outbox;
use std::alloc::Global;
use std::marker::Model;

/// Jobs in the order in which they were added. Where that is the order of their pages, as for the lists of one direction, all jobs
/// of a page are one group, and a page is found by halving. Contracts see the jobs that wait.
#[derive(Drop)]
pub(crate) struct PageJobs {
    jobs: Vec<Job>,
    groups: Vec<Group>,
    ascending: bool,
}

impl Model for PageJobs {
    ghost use Rattle.std.specs.Prelude.{List};
    ghost use Rattle.fg_task.specs.declared.job.Job.{Job};
    ghost use Rattle.fg_task.specs.Groups.{AreGroups, waiting};

    ghost Value = { List Job };

    ghost view = { λ inside. waiting inside.jobs.items inside.groups.items };

    ghost invariant = { λ inside. AreGroups inside.jobs.items inside.groups.items inside.ascending };
}

impl PageJobs {
    /// No jobs.
    pub fn new(alloc: Global) -> PageJobs
        ensures { result ≡ [] }
    {
        PageJobs {
            jobs: Vec::new(alloc),
            groups: Vec::new(alloc),
            ascending: true,
        }
    }

    /// Puts a job behind the others.
    pub fn add(&mut self, job: Job) -> Result<(), Memory>
        ensures ok { OnOk result (self.new ≡ self.old ++ job ∷ []) }
        ensures err { OnErr result (self.new ≡ self.old) }
    {
        self.groups.reserve(1)?;
        let at = self.jobs.len();
        self.jobs.push(job)?;
        let page = job.segment.page;
        if ends_at(&self.groups, page, at) {
            lengthen(&mut self.groups, at + 1);
            return Ok(());
        }
        self.ascending = still_ascends(&self.groups, self.ascending, page);
        self.groups.push_reserved(Group {
            page,
            from: at,
            to: at + 1,
        });
        Ok(())
    }

    /// Puts the pages that jobs wait for behind `pages`.
    pub fn tell_pages(&self, pages: &mut Vec<u32>) -> Result<(), Memory>
        ensures ok { OnOk result (Tells self.now pages.old.items pages.new.items) }
    {
        tell(&self.groups, pages)?;
        Ok(())
    }

    /// How many entries the jobs that wait for a page have.
    pub fn entries_on<F: SegmentRun>(&self, function: &F, page: u32) -> Result<usize, Memory>
        ensures { IfOk result (λ count. count ≡ entries_of (F.work function.now) (filter (is_on page) self.now)) }
    {
        let places = places_of(&self.groups, self.ascending, page);
        count_groups(function, &self.jobs, &self.groups, places, page)
    }

    /// Runs the jobs that wait for a page, whose bytes are given, and takes them out. It takes no memory.
    pub fn run_on<F: SegmentRun, T: Tally>(
        &mut self,
        function: &F,
        page: u32,
        bytes: &[u8],
        outbox: &mut Outbox,
        tally: &mut T,
    ) -> Option<BadEdge>
        requires { CanRun (F.work function.now) bytes.now (filter (is_on page) self.old) outbox.old (T.entries tally.old) }
        ensures left { self.new ≡ filter (is_elsewhere page) self.old }
        ensures run { HasRun (F.work function.now) bytes.now (filter (is_on page) self.old) outbox.old outbox.new
            (T.entries tally.old) (T.entries tally.new) result }
        ensures runs { T.runs tally.new ≡ T.runs tally.old }
    {
        let places = places_of(&self.groups, self.ascending, page);
        run_groups(
            function,
            &self.jobs,
            &mut self.groups,
            places,
            page,
            bytes,
            outbox,
            tally,
        )
    }
}
