//! What is left to do for one segment of a list.

ghost use Rattle.std.specs.Prelude.{◌≡◌};
ghost use Rattle.fg_edges.specs.Segment.{count_of};
ghost use Rattle.fg_task.specs.declared.job.Step.TheVariants.{Done as TheDone};

use fg_base::{BadEdge, Dir};
use fg_edges::Segment;
use fg_image::entry_bytes;

/// Messages that are still to be sent: those along the entries of a segment of the list `dir` of `vertex`, made from the carry of
/// its run.
#[derive(Clone, Copy, PartialEq, Eq, Debug)]
pub struct Job {
    pub vertex: u32,
    pub dir: Dir,
    pub carry: u64,
    pub segment: Segment,
}

impl Job {
    /// How many entries its segment has.
    pub(crate) fn entries(&self, weighted: bool) -> u32
        ensures { result ≡ count_of weighted self.now.segment }
    {
        let bytes = self.segment.to.saturating_sub(self.segment.from);
        bytes / entry_bytes(weighted) as u32
    }
}

/// What came of running a job.
#[derive(Clone, Copy, PartialEq, Eq, Debug)]
pub enum Step {
    /// It is done. The edge is the first of its entries that leads to no vertex.
    Done(Option<BadEdge>),
}

impl Step {
    /// The first of its entries that leads to no vertex.
    pub fn bad(self) -> Option<BadEdge>
        ensures { self ≡ TheDone result }
    {
        match self {
            Step::Done(bad) => bad,
        }
    }
}
