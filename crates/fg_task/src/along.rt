//! The segment function of a vertex program.

ghost use Rattle.fg_task.specs.Jobs.{work_of};

use crate::job::{Job, Step};
use crate::segment_run::SegmentRun;
use fg_base::{BadEdge, Tally};
use fg_batch::Outbox;
use fg_edges::entries;
use fg_model::Program;

/// Sends the messages of a program in a graph of `n` vertices, whose entries are `weighted` or not.
#[derive(Drop)]
pub struct Along<'a, P: Program> {
    pub program: &'a P,
    pub n: u32,
    pub weighted: bool,
}

impl<'a, P: Program> SegmentRun for Along<'a, P> {
    ghost work = { λ along. work_of (P.rules along.program.now) along.n along.weighted };

    fn is_weighted(&self) -> bool {
        self.weighted
    }

    fn run<T: Tally>(&self, job: &Job, bytes: &[u8], outbox: &mut Outbox, tally: &mut T) -> Step {
        let mut bad = None;
        let mut place = job.segment.place;
        for entry in entries(bytes, job.segment, self.weighted) {
            let here = place;
            place += 1;
            if entry.target < self.n {
                let message = self.program.edge(job.carry, job.dir, entry, tally);
                outbox.send(entry.target, message);
                continue;
            }
            bad = bad.or(Some(BadEdge {
                v: job.vertex,
                dir: job.dir,
                place: here,
                found: entry.target,
            }));
        }
        Step::Done(bad)
    }
}
