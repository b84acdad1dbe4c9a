//! Jobs that are done on the caller's thread and never wait.

ghost use Rattle.std.specs.Prelude.{◌≡◌, true, length};
ghost use Rattle.fg_top.specs.Calls.{call_of};
ghost use Rattle.fg_top.specs.JobPromises.{promise_of};
ghost use Rattle.fg_words.specs.Jobs.{HasDrives, JobFits, is_still};
ghost use Rattle.fg_top.specs.Keeping.{Keeps};

use crate::building::build_job;
use crate::checking::check_job;
use crate::generating::gen_job;
use crate::in_memory::ref_job;
use crate::wish::Wish;
use fg_outside::{Drive, Sink, Source};
use fg_words::Job;
use std::alloc::Global;

/// Does a job that never waits, and answers the program's status: 0 where its text was written, that of the refusal whose
/// line was written in its place, or 4 where the output failed. It always returns.
pub fn still<S: Source, D: Drive, K: Sink>(
    alloc: Global,
    job: &Job,
    input: &mut S,
    drives: &mut Vec<D>,
    out: &mut K,
) -> u8
    requires is_still { is_still job.now ≡ true }
    requires fits { JobFits job.now }
    requires has_drives { HasDrives job.now (length drives.old.items) }
    // The status and its cause, the text, the drives and what was read of them, the input, and what the values mean.
    ensures kept { Keeps (promise_of job.now)
        (call_of D.Drive S.Source K.Sink drives.old.items drives.new.items input.old input.new out.old out.new result) }
{
    match *job {
        Job::Build {
            unit,
            number,
            undirected,
        } => build_job(alloc, unit, number, undirected, input, drives, out),
        Job::Ref {
            pick,
            max,
            each,
            quiet,
        } => ref_job(alloc, Wish::new(pick, max, each, quiet), drives, out),
        Job::Check => check_job(alloc, drives, out),
        Job::Gen {
            start,
            nodes,
            edges,
        } => gen_job(start, nodes, edges, out),
        Job::Run { .. } | Job::Large { .. } => unreachable!(),
    }
}
