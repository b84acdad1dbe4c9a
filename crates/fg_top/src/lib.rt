//! The jobs of the program, and `flash`, the one call that it makes.
//!
//! It stands on everything below; nothing but the program stands above, which names `flash`, and `job`, `drive_names`
//! and `input_name` of `fg_words`, which are handed on here. What a call of `flash` leaves is stated in `specs/Keeping.antt`: how a call keeps the promise
//! of its job. `specs/Promise.antt` names what a job promises, a file for each job (`specs/BuildJob.antt` and so on) states its
//! own, and `specs/JobPromises.antt` gives the promise of each job and of words.
#![tactic(auto)]

ghost use Rattle.std.specs.Prelude.{◌≡◌, ◌≤◌, ◌^◌, length, map, string_bytes};
ghost use Rattle.fg_engine.specs.Tallies.{tally_between};
ghost use Rattle.fg_top.specs.Calls.{call_of};
ghost use Rattle.fg_top.specs.JobPromises.{promised};
ghost use Rattle.fg_top.specs.Keeping.{Keeps, Tallies};
ghost use Rattle.fg_words.specs.Words.{names_of};

mod building;
mod built_line;
mod checked_line;
mod checking;
mod engine;
#[cfg(test)]
mod engine_tests;
#[cfg(test)]
mod fault_tests;
#[cfg(test)]
mod flush_tests;
mod generating;
mod in_memory;
#[cfg(test)]
mod job_tests;
mod large;
mod opening;
mod picked;
mod report;
mod run;
mod stats;
#[cfg(test)]
mod stats_tests;
mod still_jobs;
#[cfg(test)]
mod test_calls;
#[cfg(test)]
mod test_images;
#[cfg(test)]
mod tests;
mod wish;

use crate::engine::Engine;
use crate::large::large_job;
use crate::report::{refusal_of_words, refuse};
use crate::run::run_job;
use crate::wish::Wish;
use fg_base::Tally;
use fg_outside::{Drive, Sink, Source};
pub use fg_words::{Job, JobFault, Pick, Recipe, drive_names, input_name, job};
use std::alloc::Global;
use std::sync::Wait;
use std::thread::Threads;
pub use still_jobs::still;

/// Does the job that the words ask for, over these drives, and answers the program's status. The words are those after
/// the program's name, and there are as many drives as they name.
///
/// The status is 0 where the job's text was written, and that of the refusal whose line was written in its place, or 4
/// where the output failed.
pub fn flash<R: Wait + Threads + Sync, S: Source, D: Drive + Send, K: Sink, T: Tally + Send>(
    rt: &R,
    alloc: Global,
    words: &Vec<String>,
    input: &mut S,
    drives: &mut Vec<D>,
    out: &mut K,
    tally: &mut T,
) -> u8
    requires named { length drives.old.items ≡ length (names_of (map string_bytes words.now.items)) }
    requires room_of_runs { T.runs tally.old ≤ 2 ^ 62 }
    requires room_of_entries { T.entries tally.old ≤ 2 ^ 62 }
    // The status and its cause, the text, the drives and what was read of them, the input, and what the values mean.
    ensures kept { Keeps (promised words.now.items)
        (call_of D.Drive S.Source K.Sink drives.old.items drives.new.items input.old input.new out.old out.new result) }
    // With what the job ran on drives the tally rose, and with nothing else.
    ensures tally { Tallies (promised words.now.items) D.Drive drives.old.items (tally_between T.Tally tally.old tally.new) result }
    // The stats that were printed count what was read of the drives once they were opened, and by how much the tally rose.
    ensures stats { (promised words.now.items).of_stats
        (call_of D.Drive S.Source K.Sink drives.old.items drives.new.items input.old input.new out.old out.new result)
        (tally_between T.Tally tally.old tally.new) }
{
    let job = match job(alloc, words) {
        Ok(job) => job,
        Err(fault) => return refuse(out, refusal_of_words(fault)),
    };
    let Some(engine) = Engine::of(&job) else {
        return still(alloc, &job, input, drives, out);
    };
    match job {
        Job::Run {
            pick,
            max,
            each,
            quiet,
            stats,
            ..
        } => {
            let wish = Wish::new(pick, max, each, quiet);
            run_job(rt, alloc, wish, engine, stats, drives, out, tally)
        }
        Job::Large {
            pick,
            max,
            unit,
            undirected,
            start,
            nodes,
            edges,
            drives: count,
            ..
        } => {
            let wish = Wish::new(pick, max, false, true);
            let recipe = Recipe {
                start,
                nodes,
                edges,
                undirected,
            };
            large_job(rt, alloc, wish, engine, recipe, unit, count, out, tally)
        }
        Job::Build { .. } | Job::Ref { .. } | Job::Check | Job::Gen { .. } => unreachable!(),
    }
}
