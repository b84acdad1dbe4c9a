//! The engine that a run is done by.

ghost use Rattle.std.specs.Prelude.{◌≡◌, MatchOption, false, true};
ghost use Rattle.fg_engine.specs.Options.{AreOptions};
ghost use Rattle.fg_top.specs.Engines.{FitsLimits};
ghost use Rattle.fg_words.specs.Jobs.{JobFits, is_still};

use fg_engine::{BOUNDS, Options};
use fg_words::Job;

/// By how many workers a run is done, over a cache of how many sets of how many pages, with how many loads waiting for a
/// drive, in blocks of 2^`shift` vertices, and whether each drive is served beside them. What the run comes to is the same by any.
#[derive(Clone, Copy, PartialEq, Eq, Debug)]
pub struct Engine {
    pub workers: u32,
    pub sets: u32,
    pub ways: u32,
    pub depth: u32,
    pub shift: u32,
    pub helpers: bool,
}

impl Engine {
    /// The engine of a job that runs by one; the others are still.
    pub fn of(job: &Job) -> Option<Engine>
        requires { JobFits job.now }
        ensures { MatchOption result (is_still job.now ≡ true)
            (λ engine. (is_still job.now ≡ false) × FitsLimits engine) }
    {
        match *job {
            Job::Run {
                workers,
                sets,
                ways,
                depth,
                shift,
                helpers,
                ..
            }
            | Job::Large {
                workers,
                sets,
                ways,
                depth,
                shift,
                helpers,
                ..
            } => Some(Engine {
                workers,
                sets,
                ways,
                depth,
                shift,
                helpers,
            }),
            Job::Build { .. } | Job::Ref { .. } | Job::Check | Job::Gen { .. } => None,
        }
    }

    /// The options of a run of at most `max` iterations.
    pub fn options(&self, max: u32) -> Options
        requires { FitsLimits self.now }
        ensures options { AreOptions result }
        ensures max { result.max ≡ max }
    {
        Options {
            max,
            workers: self.workers,
            sets: self.sets,
            ways: self.ways,
            depth: self.depth,
            shift: self.shift,
            helpers: self.helpers,
            bounds: BOUNDS,
        }
    }
}
