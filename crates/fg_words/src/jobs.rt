//! What the words of the command line ask for.

ghost use Rattle.std.specs.Prelude.{◌≡◌};
ghost use Rattle.fg_words.specs.Jobs.{is_still};
ghost use Rattle.fg_words.specs.declared.jobs.JobFault.TheVariants.{Memory as WantOfMemory};

use fg_base::WordFault;
use std::alloc::AllocError;

/// A vertex program with its source or its cut.
#[derive(Clone, Copy, PartialEq, Eq, Debug)]
pub enum Pick {
    Bfs(u32),
    Sssp(u32),
    Wcc,
    Core,
    Rank(u64),
}

/// What the words ask for.
#[derive(Clone, Copy, PartialEq, Eq, Debug)]
pub enum Job {
    /// The image of a text's edges is built over the drives, in units of `unit` pages, from 1 to 256.
    Build {
        unit: u32,
        number: u64,
        /// Whether each edge of the text counts both ways.
        undirected: bool,
    },
    /// A run of the program over the drives, of at most `max` iterations, from 1.
    Run {
        pick: Pick,
        max: u32,
        /// Whether the values are printed after each iteration.
        each: bool,
        /// Whether their sum is printed in place of the values at the end.
        quiet: bool,
        /// How many workers share the vertices, from 1 to 64.
        workers: u32,
        /// How many sets of pages the cache has, from 1; with `ways` they make at most 2^18 frames.
        sets: u32,
        /// How many pages a set holds, from 1 to 16.
        ways: u32,
        /// How many loads a drive's queue holds, from 1 to 1024.
        depth: u32,
        /// A block has 2^shift vertices, of a shift of at most 16.
        shift: u32,
        /// Whether each drive has a thread of its own that reads it, beside the workers.
        helpers: bool,
        /// Whether a line is printed of what was read and run.
        stats: bool,
    },
    /// The same on a graph that is read whole into memory first.
    Ref {
        pick: Pick,
        max: u32,
        each: bool,
        quiet: bool,
    },
    /// The image on the drives is checked.
    Check,
    /// A text of generated edges is written, of at most 2^26 edges between 1 to 2^24 vertices.
    Gen {
        start: u64,
        nodes: u32,
        edges: u32,
    },
    /// A run on such edges, whose image is built on 1 to 16 drives in memory first.
    Large {
        pick: Pick,
        max: u32,
        workers: u32,
        sets: u32,
        ways: u32,
        depth: u32,
        shift: u32,
        helpers: bool,
        unit: u32,
        undirected: bool,
        start: u64,
        nodes: u32,
        edges: u32,
        drives: u32,
    },
}

impl Job {
    /// Whether the job is done on the caller's thread and never waits.
    pub fn is_still(&self) -> bool
        ensures { result ≡ is_still self.now }
    {
        match self {
            Job::Run { .. } | Job::Large { .. } => false,
            Job::Build { .. } | Job::Ref { .. } | Job::Check | Job::Gen { .. } => true,
        }
    }
}

/// How edges are generated: from this number, between so many vertices, so many of them, and whether each counts both ways.
#[derive(Clone, Copy, PartialEq, Eq, Debug)]
pub struct Recipe {
    pub start: u64,
    pub nodes: u32,
    pub edges: u32,
    pub undirected: bool,
}

/// Why the words give no job.
#[derive(Clone, Copy, PartialEq, Eq, Debug)]
pub enum JobFault {
    Memory,
    Words(WordFault),
}

impl From<AllocError> for JobFault {
    ghost from_gives = { λ _ fault. fault ≡ WantOfMemory };

    fn from(_error: AllocError) -> JobFault {
        JobFault::Memory
    }
}
