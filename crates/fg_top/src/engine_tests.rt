//! `flash` running on images that it built, by one worker and by many, over caches of one page and of many: the texts are the
//! same by any engine, what is read of the drives and in which order, and who waits for whom.

use crate::test_calls::{
    COMPONENTS, EDGES, LEVELS, Lines, Log, NO_DRIVE_FAILS, NONE, call, drive, ends, is_log,
};
use fg_outside::{Board, GateDrive};
use std::alloc::Global;
use std::process::Abort;
use std::sync::{Arc, Wait};
use std::test::Fail;
use std::thread::Threads;

/// A run on an image that is built first, and what the run leaves.
#[derive(Clone, Copy)]
struct Run {
    build: &'static str,
    edges: &'static str,
    /// Vertices, each of which leads to each of the first so many, behind these edges.
    fans: &'static [(u32, u32)],
    /// For each drive, which of its reads waits, from 1 or 0 for none, and how many reads the other drive has begun by then.
    waits: &'static [(u32, u32)],
    line: &'static str,
    lines: Lines,
    /// The reads of each drive, where they have one order; else none.
    logs: &'static [Log],
    tally: (u64, u64),
}

/// Levels of the diamond on one drive.
const RUN: Run = Run {
    build: "build D0",
    edges: EDGES,
    fans: &[],
    waits: &[(0, 0)],
    line: "run --program bfs --source 0 D0",
    lines: LEVELS,
    logs: &[],
    tally: (5, 5),
};

/// The text of the edges of the row.
fn text(alloc: Global, run: &Run) -> Result<String, Fail> {
    let mut text = String::from_str(alloc, run.edges)?;
    for (v, count) in run.fans {
        for target in 0..*count {
            let line = format!(in alloc; "{v} {target}\n")?;
            text.push_str(line.as_str())?;
        }
    }
    Ok(text)
}

/// Empty drives as the row has them. Each waits for drive 1, which waits for drive 0.
fn drives(alloc: Global, run: &Run) -> Result<Vec<GateDrive>, Fail> {
    let board = Arc::new(alloc, Board::new(alloc, 2)?)?;
    let mut all = Vec::new(alloc);
    for (number, (nth, reads)) in run.waits.iter().enumerate() {
        let drive = drive(alloc, number, 0, NO_DRIVE_FAILS)?;
        let (own, other) = if number == 1 { (1, 0) } else { (0, 1) };
        let seen = Arc::try_clone(&board)?;
        all.push(GateDrive::new(drive, own, seen, *nth, other, *reads))?;
    }
    Ok(all)
}

/// Builds and runs, and looks at what the run left.
fn runs<R: Wait + Threads + Sync + Abort>(rt: &R, alloc: Global, run: &Run) -> Result<(), Fail> {
    let text = text(alloc, run)?;
    let empty = drives(alloc, run)?;
    let built = call(rt, alloc, run.build, text.as_str(), empty, NONE)?;
    let left = call(rt, alloc, run.line, "", built.drives, NONE)?;
    ends(rt, run.line, &left, 0, run.lines);
    for (drive, log) in left.drives.iter().zip(run.logs) {
        assert!(rt; is_log(drive.log(), log), "{}", run.line);
    }
    assert_eq!(rt; left.tally, run.tally, "{}", run.line);
    Ok(())
}

/// Levels of the diamond on three drives.
const THREE: Run = Run {
    build: "build --unit 2 D0 D1 D2",
    waits: &[(0, 0), (0, 0), (0, 0)],
    ..RUN
};

/// The engines by which a run comes to the same.
const ENGINES: &[Run] = &[
    Run {
        line: "run --program bfs --source 0 --workers 1 --sets 1 --ways 1 D0 D1 D2",
        ..THREE
    },
    Run {
        line: "run --program bfs --source 0 --workers 2 --sets 1 --ways 1 D0 D1 D2",
        ..THREE
    },
    Run {
        line: "run --program bfs --source 0 --workers 8 --sets 1 --ways 1 D0 D1 D2",
        ..THREE
    },
    Run {
        line: "run --program bfs --source 0 --workers 1 --sets 64 --ways 8 D0 D1 D2",
        ..THREE
    },
    Run {
        line: "run --program bfs --source 0 --workers 2 --sets 64 --ways 8 D0 D1 D2",
        ..THREE
    },
    Run {
        line: "run --program bfs --source 0 --workers 8 --sets 64 --ways 8 D0 D1 D2",
        ..THREE
    },
    Run {
        line: "run --program bfs --source 0 --workers 2 --shift 0 --depth 1 D0 D1 D2",
        ..THREE
    },
    Run {
        line: "run --program bfs --source 0 --workers 8 --shift 0 --helpers D0 D1 D2",
        ..THREE
    },
];

#[test]
fn prints_the_same_by_any_engine(rt: HostRuntime) -> Result<(), Fail> {
    for run in ENGINES {
        runs(&rt, rt.alloc(), run)?;
    }
    Ok(())
}

/// Levels from the middle of a star: vertex 0 leads to itself and to each of 1024 others. Its list is on the pages 1 and 2.
const STAR: Run = Run {
    edges: "",
    fans: &[(0, 1025)],
    lines: &[
        "program bfs vertices 1025 out 1025 in 1025\n",
        "iteration 0 phase 0 active 1 messages 1025\n",
        "iteration 1 phase 0 active 1024 messages 0\n",
        "settled 2\n",
        "sum 1024\n",
    ],
    tally: (1025, 1025),
    ..RUN
};

/// Components of the diamond, for which both pages of lists are needed.
const WHOLE: Run = Run {
    lines: COMPONENTS,
    tally: (12, 23),
    ..RUN
};

/// Runs with a cache of one page.
const ONE_PAGE: &[Run] = &[
    Run {
        line: "run --program bfs --source 0 --sets 1 --ways 1 D0",
        logs: &[&[(0, 1), (1, 1), (4, 1), (2, 1)]],
        ..RUN
    },
    Run {
        line: "run --program bfs --source 0 --sets 1 --ways 1 --quiet D0",
        logs: &[&[(0, 1), (1, 1), (6, 1), (2, 1), (3, 1)]],
        ..STAR
    },
    Run {
        line: "run --program wcc --workers 1 --sets 1 --ways 1 D0",
        logs: &[&[
            (0, 1),
            (1, 1),
            (4, 1),
            (2, 1),
            (3, 1),
            (2, 1),
            (3, 1),
            (2, 1),
            (3, 1),
        ]],
        ..WHOLE
    },
];

#[test]
fn reads_a_page_again_once_it_left_the_cache(rt: HostRuntime) -> Result<(), Fail> {
    for run in ONE_PAGE {
        runs(&rt, rt.alloc(), run)?;
    }
    Ok(())
}

/// Runs with a cache of four pages.
const FOUR_PAGES: &[Run] = &[
    Run {
        line: "run --program bfs --source 0 --workers 1 --sets 1 --ways 4 --quiet D0",
        logs: &[&[(0, 1), (1, 1), (6, 1), (2, 2)]],
        ..STAR
    },
    Run {
        line: "run --program wcc --workers 1 --sets 1 --ways 4 D0",
        logs: &[&[(0, 1), (1, 1), (4, 1), (2, 2)]],
        ..WHOLE
    },
];

#[test]
fn reads_pages_beside_each_other_at_once(rt: HostRuntime) -> Result<(), Fail> {
    for run in FOUR_PAGES {
        runs(&rt, rt.alloc(), run)?;
    }
    Ok(())
}

/// A run of two workers, each of which reads while the other does: each drive's third read, the first of the run, waits for the
/// other's.
const TOGETHER: Run = Run {
    build: "build --unit 1 D0 D1",
    edges: "",
    fans: &[(0, 1024), (1, 1024)],
    waits: &[(3, 3), (3, 3)],
    line: "run --program rank --workers 2 --shift 0 --quiet D0 D1",
    lines: &[
        "program rank vertices 1024 out 2048 in 2048\n",
        "iteration 0 phase 0 active 1024 messages 2048\n",
        "settled 1\n",
        "sum 161060864\n",
    ],
    tally: (1024, 2048),
    ..RUN
};

/// Another, where all vertices with entries are of the first worker, whose first read waits until the other worker has read the
/// lists that it took over.
const STOLEN: Run = Run {
    build: "build --unit 4 D0 D1",
    edges: "",
    fans: &[(0, 3072), (2, 1024), (4, 1024), (6, 1024), (8, 1024)],
    waits: &[(4, 6), (0, 0)],
    line: "run --program rank --workers 2 --shift 0 --quiet D0 D1",
    lines: &[
        "program rank vertices 3072 out 7168 in 7168\n",
        "iteration 0 phase 0 active 3072 messages 7168\n",
        "settled 1\n",
        "sum 483182592\n",
    ],
    tally: (3072, 7168),
    ..RUN
};

/// Both, also with queues of one load.
const GATES: &[Run] = &[
    TOGETHER,
    Run {
        line: "run --program rank --workers 2 --shift 0 --depth 1 --quiet D0 D1",
        ..TOGETHER
    },
    STOLEN,
    Run {
        line: "run --program rank --workers 2 --shift 0 --depth 1 --quiet D0 D1",
        ..STOLEN
    },
];

#[test]
fn two_workers_read_at_once(rt: HostRuntime) -> Result<(), Fail> {
    for run in GATES {
        runs(&rt, rt.alloc(), run)?;
    }
    Ok(())
}
