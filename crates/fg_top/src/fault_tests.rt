//! Each call of the outside failing in turn, and the numbers of a drive damaged one by one: what is written, and what the drive
//! holds then. What is done by an engine comes to the same with one worker and with eight, and with helpers beside them.

use crate::test_calls::{
    COMPONENTS, COMPONENTS_FIRST, COMPONENTS_HEAD, COMPONENTS_SECOND, DriveFails, EDGES, Fails,
    LEVELS, LEVELS_HEAD, Lines, NO_DRIVE_FAILS, NONE, call, ends,
};
use crate::test_images::{SOUND, Setting, drives, run};
use fg_build::sample::Numbers;
use fg_outside::DriveOp;
use std::alloc::Global;
use std::process::Abort;
use std::sync::Wait;
use std::test::Fail;
use std::thread::Threads;

/// The calls of drive 0, of the source and of the sink.
#[derive(Clone, Copy, PartialEq, Eq, Debug)]
enum Call {
    Pages,
    Read,
    Append,
    Take,
    Put,
}

impl Call {
    /// The failures of which the call of this number is the one.
    fn at(self, number: u32) -> (DriveFails, Fails) {
        match self {
            Call::Pages => ((0, DriveOp::Pages, number), NONE),
            Call::Read => ((0, DriveOp::Read, number), NONE),
            Call::Append => ((0, DriveOp::Append, number), NONE),
            Call::Take => (
                NO_DRIVE_FAILS,
                Fails {
                    take: number,
                    put: 0,
                },
            ),
            Call::Put => (
                NO_DRIVE_FAILS,
                Fails {
                    take: 0,
                    put: number,
                },
            ),
        }
    }
}

/// The lines of a job, one for each engine, with its input and the pages that the drive holds before.
#[derive(Clone, Copy)]
struct Job {
    lines: Lines,
    input: &'static str,
    pages: usize,
}

/// Levels on the drive of the diamond, of whose lists they need one page.
const RUN: Job = Job {
    lines: &[
        "run --program bfs --source 0 --workers 1 D0",
        "run --program bfs --source 0 --workers 8 --sets 1 --ways 1 D0",
        "run --program bfs --source 0 --workers 8 --sets 1 --ways 1 --helpers D0",
    ],
    input: "",
    pages: 5,
};

const REF: Job = Job {
    lines: &["ref --program bfs --source 0 D0"],
    ..RUN
};

const CHECK: Job = Job {
    lines: &["check D0"],
    ..RUN
};

/// That drive built, from an input that comes byte by byte.
const BUILD: Job = Job {
    lines: &["build D0"],
    input: EDGES,
    pages: 0,
};

const FAILED: &str = "refused: drive 0 failed\n";

const SILENT: &str = "refused: input failed\n";

const BUILT: &str = "built vertices 5 out 5 in 5 plain pages 4 drives 1\n";

const CHECKED: &str = "checked vertices 5 out 5 in 5 plain pages 4 drives 1\n";

/// The job; the call that fails, of which numbers from the first to the last, one in each case; the status; what is written, of
/// which a put that fails leaves what comes before it; and the pages that the drive holds at the end, of which an append that
/// fails leaves those before it.
type Row = (Job, Call, (u32, u32), u8, Lines, usize);

/// Of each call the last row has the first number that no call has.
const CALLS: &[Row] = &[
    (RUN, Call::Pages, (1, 1), 5, &[FAILED], 5),
    (RUN, Call::Pages, (2, 2), 0, LEVELS, 5),
    (RUN, Call::Read, (1, 3), 5, &[FAILED], 5),
    (RUN, Call::Read, (4, 4), 5, &[LEVELS_HEAD, FAILED], 5),
    (RUN, Call::Read, (5, 5), 0, LEVELS, 5),
    (RUN, Call::Take, (1, 1), 0, LEVELS, 5),
    (RUN, Call::Put, (1, 11), 4, LEVELS, 5),
    (RUN, Call::Put, (12, 12), 0, LEVELS, 5),
    (REF, Call::Pages, (1, 1), 5, &[FAILED], 5),
    (REF, Call::Read, (1, 7), 5, &[FAILED], 5),
    (REF, Call::Read, (8, 8), 0, LEVELS, 5),
    (REF, Call::Put, (1, 11), 4, LEVELS, 5),
    (REF, Call::Put, (12, 12), 0, LEVELS, 5),
    (CHECK, Call::Pages, (1, 1), 5, &[FAILED], 5),
    (CHECK, Call::Read, (1, 7), 5, &[FAILED], 5),
    (CHECK, Call::Read, (8, 8), 0, &[CHECKED], 5),
    (CHECK, Call::Put, (1, 1), 4, &[CHECKED], 5),
    (CHECK, Call::Put, (2, 2), 0, &[CHECKED], 5),
    (BUILD, Call::Pages, (1, 1), 5, &[FAILED], 0),
    (BUILD, Call::Pages, (2, 2), 0, &[BUILT], 5),
    (BUILD, Call::Read, (1, 1), 0, &[BUILT], 5),
    (BUILD, Call::Append, (1, 5), 5, &[FAILED], 5),
    (BUILD, Call::Append, (6, 6), 0, &[BUILT], 5),
    (BUILD, Call::Take, (1, 21), 3, &[SILENT], 0),
    (BUILD, Call::Take, (22, 22), 0, &[BUILT], 5),
    (BUILD, Call::Put, (1, 1), 4, &[BUILT], 5),
    (BUILD, Call::Put, (2, 2), 0, &[BUILT], 5),
];

/// Does the job by each engine while the call of this number fails.
fn fails_at<R: Wait + Threads + Sync + Abort>(
    rt: &R,
    alloc: Global,
    row: &Row,
    number: u32,
) -> Result<(), Fail> {
    let (job, failing, _, status, lines, pages) = *row;
    let before = (number as usize).saturating_sub(1);
    let (lines, pages) = match failing {
        Call::Put => (&lines[..before.min(lines.len())], pages),
        Call::Append => (lines, before.min(pages)),
        _ => (lines, pages),
    };
    let after = drives(alloc, Setting { pages, ..SOUND })?;
    let (drive_fails, fails) = failing.at(number);
    for line in job.lines {
        let setting = Setting {
            pages: job.pages,
            drive_fails,
            ..SOUND
        };
        let left = call(rt, alloc, line, job.input, drives(alloc, setting)?, fails)?;
        ends(rt, line, &left, status, lines);
        for (drive, after) in left.drives.iter().zip(&after) {
            assert!(rt; drive.bytes() == after.bytes(), "{line}");
        }
    }
    Ok(())
}

#[test]
fn each_call_fails_in_turn(rt: HostRuntime) -> Result<(), Fail> {
    for row in CALLS {
        let (first, last) = row.2;
        for number in first..=last {
            fails_at(&rt, rt.alloc(), row, number)?;
        }
    }
    Ok(())
}

/// Components on two drives by a cache of one page, which each iteration but the last fills anew from both.
const ONE_PAGE: Lines = &[
    "run --program wcc --workers 1 --sets 1 --ways 1 D0 D1",
    "run --program wcc --workers 8 --sets 1 --ways 1 D0 D1",
];

const OTHER_FAILED: &str = "refused: drive 1 failed\n";

/// The drive of which a read fails, which of its reads, the status and the text.
const READS: &[(usize, u32, u8, Lines)] = &[
    (0, 1, 5, &[FAILED]),
    (0, 2, 5, &[FAILED]),
    (0, 3, 5, &[COMPONENTS_HEAD, FAILED]),
    (0, 4, 5, &[COMPONENTS_HEAD, COMPONENTS_FIRST, FAILED]),
    (
        0,
        5,
        5,
        &[COMPONENTS_HEAD, COMPONENTS_FIRST, COMPONENTS_SECOND, FAILED],
    ),
    (0, 6, 0, COMPONENTS),
    (1, 1, 5, &[OTHER_FAILED]),
    (1, 2, 5, &[OTHER_FAILED]),
    (1, 3, 5, &[COMPONENTS_HEAD, OTHER_FAILED]),
    (1, 4, 5, &[COMPONENTS_HEAD, COMPONENTS_FIRST, OTHER_FAILED]),
    (
        1,
        5,
        5,
        &[
            COMPONENTS_HEAD,
            COMPONENTS_FIRST,
            COMPONENTS_SECOND,
            OTHER_FAILED,
        ],
    ),
    (1, 6, 0, COMPONENTS),
];

#[test]
fn names_the_drive_that_fails(rt: HostRuntime) -> Result<(), Fail> {
    for (drive, read, status, lines) in READS {
        let setting = Setting {
            drives: 2,
            drive_fails: (*drive, DriveOp::Read, *read),
            ..SOUND
        };
        for line in ONE_PAGE {
            run(&rt, rt.alloc(), line, setting, *status, lines)?;
        }
    }
    Ok(())
}

/// The pages that the drive holds, those of the image by its label, numbers of the image that are set otherwise, and the text.
const DAMAGES: &[(usize, u32, Numbers, &str)] = &[
    (0, 4, &[], "refused: drive 0 has no label\n"),
    (1, 4, &[], "refused: drive 0 has 1 pages, needs 5\n"),
    (2, 4, &[], "refused: drive 0 has 2 pages, needs 5\n"),
    (3, 4, &[], "refused: drive 0 has 3 pages, needs 5\n"),
    (4, 4, &[], "refused: drive 0 has 4 pages, needs 5\n"),
    (5, 5, &[], "refused: drive 0 has 5 pages, needs 6\n"),
    // the vertices, the out-entries, their bytes of 2^63, and the bytes of the index
    (5, 4, &[(16, 16_777_216)], "refused: bad out index at 0\n"),
    (5, 4, &[(16, 16_777_217)], "refused: bad header\n"),
    (5, 4, &[(24, 67_108_865)], "refused: bad header\n"),
    (5, 4, &[(40, 0), (44, 1 << 31)], "refused: bad sections\n"),
    (5, 4, &[(56, (1 << 27) + 1)], "refused: bad sections\n"),
    (5, 4, &[(56, 19)], "refused: bad in index at 18\n"),
    // of the index the bytes 0, 5 to 8, and 9
    (
        5,
        4,
        &[(12_288, 0x0101_01ff)],
        "refused: bad out index at 5\n",
    ),
    (5, 4, &[(12_293, u32::MAX)], "refused: bad out index at 5\n"),
    (
        5,
        4,
        &[(12_296, 0x0101_0100)],
        "refused: bad in index at 9\n",
    ),
];

#[test]
fn refuses_each_damage_at_opening(rt: HostRuntime) -> Result<(), Fail> {
    for (pages, labelled, changes, text) in DAMAGES {
        let setting = Setting {
            pages: *pages,
            labelled: *labelled,
            changes,
            ..SOUND
        };
        for job in [RUN, REF, CHECK] {
            for line in job.lines {
                run(&rt, rt.alloc(), line, setting, 7, &[text])?;
            }
        }
    }
    Ok(())
}
