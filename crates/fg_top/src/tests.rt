//! `flash` on the image of the edges 0 1, 0 2, 1 3, 2 3 and 3 4, and on those of two other small graphs: the text of each program,
//! what is read for it, and the refusals that come behind opening.

use crate::test_calls::{COMPONENTS, LEVELS, LEVELS_FIRST, LEVELS_HEAD, Lines, Log, is_log};
use crate::test_images::{SOUND, Setting, run};
use fg_build::sample::{DIAMOND, Numbers};
use std::test::Fail;

/// Two vertices that lead to each other.
const PAIR: Numbers = &[
    (0, 0x4d49_4746),
    (4, 0x0045_4741),
    (8, 1),
    (16, 2),
    (20, 4),
    (24, 2),
    (32, 2),
    (40, 8),
    (48, 8),
    (56, 12),
    (64, 1),
    (68, 2),
    (72, 3),
    (4096, 1),
    (8192, 1),
    // each degree is 1
    (12_288, 0x0000_0101),
    (12_292, 0x0101_0000),
];

/// Three vertices in a circle, the last of which leads to a fourth: the out-lists 1, 2 and 0 3, and the in-lists 2, 0, 1 and 2.
const KITE: Numbers = &[
    (0, 0x4d49_4746),
    (4, 0x0045_4741),
    (8, 1),
    (16, 4),
    (20, 4),
    (24, 4),
    (32, 4),
    (40, 16),
    (48, 16),
    (56, 16),
    (64, 1),
    (68, 2),
    (72, 3),
    (4096, 1),
    (4100, 2),
    (4108, 3),
    (8192, 2),
    (8200, 1),
    (8204, 2),
    // the degrees 1, 1, 2, 0 and 1, 1, 1, 1
    (12_288, 0x0002_0101),
    (12_296, 0x0101_0101),
];

const RUN: &str = "run --program bfs --source 0 D0";

const REF: &str = "ref --program bfs --source 0 D0";

const CHECK: &str = "check D0";

/// The reads of the image whole, on one drive.
const WHOLE: Log = &[(0, 1), (1, 1), (4, 1), (1, 1), (2, 1), (3, 1), (4, 1)];

/// The words, over how many drives, the text, the reads of each drive, and the vertex runs and the entries.
const READS: &[(&str, usize, Lines, &[Log], (u64, u64))] = &[
    (RUN, 1, LEVELS, &[&[(0, 1), (1, 1), (4, 1), (2, 1)]], (5, 5)),
    (REF, 1, LEVELS, &[WHOLE], (0, 0)),
    (
        CHECK,
        1,
        &["checked vertices 5 out 5 in 5 plain pages 4 drives 1\n"],
        &[WHOLE],
        (0, 0),
    ),
    (
        "run --program bfs --source 0 D0 D1",
        2,
        LEVELS,
        &[&[(0, 1), (1, 1)], &[(0, 1), (2, 1), (1, 1)]],
        (5, 5),
    ),
    (
        "ref --program bfs --source 0 D0 D1",
        2,
        LEVELS,
        &[
            &[(0, 1), (1, 1), (1, 1), (2, 1)],
            &[(0, 1), (2, 1), (1, 1), (2, 1)],
        ],
        (0, 0),
    ),
];

#[test]
fn reads_what_it_needs(rt: HostRuntime) -> Result<(), Fail> {
    for (line, drives, lines, logs, tally) in READS {
        let setting = Setting {
            drives: *drives,
            ..SOUND
        };
        let left = run(&rt, rt.alloc(), line, setting, 0, lines)?;
        for (drive, log) in left.drives.iter().zip(*logs) {
            assert!(rt; is_log(drive.log(), log), "{line}");
        }
        assert!(rt; left.tally == *tally, "{line}");
    }
    Ok(())
}

/// The words, and the text of the job.
const TEXTS: &[(&str, Numbers, Lines)] = &[
    ("run --program wcc D0", DIAMOND, COMPONENTS),
    (
        "run --program core D0",
        KITE,
        &[
            "program core vertices 4 out 4 in 4\n",
            "iteration 0 phase 1 active 1 messages 1\n",
            "iteration 1 phase 2 active 3 messages 7\n",
            "settled 2\n",
            "0 2\n1 2\n2 2\n3 1\n",
        ],
    ),
    (
        CHECK,
        KITE,
        &["checked vertices 4 out 4 in 4 plain pages 4 drives 1\n"],
    ),
    (
        "run --program rank --max 2 D0",
        PAIR,
        &[
            "program rank vertices 2 out 2 in 2\n",
            "iteration 0 phase 0 active 2 messages 2\n",
            "iteration 1 phase 0 active 2 messages 2\n",
            "stopped 2\n",
            "0 290979 113639\n",
            "1 290979 113639\n",
        ],
    ),
    (
        "ref --program rank --max 2 --quiet D0",
        PAIR,
        &[
            "program rank vertices 2 out 2 in 2\n",
            "iteration 0 phase 0 active 2 messages 2\n",
            "iteration 1 phase 0 active 2 messages 2\n",
            "stopped 2\n",
            "sum 581958\n",
        ],
    ),
    (
        "run --program sssp --source 3 --each --quiet D0",
        DIAMOND,
        &[
            "program sssp vertices 5 out 5 in 5\n",
            "iteration 0 phase 0 active 1 messages 1\n",
            "0 -\n1 -\n2 -\n3 0\n4 1\n",
            "iteration 1 phase 0 active 1 messages 0\n",
            "0 -\n1 -\n2 -\n3 0\n4 1\n",
            "settled 2\n",
            "sum 1\n",
        ],
    ),
    (
        "ref --program sssp --source 0 --max 1 --each D0",
        DIAMOND,
        &[
            "program sssp vertices 5 out 5 in 5\n",
            "iteration 0 phase 0 active 1 messages 2\n",
            "0 0\n1 1\n2 1\n3 -\n4 -\n",
            "stopped 1\n",
            "0 0\n1 1\n2 1\n3 -\n4 -\n",
        ],
    ),
];

#[test]
fn prints_each_program(rt: HostRuntime) -> Result<(), Fail> {
    for (line, numbers, lines) in TEXTS {
        let setting = Setting { numbers, ..SOUND };
        run(&rt, rt.alloc(), line, setting, 0, lines)?;
    }
    Ok(())
}

/// The words, what is done before, the status and the text.
const REFUSALS: &[(&str, Setting, u8, Lines)] = &[
    (
        "run D0",
        Setting { drives: 0, ..SOUND },
        2,
        &["refused: words missing program\n"],
    ),
    (
        REF,
        Setting {
            changes: &[(8, 3)],
            ..SOUND
        },
        7,
        &["refused: version 3 unknown\n"],
    ),
    (
        "run --program bfs --source 5 D0",
        SOUND,
        8,
        &["refused: source 5 not below 5\n"],
    ),
    (
        "ref --program sssp --source 6 D0",
        SOUND,
        8,
        &["refused: source 6 not below 5\n"],
    ),
    (
        RUN,
        Setting {
            changes: &[(4108, 5)],
            ..SOUND
        },
        8,
        &[
            LEVELS_HEAD,
            LEVELS_FIRST,
            "refused: vertex 2 out entry 0 target 5\n",
        ],
    ),
    (
        REF,
        Setting {
            changes: &[(4108, 5)],
            ..SOUND
        },
        8,
        &[
            LEVELS_HEAD,
            LEVELS_FIRST,
            "refused: vertex 2 out entry 0 target 5\n",
        ],
    ),
    (
        CHECK,
        Setting {
            changes: &[(8, 3)],
            ..SOUND
        },
        7,
        &["refused: version 3 unknown\n"],
    ),
    (
        CHECK,
        Setting {
            changes: &[(4108, 5)],
            ..SOUND
        },
        8,
        &["refused: vertex 2 out entry 0 target 5\n"],
    ),
    (
        CHECK,
        Setting {
            changes: &[(8188, 0x0100_0000)],
            ..SOUND
        },
        9,
        &["refused: page 1 padding\n"],
    ),
    (
        CHECK,
        Setting {
            changes: &[(4108, 4)],
            ..SOUND
        },
        9,
        &["refused: vertex 3 not mirrored\n"],
    ),
];

#[test]
fn refuses_by_its_first_cause(rt: HostRuntime) -> Result<(), Fail> {
    for (line, setting, status, lines) in REFUSALS {
        run(&rt, rt.alloc(), line, *setting, *status, lines)?;
        let silent = Setting {
            put_fails: lines.len() as u32,
            ..*setting
        };
        let before = &lines[..lines.len().max(1) - 1];
        run(&rt, rt.alloc(), line, silent, 4, before)?;
    }
    Ok(())
}
