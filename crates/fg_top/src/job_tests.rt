//! `flash` building images from texts, generating edges, and running on generated edges: what is written, what the drives
//! hold, each refusal of a text and of a drive, and calls of several drives failing.

use crate::test_calls::{DriveFails, EDGES, Fails, Lines, NO_DRIVE_FAILS, NONE, call, drive, ends};
use fg_base::limits::PAGE_BYTES;
use fg_outside::{DriveOp, MemDrive};
use fg_stripe::Label;
use std::alloc::Global;
use std::process::Abort;
use std::sync::Wait;
use std::test::Fail;
use std::thread::Threads;

/// The bytes of a page.
const PAGE: usize = PAGE_BYTES;

/// A job, and what it leaves.
#[derive(Clone, Copy)]
struct Case {
    line: &'static str,
    input: &'static str,
    /// The bytes that each drive holds before.
    before: &'static [u16],
    drive_fails: DriveFails,
    fails: Fails,
    status: u8,
    lines: Lines,
    /// The bytes that each drive holds at the end.
    after: &'static [usize],
    /// How many bytes of the input are left, where that is settled.
    left: Option<usize>,
    /// The vertex runs and the entries.
    tally: (u64, u64),
}

/// The diamond built on one drive.
const BUILD: Case = Case {
    line: "build D0",
    input: EDGES,
    before: &[0],
    drive_fails: NO_DRIVE_FAILS,
    fails: NONE,
    status: 0,
    lines: &["built vertices 5 out 5 in 5 plain pages 4 drives 1\n"],
    after: &[5 * PAGE],
    left: Some(0),
    tally: (0, 0),
};

/// The drives of a case.
fn drives(alloc: Global, case: &Case) -> Result<Vec<MemDrive>, Fail> {
    let mut all = Vec::new(alloc);
    for (number, bytes) in case.before.iter().enumerate() {
        all.push(drive(alloc, number, *bytes, case.drive_fails)?)?;
    }
    Ok(all)
}

/// Does the job, and looks at what it left.
fn does<R: Wait + Threads + Sync + Abort>(rt: &R, alloc: Global, case: &Case) -> Result<(), Fail> {
    let drives = drives(alloc, case)?;
    let left = call(rt, alloc, case.line, case.input, drives, case.fails)?;
    ends(rt, case.line, &left, case.status, case.lines);
    for (drive, after) in left.drives.iter().zip(case.after) {
        assert!(rt; drive.bytes().len() == *after, "{}", case.line);
    }
    if let Some(input) = case.left {
        assert!(rt; left.input == input, "{}", case.line);
    }
    assert!(rt; left.tally == case.tally, "{}", case.line);
    Ok(())
}

#[test]
fn writes_the_label_first(rt: HostRuntime) -> Result<(), Fail> {
    let alloc = rt.alloc();
    let drives = drives(alloc, &BUILD)?;
    let built = call(&rt, alloc, BUILD.line, EDGES, drives, NONE)?;
    let mut page = [0; PAGE_BYTES];
    let label = Label {
        drive: 0,
        drives: 1,
        unit: 16,
        pages: 4,
        number: 0,
    };
    label.write(&mut page);
    for drive in &built.drives {
        assert!(rt; drive.bytes().starts_with(&page));
    }
    Ok(())
}

const TEXTS: &[Case] = &[
    BUILD,
    Case {
        input: "",
        lines: &["built vertices 0 out 0 in 0 plain pages 2 drives 1\n"],
        after: &[3 * PAGE],
        ..BUILD
    },
    Case {
        input: "0 0",
        lines: &["built vertices 1 out 1 in 1 plain pages 4 drives 1\n"],
        ..BUILD
    },
    Case {
        input: "# Directed graph\r\n# FromNodeId\tToNodeId\r\n0\t1\t7\r\n0 1 3\r\n\r\n1\t0",
        lines: &["built vertices 2 out 2 in 2 weighted pages 4 drives 1\n"],
        ..BUILD
    },
    Case {
        input: "1 x",
        status: 6,
        lines: &["refused: line 1 not an edge\n"],
        after: &[0],
        left: None,
        ..BUILD
    },
    Case {
        input: "0 1\n0 16777216",
        status: 6,
        lines: &["refused: line 2 id too large\n"],
        after: &[0],
        left: None,
        ..BUILD
    },
    Case {
        line: "build --undirected --number 18446744073709551615 --unit 2 D0 D1 D2",
        before: &[0, 0, 0],
        lines: &["built vertices 5 out 10 in 10 plain pages 4 drives 3\n"],
        after: &[3 * PAGE, 3 * PAGE, PAGE],
        ..BUILD
    },
];

#[test]
fn builds_what_each_text_says(rt: HostRuntime) -> Result<(), Fail> {
    for case in TEXTS {
        does(&rt, rt.alloc(), case)?;
    }
    Ok(())
}

/// A drive with a whole page is refused, and the text isn't taken.
const WHOLE_PAGE: Case = Case {
    status: 7,
    lines: &["refused: drive 0 not empty\n"],
    left: Some(20),
    ..BUILD
};

const STARTS: &[Case] = &[
    Case {
        before: &[4095],
        after: &[4095 + 5 * PAGE],
        ..BUILD
    },
    Case {
        before: &[4096],
        after: &[4096],
        ..WHOLE_PAGE
    },
    Case {
        before: &[8191],
        after: &[8191],
        ..WHOLE_PAGE
    },
];

#[test]
fn builds_on_drives_without_a_whole_page(rt: HostRuntime) -> Result<(), Fail> {
    for case in STARTS {
        does(&rt, rt.alloc(), case)?;
    }
    Ok(())
}

/// A call of drive 0 fails, before something was appended.
const DRIVE_FAILED: Case = Case {
    status: 5,
    lines: &["refused: drive 0 failed\n"],
    after: &[0],
    left: None,
    ..BUILD
};

/// A call of the source fails, and so does the put of the line that says so.
const SILENT: Case = Case {
    fails: Fails { take: 1, put: 1 },
    status: 4,
    lines: &[],
    after: &[0],
    left: Some(20),
    ..BUILD
};

#[test]
fn ends_where_a_refusal_cannot_be_written(rt: HostRuntime) -> Result<(), Fail> {
    does(&rt, rt.alloc(), &SILENT)
}

/// An append of drive 0 fails where the image's four pages stand on the drives 0, 1, 2 and 0.
const SPREAD: Case = Case {
    line: "build --unit 1 D0 D1 D2",
    before: &[0, 0, 0],
    ..DRIVE_FAILED
};

/// The same of drive 1, and of drive 2.
const SECOND: Case = Case {
    lines: &["refused: drive 1 failed\n"],
    ..SPREAD
};

const THIRD: Case = Case {
    lines: &["refused: drive 2 failed\n"],
    ..SPREAD
};

const APPENDS: &[Case] = &[
    Case {
        drive_fails: (0, DriveOp::Append, 1),
        after: &[0, 0, 0],
        ..SPREAD
    },
    Case {
        drive_fails: (1, DriveOp::Append, 1),
        after: &[PAGE, 0, 0],
        ..SECOND
    },
    Case {
        drive_fails: (2, DriveOp::Append, 1),
        after: &[PAGE, PAGE, 0],
        ..THIRD
    },
    Case {
        drive_fails: (0, DriveOp::Append, 2),
        after: &[PAGE, PAGE, PAGE],
        ..SPREAD
    },
    Case {
        drive_fails: (1, DriveOp::Append, 2),
        after: &[2 * PAGE, PAGE, PAGE],
        ..SECOND
    },
    Case {
        drive_fails: (2, DriveOp::Append, 2),
        after: &[2 * PAGE, 2 * PAGE, PAGE],
        ..THIRD
    },
    Case {
        drive_fails: (0, DriveOp::Append, 3),
        after: &[2 * PAGE, 2 * PAGE, 2 * PAGE],
        ..SPREAD
    },
];

#[test]
fn appends_each_label_and_then_each_page(rt: HostRuntime) -> Result<(), Fail> {
    for case in APPENDS {
        does(&rt, rt.alloc(), case)?;
    }
    Ok(())
}

/// Drives that are refused before the text is taken.
const LOOKS: &[Case] = &[
    Case {
        drive_fails: (1, DriveOp::Pages, 1),
        after: &[0, 0, 0],
        ..SECOND
    },
    Case {
        before: &[0, 0, 4096],
        drive_fails: (1, DriveOp::Pages, 1),
        after: &[0, 0, 4096],
        ..SECOND
    },
    Case {
        before: &[4096, 0, 0],
        drive_fails: (1, DriveOp::Pages, 1),
        status: 7,
        lines: &["refused: drive 0 not empty\n"],
        after: &[4096, 0, 0],
        ..SPREAD
    },
    Case {
        before: &[0, 4096, 4096],
        drive_fails: (1, DriveOp::Pages, 2),
        status: 7,
        lines: &["refused: drive 1 not empty\n"],
        after: &[0, 4096, 4096],
        ..SPREAD
    },
];

#[test]
fn looks_at_each_drive_before_the_text(rt: HostRuntime) -> Result<(), Fail> {
    for case in LOOKS {
        for (input, take) in &[(EDGES, 0), ("1 x", 0), (EDGES, 1)] {
            let case = Case {
                input,
                fails: Fails {
                    take: *take,
                    put: 0,
                },
                left: Some(input.len()),
                ..*case
            };
            does(&rt, rt.alloc(), &case)?;
        }
    }
    Ok(())
}

/// Edges are generated, and the input isn't taken.
const GEN: Case = Case {
    line: "gen --start 42 --nodes 10 --edges 3",
    before: &[],
    fails: Fails { take: 1, put: 0 },
    lines: &["# gen 42 10 3\n", "3 7\n4 5\n5 6\n"],
    after: &[],
    left: Some(20),
    ..BUILD
};

const GENERATED: &[Case] = &[
    GEN,
    Case {
        fails: Fails { take: 1, put: 1 },
        status: 4,
        lines: &[],
        ..GEN
    },
    Case {
        fails: Fails { take: 1, put: 3 },
        status: 4,
        lines: &["# gen 42 10 3\n", "3 7\n"],
        ..GEN
    },
];

#[test]
fn writes_generated_edges(rt: HostRuntime) -> Result<(), Fail> {
    for case in GENERATED {
        does(&rt, rt.alloc(), case)?;
    }
    Ok(())
}

/// Levels on generated edges.
const LARGE: Case = Case {
    line: "large --start 42 --nodes 10 --edges 3 --program bfs --source 4",
    before: &[],
    lines: &[
        "program bfs vertices 8 out 3 in 3\n",
        "iteration 0 phase 0 active 1 messages 1\n",
        "iteration 1 phase 0 active 1 messages 1\n",
        "iteration 2 phase 0 active 1 messages 0\n",
        "settled 3\n",
        "sum 3\n",
    ],
    after: &[],
    left: Some(20),
    tally: (3, 2),
    ..BUILD
};

const LARGES: &[Case] = &[
    LARGE,
    Case {
        line: "large --start 42 --nodes 10 --edges 3 --program bfs --source 4 --drives 16 --unit 1",
        ..LARGE
    },
    Case {
        line: "large --start 42 --nodes 10 --edges 3 --program bfs --source 4 --workers 1 --sets 1 --ways 1",
        ..LARGE
    },
    Case {
        line: "large --start 42 --nodes 10 --edges 3 --program bfs --source 8",
        status: 8,
        lines: &["refused: source 8 not below 8\n"],
        tally: (0, 0),
        ..LARGE
    },
    Case {
        fails: Fails { take: 0, put: 2 },
        status: 4,
        lines: &["program bfs vertices 8 out 3 in 3\n"],
        tally: (1, 1),
        ..LARGE
    },
];

#[test]
fn runs_on_generated_edges(rt: HostRuntime) -> Result<(), Fail> {
    for case in LARGES {
        does(&rt, rt.alloc(), case)?;
    }
    Ok(())
}
