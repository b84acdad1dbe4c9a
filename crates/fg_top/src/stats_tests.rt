//! The line of stats of a run over drives: what was read of them once they were opened, and what the tally counted.

use crate::test_calls::{
    COMPONENTS_FIRST, COMPONENTS_HEAD, COMPONENTS_SECOND, EDGES, LEVELS_FIRST, LEVELS_HEAD, Left,
    NO_DRIVE_FAILS, NONE, call, drive, ends,
};
use fg_outside::MemDrive;
use std::alloc::Global;
use std::process::Abort;
use std::sync::Wait;
use std::test::Fail;
use std::thread::Threads;

/// Builds the diamond on so many drives, one page a unit, and runs on it.
fn run<R: Wait + Threads + Sync + Abort>(
    rt: &R,
    alloc: Global,
    build: &str,
    count: usize,
    line: &str,
) -> Result<Left<MemDrive>, Fail> {
    let mut empty = Vec::new(alloc);
    for number in 0..count {
        empty.push(drive(alloc, number, 0, NO_DRIVE_FAILS)?)?;
    }
    let built = call(rt, alloc, build, EDGES, empty, NONE)?;
    call(rt, alloc, line, "", built.drives, NONE)
}

/// Components of the diamond, with this line behind the end line.
fn ends_with<R: Abort>(rt: &R, line: &str, left: &Left<MemDrive>, stats: &str) {
    let lines = [
        COMPONENTS_HEAD,
        COMPONENTS_FIRST,
        COMPONENTS_SECOND,
        "iteration 2 phase 0 active 2 messages 4\n",
        "iteration 3 phase 0 active 1 messages 1\n",
        "settled 4\n",
        stats,
        "0 0\n1 0\n2 0\n3 0\n4 0\n",
    ];
    ends(rt, line, left, 0, &lines);
    assert_eq!(rt; left.tally, (12, 23), "{line}");
}

#[test]
fn counts_what_one_worker_reads(rt: HostRuntime) -> Result<(), Fail> {
    let rows = [
        (
            "run --program wcc --workers 1 --sets 1 --ways 1 --stats D0",
            "stats reads 6 pages 6 runs 12 entries 23\n",
        ),
        (
            "run --stats --program wcc --workers 1 --sets 1 --ways 4 D0",
            "stats reads 1 pages 2 runs 12 entries 23\n",
        ),
    ];
    for (line, stats) in rows {
        let left = run(&rt, rt.alloc(), "build D0", 1, line)?;
        ends_with(&rt, line, &left, stats);
    }
    Ok(())
}

#[test]
fn stands_between_the_end_and_the_sum(rt: HostRuntime) -> Result<(), Fail> {
    let line = "run --program bfs --source 0 --max 1 --stats --quiet D0";
    let left = run(&rt, rt.alloc(), "build D0", 1, line)?;
    let lines = [
        LEVELS_HEAD,
        LEVELS_FIRST,
        "stopped 1\n",
        "stats reads 1 pages 1 runs 1 entries 2\n",
        "sum 2\n",
    ];
    ends(&rt, line, &left, 0, &lines);
    Ok(())
}

/// What was read of these drives, in reads and in pages, beside their labels, the header and the index.
fn behind_opening(drives: &[MemDrive]) -> (u64, u64) {
    let mut reads = 0u64;
    let mut pages = 0u64;
    for drive in drives {
        for read in drive.log() {
            reads = reads.saturating_add(1);
            pages = pages.saturating_add(u64::from(read.count));
        }
    }
    let opening = drives.len() as u64;
    let opening = opening.saturating_add(2);
    (reads.saturating_sub(opening), pages.saturating_sub(opening))
}

#[test]
fn counts_what_many_workers_read_through_one_page(rt: HostRuntime) -> Result<(), Fail> {
    let alloc = rt.alloc();
    let least = "run --program wcc --workers 8 --shift 0 --sets 1 --ways 1 --depth 1";
    for helpers in ["", " --helpers"] {
        let line = format!(in alloc; "{least}{helpers} D0 D1")?;
        let left = run(&rt, alloc, "build --unit 1 D0 D1", 2, line.as_str())?;
        ends_with(&rt, line.as_str(), &left, "");

        let line = format!(in alloc; "{least}{helpers} --stats D0 D1")?;
        let left = run(&rt, alloc, "build --unit 1 D0 D1", 2, line.as_str())?;
        let (reads, pages) = behind_opening(left.drives.as_slice());
        let stats = format!(in alloc; "stats reads {reads} pages {pages} runs 12 entries 23\n")?;
        ends_with(&rt, line.as_str(), &left, stats.as_str());
    }
    Ok(())
}
