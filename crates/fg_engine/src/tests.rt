//! Runs over images that are built on drives: each way that a run may end, by one worker and by several.

ghost use Rattle.std.specs.Prelude.{◌≡◌, ◌≤◌};
ghost use Rattle.fg_base.specs.declared.limits.TheConstants.{MAX_UNIT};
ghost use Rattle.fg_engine.specs.Options.{AreOptions};

mod waves;

use crate::{BOUNDS, Options, RunDone, run_program};
use byteorder::{ByteOrder, LittleEndian};
use fg_base::limits::MAX_DRIVES;
use fg_base::{BadEdge, Count, Dir};
use fg_build::{build, open};
use fg_model::{Edges, End, Program, RunFault, VecWatch};
use fg_outside::{Drive, DriveOp, MEM_DRIVE_BYTES, MemDrive, MemSource};
use fg_text::read_edges;
use fg_walks::{Bfs, Sssp};
use std::alloc::Global;
use std::process::Abort;
use std::sync::Wait;
use std::test::Fail;
use std::thread::Threads;

/// Two ways from 0 to 3, and a tail.
const DIAMOND: &str = "0 1\n0 2\n1 3\n2 3\n3 4\n";

/// The way from 0 to 1 by 2 weighs less than the edge.
const WEIGHTED: &str = "0 1 5\n0 2 1\n1 3 1\n2 1 2\n";

/// The leaves of a star whose list fills more than a page.
const LEAVES: u32 = 1500;

/// The edges of a text.
fn edges(alloc: Global, text: &str) -> Result<Edges, Fail> {
    let bytes = text.as_bytes().to_vec(alloc)?;
    let mut source = MemSource::new(alloc, bytes, 4096, Vec::new(alloc));
    Ok(read_edges(alloc, &mut source, false)?)
}

/// Vertex 0 leads to each of the first so many.
fn star(alloc: Global, targets: u32) -> Result<Edges, Fail> {
    let mut text = String::new(alloc);
    for target in 0..targets {
        let line = format!(in alloc; "0 {target}\n")?;
        text.push_str(line.as_str())?;
    }
    edges(alloc, text.as_str())
}

/// So many drives with the image of these edges in units of so many pages. The last one fails at its read of this number, from 1.
fn built(
    alloc: Global,
    edges: &Edges,
    count: u32,
    unit: u32,
    fails: Option<u32>,
) -> Result<Vec<MemDrive>, Fail>
    requires { (1 ≤ unit) × (unit ≤ MAX_UNIT) }
{
    let mut drives = Vec::new(alloc);
    for number in 0..count {
        let mut calls = Vec::new(alloc);
        if let Some(read) = fails
            && number + 1 == count
        {
            calls.push((DriveOp::Read, read))?;
        }
        drives.push(MemDrive::new(alloc, Vec::new(alloc), calls))?;
    }
    if drives.is_empty() || drives.len() > MAX_DRIVES as usize {
        return Err(Fail::new("there is no such number of drives"));
    }
    build(alloc, edges, unit, 7, &mut drives)?;
    Ok(drives)
}

fn put(bytes: &mut [u8], place: usize, number: u32) {
    if place <= bytes.len() && 4 <= bytes.len() - place {
        LittleEndian::write_u32(&mut bytes[place..], number);
    }
}

/// The drive with these numbers of 4 bytes in it, each at its place.
fn changed(alloc: Global, drive: &MemDrive, numbers: &[(usize, u32)]) -> Result<MemDrive, Fail> {
    let mut bytes = drive.bytes().to_vec(alloc)?;
    for (place, number) in numbers {
        put(&mut bytes, *place, *number);
    }
    if bytes.len() >= MEM_DRIVE_BYTES {
        return Err(Fail::new("a drive too large"));
    }
    Ok(MemDrive::new(alloc, bytes, Vec::new(alloc)))
}

/// What a run left.
#[derive(Drop)]
struct Ran {
    drives: Vec<MemDrive>,
    answer: Result<End, RunFault>,
    watch: VecWatch,
    tally: Count,
    reads: u64,
    pages: u64,
    used: bool,
}

/// By so many workers, over so many page sets of so many frames, with blocks of 2^`shift` vertices.
fn options(workers: u32, sets: u32, ways: u32, shift: u32) -> Options
    ensures { (result.workers ≡ workers) × (result.sets ≡ sets) × (result.ways ≡ ways) × (result.shift ≡ shift) × (result.depth ≡ 4) }
{
    Options {
        max: 10,
        workers,
        sets,
        ways,
        depth: 4,
        shift,
        helpers: false,
        bounds: BOUNDS,
    }
}

/// Opens the drives and runs the program on their image. The watch fails at the calls that are listed.
fn run<R: Abort + Threads + Wait + Sync, P: Program + Sync>(
    rt: &R,
    alloc: Global,
    mut drives: Vec<MemDrive>,
    program: &P,
    options: Options,
    fails: Vec<u32>,
) -> Result<Ran, Fail>
    requires { AreOptions options }
{
    let count = drives.len();
    assert!(rt; 1 <= count && count <= MAX_DRIVES as usize);
    let opened = open(alloc, &mut drives)?;
    let mut watch = VecWatch::new(alloc, fails);
    let mut tally = Count::new();
    let RunDone {
        drives,
        answer,
        reads,
        pages,
        usage,
    } = run_program(
        rt, alloc, drives, opened, program, options, &mut watch, &mut tally,
    );
    Ok(Ran {
        drives,
        answer,
        watch,
        tally,
        reads,
        pages,
        used: usage.is_some(),
    })
}

fn values<R: Abort>(rt: &R, ran: &Ran, iterations: u32, want: &[u64]) {
    let Ok(end) = &ran.answer else {
        panic!(rt; "the run has no end");
    };
    assert!(rt; end.settled);
    assert_eq!(rt; end.iterations, iterations);
    let states = end.states.as_slice();
    assert_eq!(rt; states.len(), want.len());
    for (state, value) in states.iter().zip(want) {
        assert_eq!(rt; state.a, *value);
    }
}

/// The reads of all drives behind those of opening, and the pages of these.
fn logged(drives: &[MemDrive], opening: usize) -> (u64, u64) {
    let mut reads: u64 = 0;
    let mut pages: u64 = 0;
    for drive in drives {
        for read in drive.log() {
            reads = reads.saturating_add(1);
            pages = pages.saturating_add(u64::from(read.count));
        }
    }
    (
        reads.saturating_sub(opening as u64),
        pages.saturating_sub(opening as u64),
    )
}

/// How often drives are read when they are opened: each label, the header, and the index.
fn opening_reads(drives: &[MemDrive], index_pages: usize) -> usize {
    drives.len().saturating_add(1).saturating_add(index_pages)
}

#[test]
fn runs_as_it_should_in_many_ways(rt: HostRuntime) -> Result<(), Fail> {
    let alloc = rt.alloc();
    let edges = edges(alloc, DIAMOND)?;
    for count in 1..5 {
        for (workers, helpers) in [(1, false), (4, false), (1, true), (4, true)] {
            for (sets, ways, shift) in [(1, 1, 0), (1, 2, 1), (8, 2, 16)] {
                let ran = run(
                    &rt,
                    alloc,
                    built(alloc, &edges, count, 1, None)?,
                    &Bfs { source: 0 },
                    Options {
                        helpers,
                        ..options(workers, sets, ways, shift)
                    },
                    Vec::new(alloc),
                )?;
                values(&rt, &ran, 4, &[0, 1, 1, 2, 3]);
                assert_eq!(rt;
                    (
                        ran.tally.runs(),
                        ran.tally.entries(),
                        ran.watch.notes().len(),
                        ran.used
                    ),
                    (5, 5, 4, true)
                );
                assert_eq!(rt;
                    (ran.reads, ran.pages),
                    logged(&ran.drives, opening_reads(&ran.drives, 1))
                );
                assert!(rt; 1 <= ran.pages);
            }
        }
    }
    Ok(())
}

#[test]
fn goes_by_weights(rt: HostRuntime) -> Result<(), Fail> {
    let alloc = rt.alloc();
    let ran = run(
        &rt,
        alloc,
        built(alloc, &edges(alloc, WEIGHTED)?, 2, 1, None)?,
        &Sssp { source: 0 },
        options(2, 1, 1, 0),
        Vec::new(alloc),
    )?;
    values(&rt, &ran, 4, &[0, 3, 1, 4]);
    assert_eq!(rt; (ran.tally.runs(), ran.tally.entries()), (6, 5));
    Ok(())
}

#[test]
fn reads_each_page_of_a_long_list(rt: HostRuntime) -> Result<(), Fail> {
    let alloc = rt.alloc();
    let ran = run(
        &rt,
        alloc,
        built(alloc, &star(alloc, LEAVES + 1)?, 3, 1, None)?,
        &Bfs { source: 0 },
        options(3, 4, 4, 4),
        Vec::new(alloc),
    )?;
    let mut levels = vec![in alloc; 1; LEAVES as usize + 1]?;
    levels[0] = 0;
    values(&rt, &ran, 2, &levels);
    assert_eq!(rt; (ran.tally.runs(), ran.tally.entries()), (1501, 1501));
    assert_eq!(rt; ran.pages, 2);
    Ok(())
}

/// Numbers to be put into a drive, each with its place.
type Rows = (usize, &'static [(usize, u32)]);

#[test]
fn ends_at_the_first_bad_edge(rt: HostRuntime) -> Result<(), Fail> {
    let alloc = rt.alloc();
    let bad = |v, place, found| BadEdge {
        v,
        dir: Dir::Out,
        place,
        found,
    };
    // the lists begin on page 1, which drive 1 has, and go on on page 2, which drive 0 has: each at its place in the image
    let small: Rows = (1, &[(4096, 5), (4100, 9)]);
    let weighted: Rows = (1, &[(4100, 900), (4112, 4)]);
    let long: Rows = (0, &[(8896, 1501), (8900, 1502)]);
    for (edges, (at, numbers), want, shown) in [
        (edges(alloc, DIAMOND)?, small, bad(0, 0, 5), 0),
        (edges(alloc, WEIGHTED)?, weighted, bad(1, 0, 4), 1),
        (star(alloc, LEAVES + 1)?, long, bad(0, 1200, 1501), 0),
    ] {
        let mut drives = built(alloc, &edges, 2, 1, None)?;
        if at >= drives.len() {
            return Err(Fail::new("there is no such drive"));
        }
        drives[at] = changed(alloc, &drives[at], numbers)?;
        let ran = run(
            &rt,
            alloc,
            drives,
            &Bfs { source: 0 },
            options(4, 2, 2, 1),
            Vec::new(alloc),
        )?;
        assert!(rt; matches!(&ran.answer, Err(fault) if *fault == RunFault::BadEdge(want)));
        assert_eq!(rt; ran.watch.notes().len(), shown);
    }
    Ok(())
}

#[test]
fn ends_where_a_worker_or_a_helper_finds_a_drive_failing(rt: HostRuntime) -> Result<(), Fail> {
    let alloc = rt.alloc();
    let edges = edges(alloc, DIAMOND)?;
    for (workers, helpers) in [(1, false), (3, false), (1, true), (3, true)] {
        let ran = run(
            &rt,
            alloc,
            built(alloc, &edges, 2, 1, Some(3))?,
            &Bfs { source: 0 },
            Options {
                helpers,
                ..options(workers, 1, 1, 0)
            },
            Vec::new(alloc),
        )?;
        assert!(rt; matches!(&ran.answer, Err(fault) if *fault == RunFault::Drive(1)));
        // helpers beside it may bring the first pages before the failing one is read
        assert!(rt; helpers || ran.watch.notes().len() == 0);
        assert!(rt; ran.drives.iter().map(|drive| drive.faults()).eq([0, 1]));
    }
    Ok(())
}

#[test]
fn ends_where_the_watch_fails(rt: HostRuntime) -> Result<(), Fail> {
    let alloc = rt.alloc();
    let ran = run(
        &rt,
        alloc,
        built(alloc, &edges(alloc, DIAMOND)?, 2, 1, None)?,
        &Bfs { source: 0 },
        options(2, 1, 1, 0),
        vec![in alloc; 2]?,
    )?;
    assert!(rt; matches!(&ran.answer, Err(RunFault::Watch)));
    assert_eq!(rt; (ran.watch.notes().len(), ran.used), (1, true));
    Ok(())
}
