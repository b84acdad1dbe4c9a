//! Runs whose iterations are cut into waves of few messages, beside the plain run of the same image's graph in memory.

use super::{DIAMOND, Ran, built, edges, options, run, star};
use crate::{Bounds, Options};
use fg_base::Count;
use fg_base::limits::{MAX_DRIVES, MAX_SHIFT, MAX_WORKERS};
use fg_build::{open, read_all};
use fg_comps::{Core, Wcc};
use fg_image::cut_graph;
use fg_model::{End, Program, Shown, VecWatch, plain_run};
use fg_outside::MemDrive;
use fg_rank::Rank;
use fg_text::generate_edges;
use fg_walks::{Bfs, Sssp};
use std::alloc::Global;
use std::process::Abort;
use std::sync::Wait;
use std::test::Fail;
use std::thread::Threads;

/// What a rank is cut at.
const CUT: u64 = 1048;

/// A run in waves of so many messages, by so many workers.
type Wave = (u64, u32);

/// How runs are made: with at most so many iterations, with blocks of 2^`shift` vertices, and in each of these waves.
#[derive(Clone, Copy)]
struct Ways {
    max: u32,
    shift: u32,
    waves: &'static [Wave],
}

/// Every wave by every number of workers, a vertex a block, to the end.
const ALL: Ways = Ways {
    max: 1000,
    shift: 0,
    waves: &[
        (1, 1),
        (1, 2),
        (1, 8),
        (7, 1),
        (7, 2),
        (7, 8),
        (100, 1),
        (100, 2),
        (100, 8),
    ],
};

/// Every wave, each by another number of workers.
const EACH_WAVE: &[Wave] = &[(1, 1), (7, 2), (100, 8)];

/// What a plain run came to.
#[derive(Drop)]
struct Plain {
    end: End,
    watch: VecWatch,
    tally: Count,
}

/// The plain run on the graph of the image on these drives.
fn plain_of<P: Program>(
    alloc: Global,
    drives: &mut Vec<MemDrive>,
    program: &P,
    max: u32,
) -> Result<Plain, Fail> {
    if drives.is_empty() || drives.len() > MAX_DRIVES as usize {
        return Err(Fail::new("there is no such number of drives"));
    }
    let opened = open(alloc, drives)?;
    let image = read_all(alloc, drives, &opened)?;
    let graph = cut_graph(alloc, &opened.layout, &opened.index, &image)?;
    let mut watch = VecWatch::new(alloc, Vec::new(alloc));
    let mut tally = Count::new();
    match plain_run(alloc, &graph, program, max, &mut watch, &mut tally) {
        Ok(end) => Ok(Plain { end, watch, tally }),
        Err(_) => Err(Fail::new("the plain run has no end")),
    }
}

/// Whether both were shown the same iterations, with the same states after each.
fn were_shown_alike(one: &[Shown], other: &[Shown]) -> bool {
    if one.len() != other.len() {
        return false;
    }
    for (one, other) in one.iter().zip(other) {
        if one.line != other.line || one.states.as_slice() != other.states.as_slice() {
            return false;
        }
    }
    true
}

/// Whether it came to the same.
fn is_plain(ran: &Ran, plain: &Plain) -> bool {
    let Ok(end) = &ran.answer else {
        return false;
    };
    end.settled == plain.end.settled
        && end.iterations == plain.end.iterations
        && end.phase == plain.end.phase
        && end.states.as_slice() == plain.end.states.as_slice()
        && were_shown_alike(ran.watch.notes(), plain.watch.notes())
        && ran.tally.runs() == plain.tally.runs()
        && ran.tally.entries() == plain.tally.entries()
}

/// Runs the program on these drives' image in each of the ways, and looks whether each run comes to what the plain run does.
fn runs_as_plain<R: Abort + Threads + Wait + Sync, P: Program + Sync>(
    rt: &R,
    alloc: Global,
    mut drives: Vec<MemDrive>,
    program: &P,
    ways: Ways,
) -> Result<Plain, Fail> {
    let Ways { max, shift, waves } = ways;
    let plain = plain_of(alloc, &mut drives, program, max)?;
    for (wave, workers) in waves {
        if *workers == 0 || *workers > MAX_WORKERS || shift > MAX_SHIFT {
            return Err(Fail::new("there is no such way"));
        }
        let cut = Options {
            max,
            bounds: Bounds {
                wave: *wave,
                few: 0,
            },
            ..options(*workers, 2, 2, shift)
        };
        let ran = run(rt, alloc, drives, program, cut, Vec::new(alloc))?;
        assert!(rt;
            is_plain(&ran, &plain),
            "{workers} workers, waves of {wave}"
        );
        drives = ran.drives;
    }
    Ok(plain)
}

/// Whether the first number of each vertex's state is this one.
fn are_first(end: &End, want: &[u64]) -> bool {
    let states = end.states.as_slice();
    states.iter().map(|state| state.a).eq(want.iter().copied())
}

#[test]
fn small_graphs_run_as_plain(rt: HostRuntime) -> Result<(), Fail> {
    let alloc = rt.alloc();
    let diamond = edges(alloc, DIAMOND)?;
    let three = built(alloc, &diamond, 3, 2, None)?;
    let plain = runs_as_plain(&rt, alloc, three, &Bfs { source: 0 }, ALL)?;
    assert!(rt; are_first(&plain.end, &[0, 1, 1, 2, 3]));
    for count in [1, 3] {
        let drives = built(alloc, &diamond, count, 2, None)?;
        let plain = runs_as_plain(&rt, alloc, drives, &Wcc, ALL)?;
        assert!(rt; are_first(&plain.end, &[0; 5]));
    }
    let triangle = built(alloc, &edges(alloc, "0 1\n1 2\n2 0\n2 3\n")?, 1, 1, None)?;
    let plain = runs_as_plain(&rt, alloc, triangle, &Core, ALL)?;
    let numbers = plain.end.states.as_slice().iter().map(|state| state.c);
    assert!(rt; numbers.eq([2, 2, 2, 1]));
    let pair = built(alloc, &edges(alloc, "0 1\n1 0\n")?, 1, 1, None)?;
    let plain = runs_as_plain(&rt, alloc, pair, &Rank { cut: CUT }, Ways { max: 2, ..ALL })?;
    assert_eq!(rt; (plain.end.settled, plain.end.iterations), (false, 2));
    Ok(())
}

/// A list of a page, and one of an entry more.
#[test]
fn stars_run_as_plain(rt: HostRuntime) -> Result<(), Fail> {
    let alloc = rt.alloc();
    for targets in [1024, 1025] {
        let drives = built(alloc, &star(alloc, targets)?, 1, 1, None)?;
        let plain = runs_as_plain(
            &rt,
            alloc,
            drives,
            &Bfs { source: 0 },
            Ways { shift: 4, ..ALL },
        )?;
        assert_eq!(rt; plain.tally.entries(), u64::from(targets));
        assert_eq!(rt; (plain.end.settled, plain.end.iterations), (true, 2));
    }
    Ok(())
}

/// The same for one of the five programs; ranks for five iterations.
fn one_runs_as_plain<R: Abort + Threads + Wait + Sync>(
    rt: &R,
    alloc: Global,
    drives: Vec<MemDrive>,
    which: u64,
    ways: Ways,
) -> Result<Plain, Fail> {
    match which % 5 {
        0 => runs_as_plain(rt, alloc, drives, &Bfs { source: 0 }, ways),
        1 => runs_as_plain(rt, alloc, drives, &Sssp { source: 0 }, ways),
        2 => runs_as_plain(rt, alloc, drives, &Wcc, ways),
        3 => runs_as_plain(rt, alloc, drives, &Core, ways),
        _ => runs_as_plain(
            rt,
            alloc,
            drives,
            &Rank { cut: CUT },
            Ways { max: 5, ..ways },
        ),
    }
}

/// Every wave by every number of workers takes over a minute here on a busy machine, since each wave starts its workers.
#[test]
fn random_graphs_run_as_plain(rt: HostRuntime) -> Result<(), Fail> {
    let alloc = rt.alloc();
    for start in 1..101 {
        let edges = generate_edges(alloc, start, 60, 300, start % 2 == 0)?;
        let drives = built(alloc, &edges, start as u32 % 3 + 1, 1, None)?;
        let ways = Ways {
            shift: 3,
            waves: EACH_WAVE,
            ..ALL
        };
        let plain = one_runs_as_plain(&rt, alloc, drives, start, ways)?;
        assert!(rt; 1 < plain.end.iterations);
    }
    Ok(())
}
