//! The program over two drives in memory, beside the run in memory and values found by hand.

ghost use Rattle.std.specs.Prelude.{◌≤◌};
ghost use Rattle.fg_base.specs.declared.limits.TheConstants.{MAX_WORKERS};

use crate::{Greatest, run_greatest};
use fg_base::limits::MAX_DRIVES;
use fg_base::{Count, Value};
use fg_build::{build, open, read_all};
use fg_engine::{BOUNDS, Options, RunDone};
use fg_image::cut_graph;
use fg_model::{End, Program, VecWatch, plain_run};
use fg_outside::{MemDrive, MemSource};
use fg_text::read_edges;
use std::alloc::Global;
use std::process::Abort;
use std::sync::Wait;
use std::test::Fail;
use std::thread::Threads;

/// A cycle of 1, 2 and 3, which 0 and 5 lead into and 4 hangs on, and one of 6 and 7. No edge leads to 0 or to 5.
const EDGES: &str = "0 1\n1 2\n2 3\n3 1\n3 4\n5 2\n6 7\n7 6\n";

/// The greatest vertex that reaches each, found by hand.
const VALUES: [u64; 8] = [0, 5, 5, 5, 5, 5, 7, 7];

/// How many vertices are active in each iteration, and how many messages they send, found by hand.
const COUNTS: [(u64, u64); 4] = [(7, 7), (3, 3), (1, 2), (2, 1)];

/// A run that came to its end.
#[derive(Drop)]
struct Ran {
    end: End,
    watch: VecWatch,
}

/// Two drives in memory with the image of the edges.
fn built<R: Abort>(rt: &R, alloc: Global) -> Result<Vec<MemDrive>, Fail> {
    let text = EDGES.as_bytes().to_vec(alloc)?;
    let mut source = MemSource::new(alloc, text, 4096, Vec::new(alloc));
    let edges = read_edges(alloc, &mut source, false)?;
    let mut drives = Vec::new(alloc);
    for _ in 0..2 {
        drives.push(MemDrive::new(alloc, Vec::new(alloc), Vec::new(alloc)))?;
    }
    assert_eq!(rt; drives.len(), 2);
    build(alloc, &edges, 1, 7, &mut drives)?;
    Ok(drives)
}

/// The run over these drives, by so many workers.
fn over_drives<R: Abort + Threads + Wait + Sync>(
    rt: &R,
    alloc: Global,
    mut drives: Vec<MemDrive>,
    workers: u32,
) -> Result<Ran, Fail>
    requires some { 1 ≤ workers }
    requires few { workers ≤ MAX_WORKERS }
{
    assert!(rt; !drives.is_empty() && drives.len() <= MAX_DRIVES as usize);
    let opened = open(alloc, &mut drives)?;
    let options = Options {
        max: 100,
        workers,
        sets: 2,
        ways: 2,
        depth: 4,
        shift: 0,
        helpers: false,
        bounds: BOUNDS,
    };
    let mut watch = VecWatch::new(alloc, Vec::new(alloc));
    let RunDone { answer, .. } = run_greatest(rt, alloc, drives, opened, options, &mut watch);
    match answer {
        Ok(end) => Ok(Ran { end, watch }),
        Err(_) => Err(Fail::new("the run over drives has no end")),
    }
}

/// The run in memory, on the graph of the image on these drives.
fn in_memory<R: Abort>(rt: &R, alloc: Global, mut drives: Vec<MemDrive>) -> Result<Ran, Fail> {
    assert!(rt; !drives.is_empty() && drives.len() <= MAX_DRIVES as usize);
    let opened = open(alloc, &mut drives)?;
    let image = read_all(alloc, &mut drives, &opened)?;
    let graph = cut_graph(alloc, &opened.layout, &opened.index, &image)?;
    let mut watch = VecWatch::new(alloc, Vec::new(alloc));
    let mut tally = Count::new();
    match plain_run(alloc, &graph, &Greatest, 100, &mut watch, &mut tally) {
        Ok(end) => Ok(Ran { end, watch }),
        Err(_) => Err(Fail::new("the run in memory has no end")),
    }
}

/// Whether the run came to what was found by hand.
fn check<R: Abort>(rt: &R, ran: &Ran) {
    assert!(rt; ran.end.settled);
    let states = ran.end.states.as_slice();
    assert_eq!(rt; states.len(), VALUES.len());
    for (state, value) in states.iter().zip(VALUES) {
        assert_eq!(rt; Greatest.show(*state), Value::One(value));
    }
    assert_eq!(rt; ran.watch.notes().len(), COUNTS.len());
    for (shown, counts) in ran.watch.notes().iter().zip(COUNTS) {
        assert_eq!(rt; (shown.line.active, shown.line.messages), counts);
    }
}

#[test]
fn over_drives_as_in_memory(rt: HostRuntime) -> Result<(), Fail> {
    let alloc = rt.alloc();
    Greatest.values_are_greatest_reaching();
    let plain = in_memory(&rt, alloc, built(&rt, alloc)?)?;
    check(&rt, &plain);
    let by_one = over_drives(&rt, alloc, built(&rt, alloc)?, 1)?;
    let by_four = over_drives(&rt, alloc, built(&rt, alloc)?, 4)?;
    for ran in [by_one, by_four] {
        check(&rt, &ran);
        assert!(rt; ran.end.states.as_slice() == plain.end.states.as_slice());
    }
    Ok(())
}
