//! Runs of small graphs by the plain run.

use crate::*;
use fg_base::{BadEdge, Count, Dir, Entry, Items};
use fg_model::{Graph, RunFault, VecWatch, plain_run};
use std::alloc::{AllocError, Global};
use std::test::Fail;

fn lists(alloc: Global, rows: &[&[Entry]]) -> Result<Items<Items<Entry>>, AllocError> {
    let mut all = Vec::new(alloc);
    for entries in rows {
        all.push(Items::from_vec(entries.to_vec(alloc)?))?;
    }
    Ok(Items::from_vec(all))
}

fn to(target: u32, weight: u32) -> Entry {
    Entry { target, weight }
}

/// The edges 0 1, 0 2, 1 3, 2 3 and, from 3, to `last`.
fn diamond(alloc: Global, last: u32) -> Result<Graph, AllocError> {
    Ok(Graph {
        n: 5,
        weighted: false,
        outs: lists(
            alloc,
            &[
                &[to(1, 1), to(2, 1)],
                &[to(3, 1)],
                &[to(3, 1)],
                &[to(last, 1)],
                &[],
            ],
        )?,
        ins: lists(
            alloc,
            &[
                &[],
                &[to(0, 1)],
                &[to(0, 1)],
                &[to(1, 1), to(2, 1)],
                &[to(3, 1)],
            ],
        )?,
    })
}

#[test]
fn levels_of_a_diamond(rt: HostRuntime) -> Result<(), Fail> {
    let alloc = rt.alloc();
    let graph = diamond(alloc, 4)?;
    assert!(rt; graph.is_within_limits());
    let mut watch = VecWatch::new(alloc, Vec::new(alloc));
    let mut tally = Count::new();
    let run = plain_run(alloc, &graph, &Bfs { source: 0 }, 9, &mut watch, &mut tally);
    let Ok(end) = run else { panic!(rt; "no end") };
    assert!(rt; end.settled);
    Bfs { source: 0 }.levels_are_least_lengths();
    assert_eq!(rt; end.iterations, 4);
    assert_eq!(rt; end.states.len(), 5);
    for (state, level) in end.states.as_slice().iter().zip([0, 1, 1, 2, 3]) {
        assert_eq!(rt; state.a, level);
    }
    assert_eq!(rt; watch.notes().len(), 4);
    for (shown, counts) in watch.notes().iter().zip([(1, 2), (2, 2), (1, 1), (1, 0)]) {
        assert_eq!(rt; (shown.line.active, shown.line.messages), counts);
    }
    assert_eq!(rt; (tally.runs(), tally.entries()), (5, 5));
    Ok(())
}

#[test]
fn ends_before_the_graph_does(rt: HostRuntime) -> Result<(), Fail> {
    let alloc = rt.alloc();
    let bad = BadEdge {
        v: 3,
        dir: Dir::Out,
        place: 0,
        found: 7,
    };
    // the last target, the most iterations, the failing calls; the refusal, and how many notes there are
    let rows: [(u32, u32, &[u32], Option<RunFault>, usize); 4] = [
        (4, 3, &[], None, 3),
        (4, 9, &[2], Some(RunFault::Watch), 1),
        (7, 9, &[], Some(RunFault::BadEdge(bad)), 2),
        (7, 9, &[1], Some(RunFault::Watch), 0),
    ];
    for (last, max, fails, want, notes) in rows {
        let graph = diamond(alloc, last)?;
        assert!(rt; graph.is_within_limits());
        let mut watch = VecWatch::new(alloc, fails.to_vec(alloc)?);
        let mut tally = Count::new();
        let run = plain_run(
            alloc,
            &graph,
            &Bfs { source: 0 },
            max,
            &mut watch,
            &mut tally,
        );
        assert_eq!(rt; run.err(), want);
        assert_eq!(rt; watch.notes().len(), notes);
    }
    Ok(())
}

/// The edges 0 1 of weight 5, 0 2 of weight 1, and 2 1 and 1 2 of weight 0.
#[test]
fn a_detour_is_lighter(rt: HostRuntime) -> Result<(), Fail> {
    let alloc = rt.alloc();
    let graph = Graph {
        n: 3,
        weighted: true,
        outs: lists(alloc, &[&[to(1, 5), to(2, 1)], &[to(2, 0)], &[to(1, 0)]])?,
        ins: lists(alloc, &[&[], &[to(0, 5), to(2, 0)], &[to(0, 1), to(1, 0)]])?,
    };
    assert!(rt; graph.is_within_limits());
    let mut watch = VecWatch::new(alloc, Vec::new(alloc));
    let mut tally = Count::new();
    let run = plain_run(
        alloc,
        &graph,
        &Sssp { source: 0 },
        9,
        &mut watch,
        &mut tally,
    );
    let Ok(end) = run else { panic!(rt; "no end") };
    assert!(rt; end.settled);
    Sssp { source: 0 }.values_are_least_weights();
    assert_eq!(rt; end.iterations, 3);
    assert_eq!(rt; end.states.len(), 3);
    for (state, weight) in end.states.as_slice().iter().zip([0, 1, 1]) {
        assert_eq!(rt; state.a, weight);
    }
    // the first iteration reaches 1 with weight 5 and 2 with weight 1, the second lowers the weight of 1 over 2
    assert_eq!(rt; watch.notes().len(), 3);
    for (shown, counts) in watch.notes().iter().zip([(1, 2), (2, 2), (1, 1)]) {
        assert_eq!(rt; (shown.line.active, shown.line.messages), counts);
    }
    Ok(())
}
