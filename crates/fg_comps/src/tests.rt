//! Runs of small graphs by the plain run.

use crate::*;
use fg_base::{Count, Entry, Items, Value};
use fg_model::{Graph, Program, VecWatch, plain_run};
use std::alloc::{AllocError, Global};
use std::test::Fail;

fn lists(alloc: Global, rows: &[&[u32]]) -> Result<Items<Items<Entry>>, AllocError> {
    let mut all = Vec::new(alloc);
    for targets in rows {
        let mut row = Vec::new(alloc);
        for target in *targets {
            row.push(Entry {
                target: *target,
                weight: 1,
            })?;
        }
        all.push(Items::from_vec(row))?;
    }
    Ok(Items::from_vec(all))
}

/// A diamond with a tail is one component; of eight vertices with the edges 0 1, 0 2 and 4 1 four stand alone.
#[test]
fn least_vertices(rt: HostRuntime) -> Result<(), Fail> {
    let alloc = rt.alloc();
    // both lists of each vertex, the values, and each iteration's active vertices and messages
    let rows: [(&[&[u32]], &[&[u32]], &[u64], &[(u64, u64)]); 2] = [
        (
            &[&[1, 2], &[3], &[3], &[4], &[]],
            &[&[], &[0], &[0], &[1, 2], &[3]],
            &[0, 0, 0, 0, 0],
            &[(5, 10), (4, 8), (2, 4), (1, 1)],
        ),
        (
            &[&[1, 2], &[], &[], &[], &[1], &[], &[], &[]],
            &[&[], &[0, 4], &[0], &[], &[], &[], &[], &[]],
            &[0, 0, 0, 3, 0, 5, 6, 7],
            &[(8, 6), (3, 4), (1, 1)],
        ),
    ];
    for (outs, ins, values, counts) in rows {
        let graph = Graph {
            n: values.len() as u32,
            weighted: false,
            outs: lists(alloc, outs)?,
            ins: lists(alloc, ins)?,
        };
        assert!(rt; graph.is_within_limits());
        let mut watch = VecWatch::new(alloc, Vec::new(alloc));
        let mut tally = Count::new();
        let run = plain_run(alloc, &graph, &Wcc, 9, &mut watch, &mut tally);
        let Ok(end) = run else { panic!(rt; "no end") };
        assert!(rt; end.settled);
        Wcc.values_are_least_connected();
        assert_eq!(rt; end.states.len(), values.len());
        for (state, least) in end.states.as_slice().iter().zip(values) {
            assert_eq!(rt; Wcc.show(*state), Value::One(*least));
        }
        assert_eq!(rt; watch.notes().len(), counts.len());
        for (shown, count) in watch.notes().iter().zip(counts) {
            assert_eq!(rt; (shown.line.active, shown.line.messages), *count);
        }
    }
    Ok(())
}

/// The edges 0 1, 1 2, 2 0 and 2 3: phase 0 has no iteration.
#[test]
fn a_triangle_with_a_tail(rt: HostRuntime) -> Result<(), Fail> {
    let alloc = rt.alloc();
    let graph = Graph {
        n: 4,
        weighted: false,
        outs: lists(alloc, &[&[1], &[2], &[0, 3], &[]])?,
        ins: lists(alloc, &[&[2], &[0], &[1], &[2]])?,
    };
    assert!(rt; graph.is_within_limits());
    let mut watch = VecWatch::new(alloc, Vec::new(alloc));
    let mut tally = Count::new();
    let run = plain_run(alloc, &graph, &Core, 9, &mut watch, &mut tally);
    let Ok(end) = run else { panic!(rt; "no end") };
    assert!(rt; end.settled);
    Core.values_are_core_numbers();
    assert_eq!(rt; end.iterations, 2);
    assert_eq!(rt; end.states.len(), 4);
    for (state, number) in end.states.as_slice().iter().zip([2, 2, 2, 1]) {
        assert_eq!(rt; Core.show(*state), Value::One(number));
    }
    assert_eq!(rt; watch.notes().len(), 2);
    for (shown, counts) in watch.notes().iter().zip([(1, 1, 1), (2, 3, 7)]) {
        let line = shown.line;
        assert_eq!(rt; (line.phase, line.active, line.messages), counts);
    }
    assert_eq!(rt; (tally.runs(), tally.entries()), (4, 8));
    Ok(())
}
