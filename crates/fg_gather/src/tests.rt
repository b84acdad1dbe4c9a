//! Iterations of a small graph by hand, in one thread and in three, beside the plain run.

ghost use Rattle.std.specs.Prelude.{◌≡◌, ◌<◌, All, IfOk};
ghost use Rattle.fg_batch.specs.Outbox.{IsForItsPart};

use crate::*;
use fg_base::{Count, Entry, Items, Memory, VState};
use fg_batch::{Batch, Outbox};
use fg_comps::Wcc;
use fg_model::{Graph, Program, VecWatch, plain_run};
use fg_part::PartMap;
use fg_rank::Rank;
use fg_walks::Bfs;
use std::alloc::Global;
use std::test::Fail;
use std::thread::Threads;

/// A vertex passes on whatever came.
const RANK: Rank = Rank { cut: 1 };

/// Where the one out-entry of each of five vertices leads.
const TARGETS: [u32; 5] = [2, 4, 4, 0, 4];

/// The states after one iteration of the plain run.
fn plain_states(alloc: Global) -> Result<Vec<VState>, Fail> {
    let mut outs = Vec::new(alloc);
    let mut ins = Vec::new(alloc);
    for target in TARGETS {
        outs.push(Items::from_vec(vec![in alloc; Entry { target, weight: 1 }; 1]?))?;
        ins.push(Items::from_vec(Vec::new(alloc)))?;
    }
    let graph = Graph {
        n: 5,
        weighted: false,
        outs: Items::from_vec(outs),
        ins: Items::from_vec(ins),
    };
    let mut watch = VecWatch::new(alloc, Vec::new(alloc));
    let mut states = Vec::new(alloc);
    if graph.is_within_limits() {
        let mut tally = Count::new();
        if let Ok(end) = plain_run(alloc, &graph, &RANK, 1, &mut watch, &mut tally) {
            states.extend_from_slice(end.states.as_slice())?;
        }
    }
    Ok(states)
}

/// What vertices 0 and 1, which are block 0, send.
fn sent_first(alloc: Global, map: PartMap, messages: [u64; 2]) -> Result<Vec<Batch>, Memory>
    requires { map.n ≡ 5 }
    ensures { IfOk result (λ batches. All (IsForItsPart map) batches.items) }
{
    let mut outbox = Outbox::new(alloc, map)?;
    outbox.reserve(2)?;
    let [from_0, from_1] = messages;
    outbox.send(2, from_0);
    outbox.send(4, from_1);
    outbox.into_batches(alloc, 0)
}

/// What vertices 2, 3 and 4 send.
fn sent_then(alloc: Global, map: PartMap, messages: [u64; 3]) -> Result<Vec<Batch>, Memory>
    requires { map.n ≡ 5 }
    ensures { IfOk result (λ batches. All (IsForItsPart map) batches.items) }
{
    let mut outbox = Outbox::new(alloc, map)?;
    outbox.reserve(3)?;
    let [from_2, from_3, from_4] = messages;
    outbox.send(4, from_2);
    outbox.send(0, from_3);
    outbox.send(4, from_4);
    outbox.into_batches(alloc, 1)
}

/// Each of the five vertices has this state, and sends its message in one of two waves: the states after that in so many threads;
/// whether a vertex is active then; and whether some inbox still has something once they are emptied.
fn iterated<P: Program + Sync, R: Threads + Sync>(
    rt: &R,
    alloc: Global,
    program: &P,
    state: VState,
    messages: [u64; 5],
    threads: usize,
) -> Result<(Vec<VState>, bool, bool), Memory>
    requires { 0 < threads }
{
    let map = PartMap::new(5, 1, 2);
    let mut states = vec![in alloc; state; 5]?;
    let mut marks = vec![in alloc; false; 3]?;
    let mut inboxes = Inboxes::new(alloc, program, map)?;
    mark_all(rt, program, map, 0, &states, threads, &mut marks);
    let [from_0, from_1, from_2, from_3, from_4] = messages;
    let first = [sent_first(alloc, map, [from_0, from_1])?];
    inboxes.deliver(rt, &first, threads);
    let then = [sent_then(alloc, map, [from_2, from_3, from_4])?];
    inboxes.deliver(rt, &then, threads);
    inboxes.gather(rt, 0, &marks, threads, &mut states);
    mark_again(rt, &inboxes, 0, &states, threads, &mut marks);
    inboxes.empty(rt, threads);
    let left = inboxes.has_mail(0) || inboxes.has_mail(1) || inboxes.has_mail(2);
    Ok((states, any_marked(&marks), left))
}

#[test]
fn two_waves_are_the_plain_iteration(rt: HostRuntime) -> Result<(), Fail> {
    let alloc = rt.alloc();
    let plain = plain_states(alloc)?;
    assert_eq!(rt; plain.len(), 5);
    // 15 hundredths of 2^20, of which 85 hundredths are sent along the one out-entry
    let opening = VState {
        a: 0,
        b: 157_286,
        c: 1,
    };
    for threads in [1, 3] {
        let (states, active, left) = iterated(&rt, alloc, &RANK, opening, [133_693; 5], threads)?;
        assert!(rt; states == plain && active && !left);
        assert_eq!(rt;
            (states[4].a, states[4].b, states[1].b),
            (157_286, 401_079, 0)
        );
    }
    Ok(())
}

#[test]
fn the_least_of_three_messages(rt: HostRuntime) -> Result<(), Fail> {
    let alloc = rt.alloc();
    let resting = VState { a: 7, b: 7, c: 0 };
    let levels = iterated(&rt, alloc, &Bfs { source: 0 }, resting, [9, 5, 2, 7, 6], 1)?;
    let components = iterated(&rt, alloc, &Wcc, resting, [7, 6, 5, 8, 3], 2)?;
    // vertices 1, 2 and 4 lead to vertex 4, and what comes to 0 and 2 is no less than what they have
    for ((states, active, left), least) in [levels, components].iter().zip([2, 3]) {
        assert!(rt; *active && !*left);
        assert_eq!(rt; states.len(), 5);
        for (state, number) in states.iter().zip([7, 7, 7, 7, least]) {
            assert_eq!(rt; (state.a, state.b), (number, 7));
        }
    }
    Ok(())
}
