//! Twelve blocks of one vertex each, in waves of several sizes, by one worker and by four.

ghost use Rattle.std.specs.Prelude.{◌≡◌, ℕ, ◌<◌, ◌≤◌, All, IfOk, length};
ghost use Rattle.std.specs.List.{range_with_len};
ghost use Rattle.fg_base.specs.declared.limits.TheConstants.{MAX_WORKERS};
ghost use Rattle.fg_wave.specs.OneMessageEach.{AreOfOne};

use crate::{Told, run_waves};
use fg_base::{BadEdge, Dir, Memory, VState};
use fg_batch::{Batch, Mails};
use fg_crew::Slot;
use fg_gather::{Inboxes, mark_all};
use fg_model::Mail;
use fg_part::PartMap;
use fg_task::{BlockResult, RunsBlock, WorkFault};
use fg_walks::Bfs;
use std::alloc::{AllocError, Global};
use std::sync::Wait;
use std::test::Fail;
use std::thread::Threads;

const BLOCKS: u32 = 12;

/// The state of each vertex before: asleep, at a level above all that come.
const BEFORE: VState = VState { a: 100, b: 0, c: 0 };

/// Runs the vertex of a block: vertices 2k and 2k + 1 send their numbers and 10 to vertex k. Some have a bad edge besides, and one fails
/// if it is told to.
#[derive(Drop)]
struct Runner {
    map: PartMap,
    bad: [u32; 2],
    failing: Option<u32>,
}

impl RunsBlock<u64> for Runner {
    ghost use Rattle.std.specs.Prelude.{◌≡◌, Some};
    ghost use Rattle.fg_wave.specs.OneMessageEach.{one_message_each, spent_on_messages};

    type Fault = u32;

    ghost blocks = { λ runner. one_message_each runner.map };

    ghost lends = { λ _ _. Unit {0} };

    ghost spent = { λ runs. spent_on_messages runs };

    ghost caused = { λ runner block. runner.failing ≡ Some block };

    fn run<R: Wait>(
        &self,
        _rt: &R,
        alloc: Global,
        block: u32,
        kept: &mut u64,
    ) -> Result<BlockResult, WorkFault<u32>> {
        if self.failing == Some(block) {
            return Err(WorkFault::Fault(block));
        }
        let mail = Mail {
            target: block / 2,
            message: u64::from(block) + 10,
        };
        let Ok(batches) = batches_of_one(alloc, self.map, block, mail) else {
            return Err(WorkFault::Memory);
        };
        *kept += 1;
        let is_bad = self.bad[0] == block || self.bad[1] == block;
        Ok(BlockResult {
            block,
            active: 1,
            sent: 1,
            bad: if is_bad { Some(bad_edge(block)) } else { None },
            batches,
        })
    }
}

/// The bad edge of a block.
fn bad_edge(block: u32) -> BadEdge {
    BadEdge {
        v: block,
        dir: Dir::Out,
        place: 0,
        found: 99,
    }
}

/// The one message of a block, in a batch.
fn batches_of_one(alloc: Global, map: PartMap, block: u32, mail: Mail) -> Result<Vec<Batch>, Memory>
    requires { mail.target < map.n }
    ensures { IfOk result (λ batches. AreOfOne map mail batches.items) }
{
    let mut mails = Mails::new(alloc);
    mails.reserve(1)?;
    mails.push(mail);
    let mut batches = Vec::new(alloc);
    batches.push(Batch {
        block,
        part: map.part_of(mail.target),
        lane: 0,
        mails,
    })?;
    Ok(batches)
}

/// All blocks in order.
fn all_blocks(alloc: Global) -> Result<Vec<u32>, AllocError>
    ensures { IfOk result (λ list. list.items ≡ range_with_len 0 BLOCKS) }
{
    let mut list = Vec::new(alloc);
    for block in 0..BLOCKS {
        list.push(block)?;
    }
    Ok(list)
}

/// The slots of so many workers, who counted nothing.
fn new_slots(alloc: Global, workers: u32) -> Result<Vec<Slot<u64, u32>>, AllocError>
    ensures count { IfOk result (λ slots. length slots.items ≡ workers) }
    ensures none { IfOk result (λ slots. All (λ slot. slot.kept ≡ 0) slots.items) }
{
    let mut slots = Vec::with_capacity(alloc, workers as usize)?;
    for _worker in 0..workers {
        slots.push_reserved(Slot::new(0));
    }
    Ok(slots)
}

/// How many slots there are, and how many runs their workers counted.
fn counted(mut slots: Vec<Slot<u64, u32>>) -> (usize, u64) {
    let workers = slots.len();
    let mut runs: u64 = 0;
    while let Some(slot) = slots.pop() {
        runs = runs.saturating_add(slot.into_kept());
    }
    slots.destroy_empty();
    (workers, runs)
}

/// What came of all waves: the answer, how many slots there were after them, how many runs were counted, and the states with what came
/// folded in.
#[derive(Drop)]
struct Ran {
    answer: Result<Told, WorkFault<u32>>,
    slots: usize,
    runs: u64,
    states: Vec<VState>,
}

/// Runs all blocks.
fn run_all<R: Threads + Wait + Sync>(
    rt: &R,
    alloc: Global,
    workers: u32,
    bound: u64,
    bad: [u32; 2],
    failing: Option<u32>,
) -> Result<Ran, Memory>
    requires { (0 < workers) × (workers ≤ MAX_WORKERS) }
{
    let map = PartMap::new(BLOCKS, 0, 2);
    let runner = Runner { map, bad, failing };
    let program = Bfs { source: 0 };
    let mut inboxes = Inboxes::new(alloc, &program, map)?;
    let list = all_blocks(alloc)?;
    let weights = vec![in alloc; 1u64; BLOCKS as usize]?;
    let mut slots = new_slots(alloc, workers)?;
    let answer = run_waves(
        rt,
        alloc,
        &runner,
        list.as_slice(),
        weights.as_slice(),
        bound,
        slots.as_mut_slice(),
        &mut inboxes,
    );
    let (slots, runs) = counted(slots);
    let states = gathered(rt, alloc, &program, &inboxes)?;
    Ok(Ran {
        answer,
        slots,
        runs,
        states,
    })
}

/// The states once what came is folded in.
fn gathered<R: Threads + Sync>(
    rt: &R,
    alloc: Global,
    program: &Bfs,
    inboxes: &Inboxes<'_, Bfs>,
) -> Result<Vec<VState>, Memory>
    requires map { (inboxes.now.map.n ≡ BLOCKS) × (inboxes.now.map.shift ≡ 0) }
    requires program { inboxes.now.program ≡ program.now }
{
    let map = inboxes.map();
    let mut states = vec![in alloc; BEFORE; BLOCKS as usize]?;
    let mut marks = vec![in alloc; false; BLOCKS as usize]?;
    mark_all(rt, program, map, 0, &states, 1, &mut marks);
    inboxes.gather(rt, 0, &marks, 1, &mut states);
    Ok(states)
}

/// Whether each of the first six vertices got the lesser of the two numbers that were sent to it, and no other one got any.
fn are_gathered(states: &[VState]) -> bool {
    states.iter().enumerate().all(|(v, state)| {
        let level = if v < 6 { 2 * v as u64 + 10 } else { 100 };
        state.a == level
    })
}

#[test]
fn waves_of_any_size_come_to_the_same(rt: HostRuntime) -> Result<(), Fail> {
    for workers in [1, 4] {
        for bound in [0, 5, 100] {
            let ran = run_all(&rt, rt.alloc(), workers, bound, [99, 99], None)?;
            let Ok(told) = ran.answer else {
                panic!(rt; "the waves fail");
            };
            assert_eq!(rt;
                told,
                Told {
                    active: 12,
                    sent: 12,
                    bad: None
                }
            );
            assert_eq!(rt; (ran.slots, ran.runs), (workers as usize, 12));
            assert!(rt; ran.states.len() == 12 && are_gathered(ran.states.as_slice()));
        }
    }
    Ok(())
}

#[test]
fn the_first_bad_edge_is_told(rt: HostRuntime) -> Result<(), Fail> {
    for (bound, runs) in [(0, 5), (3, 6), (100, 12)] {
        let ran = run_all(&rt, rt.alloc(), 4, bound, [9, 4], None)?;
        let Ok(told) = ran.answer else {
            panic!(rt; "the waves fail");
        };
        assert_eq!(rt;
            told,
            Told {
                active: runs,
                sent: runs,
                bad: Some(bad_edge(4))
            }
        );
        assert_eq!(rt; (ran.slots, ran.runs), (4, runs));
    }
    Ok(())
}

#[test]
fn a_fault_ends_the_waves_and_all_slots_are_there(rt: HostRuntime) -> Result<(), Fail> {
    let ran = run_all(&rt, rt.alloc(), 4, 5, [99, 99], Some(7))?;
    assert_eq!(rt; (ran.slots, ran.runs), (4, 9));
    let Err(WorkFault::Fault(block)) = ran.answer else {
        panic!(rt; "block 7 has a result");
    };
    assert_eq!(rt; block, 7);
    Ok(())
}
