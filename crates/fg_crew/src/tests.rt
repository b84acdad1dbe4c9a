//! Waves of a hundred blocks, by one worker and by several at once.

ghost use Rattle.std.specs.Prelude.{◌≡◌, ℕ, ◌<◌, ◌≤◌, All, IfOk, length};
ghost use Rattle.fg_base.specs.declared.limits.TheConstants.{MAX_VERTICES, MAX_WORKERS};

use crate::{Slot, work_wave};
use fg_part::PartMap;
use fg_task::{BlockResult, RunsBlock, WorkFault};
use std::alloc::{AllocError, Global};
use std::sync::Wait;
use std::test::Fail;
use std::thread::Threads;

const BLOCKS: u32 = 100;

const ROUNDS: u32 = 20;

/// Counts a run for each block, but fails at one of them if it is told to.
#[derive(Drop)]
struct Runner {
    map: PartMap,
    failing: Option<u32>,
}

impl RunsBlock<u64> for Runner {
    ghost use Rattle.std.specs.Prelude.{◌≡◌, Some};
    ghost use Rattle.fg_crew.specs.OneRunEach.{one_run_each, spent_on_runs};

    type Fault = u32;

    ghost blocks = { λ runner. one_run_each runner.map };

    ghost lends = { λ _ _. Unit {0} };

    ghost spent = { λ runs. spent_on_runs runs };

    ghost caused = { λ runner block. runner.failing ≡ Some block };

    fn run<R: Wait>(
        &self,
        _rt: &R,
        alloc: Global,
        block: u32,
        kept: &mut u64,
    ) -> Result<BlockResult, WorkFault<u32>> {
        if self.failing == Some(block) {
            return Err(WorkFault::Fault(block));
        }
        *kept += 1;
        Ok(BlockResult {
            block,
            active: 1,
            sent: 0,
            bad: None,
            batches: Vec::new(alloc),
        })
    }
}

/// All blocks, the last one first.
fn last_first(alloc: Global) -> Result<Vec<u32>, AllocError>
    ensures count { IfOk result (λ list. length list.items ≡ BLOCKS) }
    ensures blocks { IfOk result (λ list. All (λ block. block < BLOCKS) list.items) }
{
    let mut list = Vec::new(alloc);
    for place in 0..BLOCKS {
        list.push(BLOCKS - 1 - place)?;
    }
    Ok(list)
}

/// The slots of so many workers, who counted nothing.
fn new_slots(alloc: Global, workers: u32) -> Result<Vec<Slot<u64, u32>>, AllocError>
    ensures count { IfOk result (λ slots. length slots.items ≡ workers) }
    ensures none { IfOk result (λ slots. All (λ slot. slot.kept ≡ 0) slots.items) }
{
    let mut slots = Vec::with_capacity(alloc, workers as usize)?;
    for _worker in 0..workers {
        slots.push_reserved(Slot::new(0));
    }
    Ok(slots)
}

/// How many slots there are, and how many runs their workers counted.
fn counted(mut slots: Vec<Slot<u64, u32>>) -> (usize, u64) {
    let workers = slots.len();
    let mut runs: u64 = 0;
    while let Some(slot) = slots.pop() {
        runs = runs.saturating_add(slot.into_kept());
    }
    slots.destroy_empty();
    (workers, runs)
}

/// What came of a wave, how many slots there were after it, and how many runs were counted.
#[derive(Drop)]
struct Ran {
    answer: Result<Vec<BlockResult>, WorkFault<u32>>,
    slots: usize,
    runs: u64,
}

/// Runs the blocks before the place `to`.
fn run_wave<R: Threads + Wait + Sync>(
    rt: &R,
    alloc: Global,
    workers: u32,
    to: usize,
    failing: Option<u32>,
) -> Result<Ran, AllocError>
    requires workers { (0 < workers) × (workers ≤ MAX_WORKERS) }
    requires to { to ≤ BLOCKS }
{
    let runner = Runner {
        map: PartMap::new(BLOCKS, 0, 1),
        failing,
    };
    let list = last_first(alloc)?;
    let mut slots = new_slots(alloc, workers)?;
    let answer = work_wave(
        rt,
        alloc,
        &runner,
        list.as_slice(),
        0,
        to,
        slots.as_mut_slice(),
    );
    let (slots, runs) = counted(slots);
    Ok(Ran {
        answer,
        slots,
        runs,
    })
}

/// Whether the results are of all blocks, each once.
fn are_each_once(alloc: Global, results: &[BlockResult]) -> Result<bool, AllocError> {
    let mut times = vec![in alloc; 0u32; BLOCKS as usize]?;
    for result in results {
        if let Some(time) = times.get_mut(result.block as usize) {
            *time = time.saturating_add(1);
        }
    }
    Ok(times.iter().all(|time| *time == 1))
}

/// Whether so many workers run each block once, and all slots are there afterwards.
fn runs_each_once<R: Threads + Wait + Sync>(
    rt: &R,
    alloc: Global,
    workers: u32,
) -> Result<bool, AllocError>
    requires { (0 < workers) × (workers ≤ MAX_WORKERS) }
{
    let Ran {
        answer,
        slots,
        runs,
    } = run_wave(rt, alloc, workers, BLOCKS as usize, None)?;
    let Ok(results) = answer else {
        return Ok(false);
    };
    let all = slots == workers as usize && runs == u64::from(BLOCKS);
    Ok(all && are_each_once(alloc, results.as_slice())?)
}

#[test]
fn each_block_is_run_once(rt: HostRuntime) -> Result<(), Fail> {
    for _ in 0..ROUNDS {
        assert!(rt; runs_each_once(&rt, rt.alloc(), 1)?);
        assert!(rt; runs_each_once(&rt, rt.alloc(), 2)?);
        assert!(rt; runs_each_once(&rt, rt.alloc(), 8)?);
    }
    Ok(())
}

#[test]
fn a_fault_is_answered_and_all_slots_are_there(rt: HostRuntime) -> Result<(), Fail> {
    for _ in 0..ROUNDS {
        let ran = run_wave(&rt, rt.alloc(), 4, BLOCKS as usize, Some(37))?;
        assert_eq!(rt; ran.slots, 4);
        assert_eq!(rt; ran.runs, 99);
        let Err(WorkFault::Fault(block)) = ran.answer else {
            panic!(rt; "block 37 has a result");
        };
        assert_eq!(rt; block, 37);
    }
    Ok(())
}

#[test]
fn an_empty_wave_has_no_results(rt: HostRuntime) -> Result<(), Fail> {
    let ran = run_wave(&rt, rt.alloc(), 2, 0, Some(37))?;
    assert_eq!(rt; ran.slots, 2);
    assert_eq!(rt; ran.runs, 0);
    let Ok(results) = ran.answer else {
        panic!(rt; "a wave of no blocks fails");
    };
    assert!(rt; results.is_empty());
    Ok(())
}
