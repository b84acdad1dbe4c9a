//! Asks for pages, merged into runs of pages without a gap.

ghost use Rattle.std.specs.Prelude.{◌≡◌, ℕ, ◌+◌, ◌-◌, ◌<◌, ◌≤◌, All, IfOk, length, slice_index_or, slice_range, vec_len};
ghost use Rattle.fg_base.specs.declared.limits.TheConstants.{NO_PAGE};
ghost use Rattle.fg_queue.specs.Merge.{IsByPage, IsNextPage, IsPageRun, IsMerged, no_ask};

use crate::asks::{AskList, PageAsk};
use fg_base::Memory;
use fg_base::limits::NO_PAGE;
use std::alloc::{AllocError, Global};

/// A run of pages without a gap, each of them asked for: the first page, how many they are, and the asks by page.
#[derive(Drop, Debug)]
pub struct PageRun {
    pub first: u32,
    pub count: u32,
    pub jobs: AskList,
}

/// The asks by page, and those of one page in their given order.
fn by_page(alloc: Global, asks: &[PageAsk]) -> Result<Vec<PageAsk>, AllocError>
    ensures { IfOk result (λ sorted. IsByPage asks.now sorted.items) }
{
    let mut sorted = Vec::from_slice(alloc, asks)?;
    sorted.sort_by_key(|ask| ask.page)?;
    Ok(sorted)
}

/// Where the run ends that begins at `start`.
fn run_end(sorted: &[PageAsk], start: usize) -> usize
    requires start { start < length sorted.now }
    ensures more { start < result }
    ensures within { result ≤ length sorted.now }
    ensures steps { (k : ℕ) → start ≤ k → k + 1 < result → (slice_index_or sorted.now (k + 1) no_ask).page ≤ (slice_index_or sorted.now k no_ask).page + 1 }
    ensures gap { result < length sorted.now → (slice_index_or sorted.now (result - 1) no_ask).page + 1 < (slice_index_or sorted.now result no_ask).page }
{
    let mut end = start + 1;
    while end < sorted.len() && sorted[end].page as u64 <= sorted[end - 1].page as u64 + 1 {
        end += 1;
    }
    end
}

/// The run of the asks from `start` up to `end`.
fn run_at(
    alloc: Global,
    sorted: &[PageAsk],
    start: usize,
    end: usize,
) -> Result<PageRun, AllocError>
    requires some { start < end }
    requires within { end ≤ length sorted.now }
    requires rises { (slice_index_or sorted.now start no_ask).page ≤ (slice_index_or sorted.now (end - 1) no_ask).page }
    requires pages { All (λ ask. ask.page < NO_PAGE) sorted.now }
    ensures jobs { IfOk result (λ run. run.jobs ≡ slice_range sorted.now start end) }
    ensures first { IfOk result (λ run. run.first ≡ (slice_index_or sorted.now start no_ask).page) }
    ensures last { IfOk result (λ run. run.first + run.count ≡ (slice_index_or sorted.now (end - 1) no_ask).page + 1) }
{
    let first = sorted[start].page;
    let last = sorted[end - 1].page;
    let jobs = Vec::from_slice(alloc, &sorted[start..end])?;
    Ok(PageRun {
        first,
        count: last - first + 1,
        jobs: AskList::from_vec(jobs),
    })
}

/// Merges asks for pages into runs of pages without a gap, ascending, each as long as can be. Every ask stands in the one run of
/// its page, by page and then in its given order. The cost is that of a sort.
pub fn merge_asks(alloc: Global, asks: &Vec<PageAsk>) -> Result<Vec<PageRun>, Memory>
    requires { All (λ ask. ask.page < NO_PAGE) asks.now.items }
    ensures { IfOk result (λ runs. IsMerged asks.now.items runs.items) }
{
    let sorted = by_page(alloc, asks)?;
    let mut runs = Vec::new(alloc);
    let mut start = 0;
    while start < sorted.len() {
        let end = run_end(&sorted, start);
        runs.push(run_at(alloc, &sorted, start, end)?)?;
        start = end;
    }
    Ok(runs)
}
