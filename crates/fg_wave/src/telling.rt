//! What the results of a wave told.

ghost use Rattle.std.specs.Prelude.{◌≡◌, ◌^◌, ◌<◌, ◌++◌, ◌∷◌, [], List};
ghost use Rattle.fg_task.specs.declared.block_result.BlockResult.{BlockResult as Result};
ghost use Rattle.fg_task.specs.Spending.{active_in, sent_in};
ghost use Rattle.fg_wave.specs.Telling.{IsLeastBadOf, IsLeastFound};

use crate::told::Told;
use fg_base::BadEdge;
use fg_task::BlockResult;

/// A bad edge, and the block that has it.
#[derive(Clone, Copy)]
pub(crate) struct Found {
    pub(crate) block: u32,
    pub(crate) bad: BadEdge,
}

/// What the results told together. They come in any order, and the first bad edge is that of the least block.
pub(crate) fn tell(results: &[BlockResult]) -> Told
    requires active { active_in results.now < 2 ^ 64 }
    requires sent { sent_in results.now < 2 ^ 64 }
    ensures active { result.active ≡ active_in results.now }
    ensures sent { result.sent ≡ sent_in results.now }
    ensures bad { IsLeastBadOf results.now result.bad }
{
    let mut active: u64 = 0;
    let mut sent: u64 = 0;
    let mut first = None;
    for one in results {
        active += u64::from(one.active);
        sent += one.sent;
        first = earlier(first, one);
    }
    Told {
        active,
        sent,
        bad: edge_of(first),
    }
}

/// The one that was found, or the one of this result if its block is less.
fn earlier(first: Option<Found>, one: &BlockResult) -> Option<Found>
    ensures { (before : List Result) → IsLeastFound before first → IsLeastFound (before ++ one.now ∷ []) result }
{
    let Some(bad) = one.bad else {
        return first;
    };
    let block = one.block;
    match first {
        Some(found) if found.block < block => Some(found),
        Some(_) => Some(Found { block, bad }),
        None => Some(Found { block, bad }),
    }
}

/// The bad edge that was found.
fn edge_of(first: Option<Found>) -> Option<BadEdge>
    ensures { (results : List Result) → IsLeastFound results first → IsLeastBadOf results result }
{
    match first {
        Some(found) => Some(found.bad),
        None => None,
    }
}
