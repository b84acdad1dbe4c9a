//! How a cache is closed.

ghost use Rattle.std.specs.Prelude.{◌≡◌, ◌<◌, ◌≤◌, ◌+◌, All, None, length, map, pos, ◌+ℤ◌, ◌-ℤ◌, ◌≤ℤ◌, slice_index_or};
ghost use Rattle.fg_outside.specs.Drives.{EachSame, RoomyKept};
ghost use Rattle.fg_cache.specs.Closing.{LeastRisen, RoseAt, LogsTell, ReadsFew, all_queued, all_stale, all_hits};
ghost use Rattle.fg_cache.specs.Pass.{Token};
ghost use Rattle.fg_cache.specs.Slips.{FaultOf};

use crate::cache::Cache;
use crate::gathering::{Gathered, all_within, gather};
use crate::joining::{join_passes, join_queues, join_sets};
use crate::pass::Pass;
use crate::room::Room;
use crate::slips::FaultShare;
use crate::usage::Usage;
use fg_outside::Drive;
use std::sync::Wait;

/// What a closed cache gives back, and what was counted.
#[derive(Drop)]
pub struct Closed<D: Drive> {
    /// The drives, in order.
    pub drives: Vec<D>,
    /// The least drive whose count of faults rose since the cache was opened.
    pub failed: Option<u32>,
    /// The reads of all drives since then. The count stands still at its type's end.
    pub reads: u64,
    /// The pages of these reads. The count stands still at its type's end.
    pub pages: u64,
    pub usage: Usage,
}

impl<D: Drive> Cache<D> {
    /// Closes the cache. All its passes are handed in, and any shares of faults that it gave; each of these names a drive whose count of
    /// faults rose.
    pub fn close<R: Wait>(self, rt: &R, passes: Vec<Pass>, shares: Vec<FaultShare>) -> Closed<D>
        requires passes { (length passes.items ≡ self.site.shape.passes) × All (λ (pass : Token). pass.books ≡ self.site.books) passes.items }
        requires shares { All (λ (share : FaultOf). share.books ≡ self.site.books) shares.items }

        ensures held { EachSame D.held self.drives result.drives.items }
        ensures told { EachSame D.told self.drives result.drives.items }
        ensures room { EachSame D.room self.drives result.drives.items }
        ensures roomy { RoomyKept D.room D.faults self.drives result.drives.items }
        ensures failed { LeastRisen D.faults result.failed self.drives result.drives.items }
        ensures named { All (λ (share : FaultOf). RoseAt D.faults share.drive self.drives result.drives.items) shares.items }
        ensures logs { LogsTell D.log self.site result.failed result.reads result.pages self.drives result.drives.items }
        ensures queued { result.pages ≤ all_queued passes.items }
        ensures few { ReadsFew self.site result.failed result.pages passes.items }
        ensures hits { result.usage.hits ≡ all_hits passes.items }
    {
        let usage = Usage::of(&passes);
        let Cache {
            layout: _,
            shape: _,
            ledgers,
            sets,
            queues,
            shelves,
            frames: _,
            room,
        } = self;
        let Room { drives, share } = room.into_inner(rt);
        let share = join_passes(&ledgers, share, passes);
        let share = join_sets(rt, &ledgers, share, sets);
        let share = join_queues(rt, &ledgers, share, queues);
        all_within(&shares);
        let mut shares = shares;
        let mut ends = gather(rt, &ledgers, share, shelves, &mut shares, drives);
        ledgers.settle(&mut ends.share);
        let Gathered {
            mut drives,
            share: _,
            failed,
            reads,
            pages,
        } = ends;
        drives.reverse();
        Closed {
            drives,
            failed,
            reads,
            pages,
            usage,
        }
    }
}
