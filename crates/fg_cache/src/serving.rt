//! How a drive's loads are served.

ghost use Rattle.std.specs.Prelude.{◌≡◌, ◌<◌, ◌≤◌, All, IsSome, IfOk, IfErr, OnErr, length, pos, ◌+ℤ◌, ◌-ℤ◌, slice_index_or};
ghost use Rattle.fg_base.specs.declared.limits.TheConstants.{PAGE_BYTES};
ghost use Rattle.fg_queue.specs.LoadRun.{IsRun};
ghost use Rattle.fg_cache.specs.Cache.{ServedTells, IsServed};
ghost use Rattle.fg_cache.specs.Load.{IsLoad};
ghost use Rattle.fg_cache.specs.Shelf.{IsShelf, IsSpare, HasPages};
ghost use Rattle.fg_cache.specs.Site.{frames_of};
ghost use Rattle.fg_cell.specs.Pages.{IsPageOf};

use crate::buffer::ReadBuffer;
use crate::cache::Cache;
use crate::served::Served;
use crate::share::Share;
use crate::shelf::Shelf;
use fg_cell::{Frame, Named, PageBuf};
use fg_outside::Drive;
use fg_queue::{Load, LoadRun, QueueEmpty};
use std::sync::Wait;

impl<D: Drive> Cache<D> {
    /// Serves a drive: takes a run of loads from its queue, reads them by one read, puts each page into its frame and makes its entry
    /// ready. Where the drive fails, all loads of the run are given up. The drive's lock is held all the while.
    pub fn serve<R: Wait>(&self, rt: &R, drive: u32) -> Served
        requires { drive < self.now.site.layout.drives }
        ensures tells { ServedTells self.now.site drive result }
        ensures sure { (d : D) → IsSome (D.room (slice_index_or self.now.drives drive d)) → IsServed result }
    {
        let lock = self.shelf(drive);
        let mut held = lock.take(rt);
        let served = self.serve_from(rt, drive, lock, held.get());
        lock.give(rt, held);
        served
    }

    // Serves a drive whose lock is held.
    fn serve_from<R: Wait>(
        &self,
        rt: &R,
        drive: u32,
        lock: &Named<Shelf<D>>,
        shelf: &mut Shelf<D>,
    ) -> Served
        requires drive { drive < self.now.site.layout.drives }
        requires own { (lock.now.site ≡ self.now.site) × (lock.now.number ≡ drive) }
        requires fits { IsShelf D.held D.log D.told D.room D.faults lock.now 0 shelf.old }
        ensures tells { ServedTells self.now.site drive result }
        ensures sure { IsSome (D.room lock.now.opened) → IsServed result }
        ensures fits { IsShelf D.held D.log D.told D.room D.faults lock.now 0 shelf.new }
    {
        let run = match self.take_run(rt, drive, &mut shelf.share) {
            Ok(run) => run,
            Err(slip) => return Served::Idle(slip),
        };
        self.read_run(rt, drive, lock, shelf, &run)
    }

    // Takes a run from the drive's queue.
    fn take_run<R: Wait>(
        &self,
        rt: &R,
        drive: u32,
        share: &mut Share,
    ) -> Result<LoadRun, QueueEmpty>
        requires drive { drive < self.now.site.layout.drives }
        requires own { (share.old.books ≡ self.now.site.books) × (1 ≤ share.old.parts) }
        ensures run { IfOk result IsRun }
        ensures loads { IfOk result (λ run. All (IsLoad self.now.site drive) run.loads) }
        ensures paid { IfOk result (λ run. share.new ≡ record share.old { takes = share.old.takes +ℤ pos (length run.loads) }) }
        ensures unpaid { OnErr result (share.new ≡ share.old) }
        ensures idle { IfErr result (λ slip. (length slip.loads ≡ 0) × (slip.depth ≡ self.now.site.shape.depth)) }
    {
        let queue = self.queue(drive);
        let mut held = queue.take(rt);
        let taken = held.get().take_run(self.ledgers(), share);
        queue.give(rt, held);
        taken
    }

    // Reads a run that was taken, and puts its pages where they belong, or gives its loads up.
    fn read_run<R: Wait>(
        &self,
        rt: &R,
        drive: u32,
        lock: &Named<Shelf<D>>,
        shelf: &mut Shelf<D>,
        run: &LoadRun,
    ) -> Served
        requires own { (lock.now.site ≡ self.now.site) × (lock.now.number ≡ drive) }
        requires run { IsRun run.now }
        requires loads { All (IsLoad self.now.site drive) run.now.loads }
        requires fits { IsShelf D.held D.log D.told D.room D.faults lock.now (length run.now.loads) shelf.old }
        ensures tells { ServedTells self.now.site drive result }
        ensures sure { IsSome (D.room lock.now.opened) → IsServed result }
        ensures fits { IsShelf D.held D.log D.told D.room D.faults lock.now 0 shelf.new }
    {
        match shelf.read(&self.ledgers().books, run) {
            Ok(read) => {
                self.fill(rt, drive, &mut shelf.spare, &shelf.buffer, run);
                Served::Pages(read)
            }
            Err(share) => {
                self.give_up(rt, drive, &mut shelf.share, run);
                Served::Fault(share)
            }
        }
    }

    // Puts the pages of a run, which stand in the buffer, into their frames, and makes each entry ready behind its frame.
    fn fill<R: Wait>(
        &self,
        rt: &R,
        drive: u32,
        spare: &mut Option<PageBuf>,
        buffer: &ReadBuffer,
        run: &LoadRun,
    )
        requires loads { All (IsLoad self.now.site drive) run.now.loads }
        requires pages { HasPages self.now.site.image buffer.now run.now.loads }
        requires spare { IsSpare self.now.site.image spare.old }
        ensures { IsSpare self.now.site.image spare.new }
    {
        for k in 0..run.count() {
            let load = run.load(k);
            swap_in(rt, self.frame(load.frame), spare, load.page, buffer.page(k));
            self.make_ready(rt, load);
        }
    }

    // The load's page stands in its frame.
    fn make_ready<R: Wait>(&self, rt: &R, load: Load)
        requires { load.frame < frames_of self.now.site }
    {
        let lock = self.set_of(load.frame);
        let mut held = lock.take(rt);
        held.get().ready(self.way_of(load.frame), load.page);
        lock.give(rt, held);
    }

    // Gives up the loads of a run whose read failed.
    fn give_up<R: Wait>(&self, rt: &R, drive: u32, share: &mut Share, run: &LoadRun)
        requires loads { All (IsLoad self.now.site drive) run.now.loads }
        requires own { (share.old.books ≡ self.now.site.books) × (1 ≤ share.old.parts) }
        ensures { share.new ≡ record share.old { entries = share.old.entries -ℤ pos (length run.now.loads) } }
    {
        for k in 0..run.count() {
            let load = run.load(k);
            self.give_up_one(rt, share, load);
        }
    }

    fn give_up_one<R: Wait>(&self, rt: &R, share: &mut Share, load: Load)
        requires load { load.frame < frames_of self.now.site }
        requires own { (share.old.books ≡ self.now.site.books) × (1 ≤ share.old.parts) }
        ensures { share.new ≡ record share.old { entries = share.old.entries -ℤ pos 1 } }
    {
        let lock = self.set_of(load.frame);
        let mut held = lock.take(rt);
        held.get()
            .fail(self.ledgers(), self.way_of(load.frame), load.page, share);
        lock.give(rt, held);
    }
}

// Puts a page into a frame by way of the spare buffer, in whose place the frame's old page comes.
fn swap_in<R: Wait>(rt: &R, frame: &Frame, spare: &mut Option<PageBuf>, page: u32, bytes: &[u8])
    requires page { IsPageOf frame.now page bytes.now }
    requires length { length bytes.now ≡ PAGE_BYTES }
    requires spare { IsSpare frame.now spare.old }
    ensures { IsSpare frame.now spare.new }
{
    let Some(mut buffer) = spare.take() else {
        return;
    };
    buffer.set(page, bytes);
    *spare = Some(frame.swap(rt, buffer));
}
