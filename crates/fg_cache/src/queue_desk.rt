//! What stands behind the lock of a drive's queue: the queue, and a share of the ledgers.

ghost use Rattle.std.specs.Prelude.{◌≡◌, ◌≤◌, [], length, All, IfOk, IfErr, OnOk, OnErr, pos, ◌+ℤ◌, ◌-ℤ◌};
ghost use Rattle.fg_queue.specs.LoadRun.{IsRun};
ghost use Rattle.fg_queue.specs.QueueStep.{pushed, after_run, run_of};
ghost use Rattle.fg_cache.specs.Load.{IsLoad};
ghost use Rattle.fg_cache.specs.Names.{LockOf};
ghost use Rattle.fg_cache.specs.QueueDesk.{IsQueueDesk};

use crate::home::LockName;
use crate::ledgers::Ledgers;
use crate::share::Share;
use fg_cell::Fit;
use fg_queue::{Load, LoadRun, Queue, QueueEmpty, QueueFull};

/// A drive's queue, and its share.
#[derive(Drop)]
pub(crate) struct QueueDesk {
    pub(crate) queue: Queue,
    pub(crate) share: Share,
}

impl Fit for QueueDesk {
    ghost use Rattle.fg_cache.specs.QueueDesk.{IsQueueDesk};

    type Name = LockName;

    ghost fits = { IsQueueDesk };
}

impl QueueDesk {
    /// A load comes to wait. Who pushes it pays for the push, and hands the entry's part over.
    pub(crate) fn push(
        &mut self,
        ledgers: &Ledgers,
        load: Load,
        share: &mut Share,
    ) -> Result<(), QueueFull>
        requires own { (self.old.share.books ≡ ledgers.now) × (share.old.books ≡ ledgers.now) }
        requires parts { (1 ≤ self.old.share.parts) × (1 ≤ share.old.parts) }
        ensures step { self.new.queue ≡ pushed load self.old.queue }
        ensures paid { OnOk result (share.new
            ≡ record share.old { pushes = share.old.pushes -ℤ pos 1; entries = share.old.entries -ℤ pos 1 }) }
        ensures unpaid { OnErr result (share.new ≡ share.old) }
        ensures slip { IfErr result (λ slip. (slip ≡ record { load = load; queue = self.old.queue })
            × (length slip.queue.loads ≡ slip.queue.depth)) }
        ensures keeps { (name : LockOf) → IsQueueDesk name self.old → IsLoad name.site name.number load → IsQueueDesk name self.new }
    {
        self.queue.push(load)?;
        ledgers.pay_push(share, &mut self.share);
        ledgers.pay_entry(share, &mut self.share);
        Ok(())
    }

    /// Takes a run, whose pages whoever serves it is paid for.
    pub(crate) fn take_run(
        &mut self,
        ledgers: &Ledgers,
        share: &mut Share,
    ) -> Result<LoadRun, QueueEmpty>
        requires own { (self.old.share.books ≡ ledgers.now) × (share.old.books ≡ ledgers.now) }
        requires parts { (1 ≤ self.old.share.parts) × (1 ≤ share.old.parts) }
        ensures step { self.new.queue ≡ after_run self.old.queue }
        ensures run { IfOk result IsRun }
        ensures taken { IfOk result (λ run. run.loads ≡ run_of self.old.queue.loads) }
        ensures paid { IfOk result (λ run. share.new ≡ record share.old { takes = share.old.takes +ℤ pos (length run.loads) }) }
        ensures unpaid { OnErr result (share.new ≡ share.old) }
        ensures slip { IfErr result (λ slip. (slip ≡ self.old.queue) × (slip.loads ≡ [])) }
        ensures depth { (name : LockOf) → IsQueueDesk name self.old → IfErr result (λ slip. slip.depth ≡ name.site.shape.depth) }
        ensures loads { (name : LockOf) → IsQueueDesk name self.old → IfOk result (λ run. All (IsLoad name.site name.number) run.loads) }
        ensures keeps { (name : LockOf) → IsQueueDesk name self.old → IsQueueDesk name self.new }
    {
        let run = self.queue.take_run()?;
        ledgers.pay_takes(&mut self.share, share, run.count());
        Ok(run)
    }
}
