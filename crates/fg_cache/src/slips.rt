//! What a drive's reads leave behind: a slip for a run that was read, and a share of a fault. Only `Shelf::read` makes them.

ghost use Rattle.std.specs.Prelude.{◌≡◌, ◌<◌, ◌≤◌, length, pos};
ghost use Rattle.fg_books.specs.Shares.{amount_of, parts_of};
ghost use Rattle.fg_queue.specs.LoadRun.{IsRun};

use fg_books::Lot;
use fg_queue::LoadRun;
use std::marker::Model;
use std::snapshot::Snapshot;

/// A run of loads was read by one read of its drive. Contracts see the loads.
#[derive(Drop)]
pub struct RunRead {
    count: u32,
    run: Snapshot<LoadRun>,
}

impl Model for RunRead {
    ghost use Rattle.std.specs.Prelude.{◌≡◌, ◌<◌, ◌≤◌, length};
    ghost use Rattle.fg_cache.specs.Slips.{ReadDone};

    ghost Value = { ReadDone };

    ghost view = { λ r. record { loads = r.run.value.loads } };

    ghost invariant = { λ r. (r.count ≡ length r.run.value.loads) × (0 < r.count) × (r.count ≤ 32) };
}

impl RunRead {
    pub(crate) fn of(run: &LoadRun) -> RunRead
        ensures { result.loads ≡ run.now.loads }
    {
        RunRead {
            count: run.count(),
            run: Snapshot::of(run),
        }
    }

    /// How many pages were read, from 1 to 32.
    pub fn count(&self) -> u32
        ensures count { result ≡ length self.now.loads }
        ensures some { 0 < result }
        ensures few { result ≤ 32 }
    {
        self.count
    }
}

/// A share of a drive's fault ledger, which shows that the drive's count of faults rose.
#[derive(Drop)]
pub struct FaultShare {
    drive: u32,
    pub(crate) lot: Lot,
}

impl Model for FaultShare {
    ghost use Rattle.std.specs.Prelude.{◌≡◌, ◌<◌, pos};
    ghost use Rattle.fg_books.specs.Shares.{amount_of, parts_of};
    ghost use Rattle.fg_cache.specs.Slips.{FaultOf};

    ghost Value = { FaultOf };

    ghost view = { λ f. record { books = f.lot.books; drive = f.drive } };

    ghost invariant = { λ f. (amount_of f.lot f.drive ≡ pos 1) × (parts_of f.lot f.drive ≡ 0) × (f.drive < f.lot.books.plan.loose) };
}

impl FaultShare {
    pub(crate) fn of(drive: u32, lot: Lot) -> FaultShare
        requires { (amount_of lot drive ≡ pos 1) × (parts_of lot drive ≡ 0) × (drive < lot.books.plan.loose) }
        ensures { result ≡ record { books = lot.books; drive = drive } }
    {
        FaultShare { drive, lot }
    }

    /// The drive that failed.
    pub fn drive(&self) -> u32
        ensures drive { result ≡ self.now.drive }
        ensures within { self.now.drive < self.now.books.plan.loose }
    {
        self.drive
    }
}
