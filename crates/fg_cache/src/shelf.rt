//! What stands behind the lock of a drive, and the one place where a cache reads.

ghost use Rattle.std.specs.Prelude.{◌≡◌, ◌<◌, ◌≤◌, ◌+◌, ℕ, [], ◌∷◌, true, false, length, All, IfOk, IfErr, OnOk, OnErr, IsSome, IsOk, slice_index_or};
ghost use Rattle.fg_base.specs.Faults.{Counts};
ghost use Rattle.fg_base.specs.Told.{grown, GrewByFirst};
ghost use Rattle.fg_books.specs.Shares.{parts_of};
ghost use Rattle.fg_queue.specs.LoadRun.{first_of};
ghost use Rattle.fg_cache.specs.Names.{DriveLock};
ghost use Rattle.fg_cache.specs.Shelf.{IsShelf, IsToRead, HasPages, run_read, stopped};

use crate::buffer::ReadBuffer;
use crate::home::ShelfName;
use crate::share::Share;
use crate::slips::{FaultShare, RunRead};
use fg_base::Failed;
use fg_books::{Books, Lot};
use fg_cell::{Fit, PageBuf};
use fg_outside::Drive;
use fg_queue::LoadRun;

/// A drive with what its reads need: a buffer of 32 pages, a spare page, its shares of the ledgers, whether the drive's count of
/// faults rose since the cache was opened, and the numbers of its reads and of their pages.
#[derive(Drop)]
pub(crate) struct Shelf<D: Drive> {
    pub(crate) drive: D,
    pub(crate) number: u32,
    pub(crate) buffer: ReadBuffer,
    pub(crate) spare: Option<PageBuf>,
    pub(crate) share: Share,
    pub(crate) faults: Lot,
    pub(crate) rose: bool,
    pub(crate) reads: u64,
    pub(crate) pages: u64,
}

impl<D: Drive> Fit for Shelf<D> {
    ghost use Rattle.fg_cache.specs.Shelf.{IsShelf};

    type Name = ShelfName<D>;

    ghost fits = { λ name shelf. IsShelf D.held D.log D.told D.room D.faults name 0 shelf };
}

impl<D: Drive> Shelf<D> {
    /// Reads the loads of the run, and nothing else, by one read of the drive into the buffer.
    pub(crate) fn read(&mut self, books: &Books, run: &LoadRun) -> Result<RunRead, FaultShare>
        requires told { first_of run.now.loads + length run.now.loads ≤ D.told self.old.drive }
        requires own { self.old.faults.books ≡ books.now }
        requires part { 1 ≤ parts_of self.old.faults self.old.number }
        requires within { self.old.number < books.now.plan.loose }

        ensures run { IfOk result (λ read. read.loads ≡ run.now.loads) }
        ensures log { OnOk result (D.log self.new.drive ≡ grown (D.log self.old.drive) (run_read run.now.loads ∷ [])) }
        ensures log_err { OnErr result (GrewByFirst (run_read run.now.loads ∷ []) (D.log self.old.drive) (D.log self.new.drive)) }
        ensures fault { IfErr result (λ share. share ≡ record { books = books.now; drive = self.old.number }) }
        ensures rose { OnErr result (self.new.rose ≡ true) }
        ensures one_read { self.new.reads ≡ stopped (self.old.reads + 1) }
        ensures run_pages { self.new.pages ≡ stopped (self.old.pages + length run.now.loads) }
        ensures counted { Counts (D.faults self.old.drive) (D.faults self.new.drive) result }
        ensures sure { IsSome (D.room self.old.drive) → IsOk result }
        ensures kept { (self.new.share ≡ self.old.share) × (self.new.spare ≡ self.old.spare) }
        ensures pages { (name : DriveLock D) → IsToRead D.held D.log D.told D.room D.faults name run.now.loads self.old
            → OnOk result (HasPages name.site.image self.new.buffer run.now.loads) }
        ensures keeps { (name : DriveLock D) → IsToRead D.held D.log D.told D.room D.faults name run.now.loads self.old
            → IsShelf D.held D.log D.told D.room D.faults name 0 self.new }
    {
        let count = run.count();
        self.reads = self.reads.saturating_add(1);
        self.pages = self.pages.saturating_add(u64::from(count));
        match self.buffer.read(&mut self.drive, run.first(), count) {
            Ok(()) => Ok(RunRead::of(run)),
            Err(Failed) => {
                self.rose = true;
                Err(fault_of(books, &mut self.faults, self.number))
            }
        }
    }
}

// A share without a part and with amount 1, which the drive's ledger owes from now on.
fn fault_of(books: &Books, faults: &mut Lot, drive: u32) -> FaultShare
    requires own { faults.old.books ≡ books.now }
    requires part { 1 ≤ parts_of faults.old drive }
    requires within { drive < books.now.plan.loose }
    ensures share { result ≡ record { books = books.now; drive = drive } }
    ensures own { faults.new.books ≡ books.now }
    ensures parts { parts_of faults.new drive ≡ parts_of faults.old drive }
{
    let mut lot = books.cut_off(faults, drive, 1, 0);
    books.pay(faults, &mut lot, drive, 1);
    FaultShare::of(drive, lot)
}
