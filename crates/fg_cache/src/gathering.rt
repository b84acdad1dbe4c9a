//! How the drives come out of their locks when a cache is closed.

ghost use Rattle.std.specs.Prelude.{◌≡◌, ◌≢◌, ◌<◌, ◌≤◌, ◌+◌, ◌++◌, ◌∷◌, [], All, Some, true, false, if◌then◌else◌, length, pos, vec_capacity, vec_len};
ghost use Rattle.fg_books.specs.Shares.{parts_of, amount_of};
ghost use Rattle.fg_cache.specs.Gathering.{Gathers, NamesRisen};
ghost use Rattle.fg_cache.specs.Names.{DriveLock};
ghost use Rattle.fg_cache.specs.Share.{joined};
ghost use Rattle.fg_cache.specs.Shelf.{IsShelf, stopped};
ghost use Rattle.fg_cache.specs.Slips.{FaultOf};

use crate::ledgers::Ledgers;
use crate::share::Share;
use crate::shelf::Shelf;
use crate::slips::FaultShare;
use fg_books::Lot;
use fg_cell::Named;
use fg_outside::Drive;
use std::sync::Wait;

/// What came out of the drives' locks: the drives, the last first, and what was counted.
#[derive(Drop)]
pub(crate) struct Gathered<D: Drive> {
    pub(crate) drives: Vec<D>,
    pub(crate) share: Share,
    pub(crate) failed: Option<u32>,
    pub(crate) reads: u64,
    pub(crate) pages: u64,
}

// The last drive first, so that the least that failed is seen last.
pub(crate) fn gather<D: Drive, R: Wait>(
    rt: &R,
    ledgers: &Ledgers,
    share: Share,
    shelves: Vec<Named<Shelf<D>>>,
    shares: &mut [FaultShare],
    drives: Vec<D>,
) -> Gathered<D>
    requires own { (share.books ≡ ledgers.now) × All (λ (lock : DriveLock D). lock.site.books ≡ ledgers.now) shelves.items }
    requires shares { All (λ (share : FaultOf). share.books ≡ ledgers.now) shares.old }
    requires drives { (drives.items ≡ []) × (length shelves.items ≤ vec_capacity drives) }
    ensures gathers { Gathers (λ lock shelf. IsShelf D.held D.log D.told D.room D.faults lock 0 shelf) ledgers.now share shares.old shelves.items result }
{
    let mut shelves = shelves;
    let mut all = Gathered {
        drives,
        share,
        failed: None,
        reads: 0,
        pages: 0,
    };
    while let Some(lock) = shelves.pop() {
        let mut shelf = lock.into_inner(rt);
        all_risen(ledgers, &mut shelf, shares);
        all = with_shelf(ledgers, all, shelf);
    }
    all
}

// One more drive.
fn with_shelf<D: Drive>(ledgers: &Ledgers, all: Gathered<D>, shelf: Shelf<D>) -> Gathered<D>
    requires own { (all.share.books ≡ ledgers.now) × (shelf.share.books ≡ ledgers.now) }
    requires room { vec_len all.drives < vec_capacity all.drives }
    ensures drives { result.drives.items ≡ all.drives.items ++ shelf.drive ∷ [] }
    ensures capacity { vec_capacity result.drives ≡ vec_capacity all.drives }
    ensures share { result.share ≡ joined all.share shelf.share }
    ensures failed { result.failed ≡ (if shelf.rose then Some shelf.number else all.failed) }
    ensures reads { result.reads ≡ stopped (all.reads + shelf.reads) }
    ensures pages { result.pages ≡ stopped (all.pages + shelf.pages) }
{
    let failed = either(shelf.rose, shelf.number, all.failed);
    let Gathered {
        mut drives,
        share,
        failed: _,
        reads,
        pages,
    } = all;
    let reads = reads.saturating_add(shelf.reads);
    let pages = pages.saturating_add(shelf.pages);
    drives.push_reserved(shelf.drive);
    Gathered {
        drives,
        share: ledgers.join(share, shelf.share),
        failed,
        reads,
        pages,
    }
}

fn either(rose: bool, number: u32, other: Option<u32>) -> Option<u32>
    ensures { result ≡ (if rose then Some number else other) }
{
    if rose { Some(number) } else { other }
}

// Each share that names this drive shows that its count rose.
fn all_risen<D: Drive>(ledgers: &Ledgers, shelf: &mut Shelf<D>, shares: &mut [FaultShare])
    requires own { (shelf.old.faults.books ≡ ledgers.now) × All (λ (share : FaultOf). share.books ≡ ledgers.now) shares.old }
    requires parts { parts_of shelf.old.faults shelf.old.number ≡ ledgers.now.plan.parts }
    requires amount { shelf.old.rose ≡ false → amount_of shelf.old.faults shelf.old.number ≡ pos 0 }
    ensures same { (shelf.new ≡ shelf.old) × (shares.new ≡ shares.old) }
    ensures named { NamesRisen shares.old shelf.old }
{
    for share in shares.iter_mut() {
        risen(ledgers, shelf, share);
    }
}

// A share that names this drive shows that its count rose.
fn risen<D: Drive>(ledgers: &Ledgers, shelf: &mut Shelf<D>, share: &mut FaultShare)
    requires own { (shelf.old.faults.books ≡ ledgers.now) × (share.old.books ≡ ledgers.now) }
    requires parts { parts_of shelf.old.faults shelf.old.number ≡ ledgers.now.plan.parts }
    requires amount { shelf.old.rose ≡ false → amount_of shelf.old.faults shelf.old.number ≡ pos 0 }
    ensures same { (shelf.new ≡ shelf.old) × (share.new ≡ share.old) }
    ensures named { share.old.drive ≡ shelf.old.number → shelf.old.rose ≡ true }
{
    if share.drive() == shelf.number {
        known(ledgers, &mut shelf.faults, share);
    }
}

// Each share is of a drive.
pub(crate) fn all_within(shares: &Vec<FaultShare>)
    ensures { All (λ (share : FaultOf). share.drive < share.books.plan.loose) shares.now.items }
{
    for share in shares {
        share.drive();
    }
}

// The share shows that the lot, with all parts of the drive's fault ledger, owes.
fn known(ledgers: &Ledgers, faults: &mut Lot, share: &mut FaultShare)
    requires own { (faults.old.books ≡ ledgers.now) × (share.old.books ≡ ledgers.now) }
    requires parts { parts_of faults.old share.old.drive ≡ ledgers.now.plan.parts }
    ensures same { (faults.new ≡ faults.old) × (share.new ≡ share.old) }
    ensures owes { amount_of faults.old share.old.drive ≢ pos 0 }
{
    let drive = share.drive();
    ledgers.books.known(faults, &mut share.lot, drive);
}
