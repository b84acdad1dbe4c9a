//! The ledgers of a cache, and what is paid in them.

ghost use Rattle.std.specs.Prelude.{◌≡◌, ℕ, ◌+◌, ◌-◌, ◌<◌, ◌≤◌, ◌^◌, pos, ◌+ℤ◌, ◌-ℤ◌, ◌≤ℤ◌, IfOk};
ghost use Rattle.fg_books.specs.Shares.{parts_of, amount_of};
ghost use Rattle.fg_cache.specs.Share.{idle, joined};

use crate::share::Share;
use fg_base::Memory;
use fg_books::{Books, Lot};
use std::alloc::Global;
use std::marker::Model;

/// One ledger of faults for each drive, and behind them the four running ledgers.
#[derive(Drop)]
pub(crate) struct Ledgers {
    pub(crate) books: Books,
    first: u32,
    parts: u32,
}

impl Model for Ledgers {
    ghost use Rattle.fg_books.specs.Shares.{BooksId};
    ghost use Rattle.fg_cache.specs.Share.{IsRunning};

    ghost Value = { BooksId };

    ghost view = { λ l. l.books };

    ghost invariant = { λ l. IsRunning l.books l.first l.parts };
}

impl Ledgers {
    /// The ledgers of so many drives and parts. The lot has all parts of all of them.
    pub(crate) fn new(alloc: Global, drives: u32, parts: u32) -> Result<(Ledgers, Lot), Memory>
        requires drives { drives ≤ 16 }
        requires part { 1 ≤ parts }
        ensures own { IfOk result (λ r. r.1.books ≡ r.0) }
        ensures plan { IfOk result (λ r. (r.0.plan.loose ≡ drives) × (r.0.plan.parts ≡ parts)) }
        ensures parts { IfOk result (λ r. (k : ℕ) → k < drives + 4 → parts_of r.1 k ≡ parts) }
        ensures amounts { IfOk result (λ r. (k : ℕ) → amount_of r.1 k ≡ pos 0) }
    {
        let (books, lot) = Books::new(alloc, drives + 4, parts, drives)?;
        let ledgers = Ledgers {
            books,
            first: drives,
            parts,
        };
        Ok((ledgers, lot))
    }

    /// How many parts each ledger has.
    pub(crate) fn parts(&self) -> u32
        ensures { result ≡ self.now.plan.parts }
    {
        self.parts
    }

    /// All parts of the four running ledgers, cut off a lot that has them.
    pub(crate) fn all(&self, lot: &mut Lot) -> Share
        requires own { lot.old.books ≡ self.now }
        requires parts { (k : ℕ) → k < self.now.plan.loose + 4 → parts_of lot.old k ≡ self.now.plan.parts }
        requires amounts { (k : ℕ) → amount_of lot.old k ≡ pos 0 }
        ensures all { result ≡ idle self.now self.now.plan.parts }
        ensures own { lot.new.books ≡ self.now }
        ensures faults { (k : ℕ) → k < self.now.plan.loose → parts_of lot.new k ≡ self.now.plan.parts }
        ensures amounts { (k : ℕ) → amount_of lot.new k ≡ pos 0 }
    {
        let lot = self.books.cut_off(lot, self.first, 4, self.parts);
        Share { lot }
    }

    /// One part of each of the four, with no amount.
    pub(crate) fn cut_one(&self, share: &mut Share) -> Share
        requires own { share.old.books ≡ self.now }
        requires parts { 1 ≤ share.old.parts }
        requires idle { share.old ≡ idle share.old.books share.old.parts }
        ensures one { result ≡ idle self.now 1 }
        ensures rest { share.new ≡ idle self.now (share.old.parts - 1) }
    {
        let lot = self.books.cut_off(&mut share.lot, self.first, 4, 1);
        Share { lot }
    }

    /// Pays for one load that is pushed.
    pub(crate) fn pay_push(&self, from: &mut Share, to: &mut Share)
        requires own { (from.old.books ≡ self.now) × (to.old.books ≡ self.now) }
        requires parts { (1 ≤ from.old.parts) × (1 ≤ to.old.parts) }
        ensures from { from.new ≡ record from.old { pushes = from.old.pushes -ℤ pos 1 } }
        ensures to { to.new ≡ record to.old { pushes = to.old.pushes +ℤ pos 1 } }
    {
        self.books.pay(&mut from.lot, &mut to.lot, self.first, 1);
    }

    /// Pays for so many pages that are taken.
    pub(crate) fn pay_takes(&self, from: &mut Share, to: &mut Share, count: u32)
        requires own { (from.old.books ≡ self.now) × (to.old.books ≡ self.now) }
        requires parts { (1 ≤ from.old.parts) × (1 ≤ to.old.parts) }
        ensures from { from.new ≡ record from.old { takes = from.old.takes -ℤ pos count } }
        ensures to { to.new ≡ record to.old { takes = to.old.takes +ℤ pos count } }
    {
        let takes = self.first + 1;
        self.books
            .pay(&mut from.lot, &mut to.lot, takes, u64::from(count));
    }

    /// Pays for a load that begins in an entry, or the other way round for one that is given up.
    pub(crate) fn pay_entry(&self, from: &mut Share, to: &mut Share)
        requires own { (from.old.books ≡ self.now) × (to.old.books ≡ self.now) }
        requires parts { (1 ≤ from.old.parts) × (1 ≤ to.old.parts) }
        ensures from { from.new ≡ record from.old { entries = from.old.entries -ℤ pos 1 } }
        ensures to { to.new ≡ record to.old { entries = to.old.entries +ℤ pos 1 } }
    {
        let entries = self.first + 2;
        self.books.pay(&mut from.lot, &mut to.lot, entries, 1);
    }

    /// Pays for a listing that is repaired.
    pub(crate) fn pay_repair(&self, from: &mut Share, to: &mut Share)
        requires own { (from.old.books ≡ self.now) × (to.old.books ≡ self.now) }
        requires parts { (1 ≤ from.old.parts) × (1 ≤ to.old.parts) }
        ensures from { from.new ≡ record from.old { repairs = from.old.repairs -ℤ pos 1 } }
        ensures to { to.new ≡ record to.old { repairs = to.old.repairs +ℤ pos 1 } }
    {
        let repairs = self.first + 3;
        self.books.pay(&mut from.lot, &mut to.lot, repairs, 1);
    }

    /// Both shares as one.
    pub(crate) fn join(&self, one: Share, other: Share) -> Share
        requires own { (one.books ≡ self.now) × (other.books ≡ self.now) }
        ensures { result ≡ joined one other }
    {
        let Share { lot: first } = one;
        let Share { lot: second } = other;
        Share {
            lot: self.books.join(first, second),
        }
    }

    /// With all parts in one hand, nothing is owed.
    pub(crate) fn settle(&self, all: &mut Share)
        requires own { all.old.books ≡ self.now }
        requires parts { all.old.parts ≡ self.now.plan.parts }
        ensures same { all.new ≡ all.old }
        ensures settled { all.old ≡ idle self.now self.now.plan.parts }
    {
        let Share { lot } = all;
        let mut none = self.books.cut_off(lot, self.first, 0, 0);
        self.books.known(lot, &mut none, self.first);
        self.books.known(lot, &mut none, self.first + 1);
        self.books.known(lot, &mut none, self.first + 2);
        self.books.known(lot, &mut none, self.first + 3);
    }
}
