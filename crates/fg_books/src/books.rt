//! The books: their ledgers, and the calls on lots.
ghost use Rattle.std.specs.Prelude.{◌≡◌, ◌≢◌, ℕ, ◌+◌, ◌<◌, ◌≤◌, ◌⊎◌, pos, ◌+ℤ◌, ◌-ℤ◌, ◌≤ℤ◌, IfOk, [], ◌∷◌};
ghost use Rattle.fg_books.specs.Shares.{parts_of, amount_of, account_of};
ghost use Rattle.fg_books.specs.Rules.{joined};
ghost use Rattle.fg_books.specs.declared.account.Account.{Account};

use crate::account::{Account, Plan};
use crate::lot::Lot;
use crate::steps::{Ledgers, Rule, Tell, Union, split_as};
use atomic_table::{Badge, Seat, Table};
use fg_base::Memory;
use std::alloc::Global;
use std::marker::{Brand, Model};
use std::mem;
use std::snapshot::Snapshot;

/// Ledgers, numbered from 0. Contracts see which books they are, by `table`, and their numbers, by `plan`.
///
/// Each call but `new` takes no memory and waits for nobody.
#[derive(Drop)]
pub struct Books {
    table: Table<(), Account, Plan, Rule, Global>,
}

impl Model for Books {
    ghost use Rattle.std.specs.Prelude.{◌≡◌};
    ghost use Rattle.fg_books.specs.Shares.{BooksId};

    ghost Value = { BooksId };

    ghost view = { λ b. record { table = b.table.shared.table_id; plan = b.table.shared.key } };

    ghost invariant = { λ b. b.table.shared.table_id.words ≡ 1 };
}

impl Books {
    /// The lot has of every ledger one share with all parts and amount 0. The first `loose` ledgers are open: there a
    /// share without a part may still have an amount, of at least 0. In every other ledger such a share has amount 0.
    pub fn new(alloc: Global, ledgers: u32, parts: u32, loose: u32) -> Result<(Books, Lot), Memory>
        requires part { 1 ≤ parts }
        requires loose { loose ≤ ledgers }
        ensures plan { IfOk result (λ r. (r.0.plan.ledgers ≡ ledgers) × (r.0.plan.parts ≡ parts) × (r.0.plan.loose ≡ loose)) }
        ensures own { IfOk result (λ r. r.1.books ≡ r.0) }
        ensures parts { IfOk result (λ r. (k : ℕ) → k < ledgers → parts_of r.1 k ≡ parts) }
        ensures amounts { IfOk result (λ r. (k : ℕ) → amount_of r.1 k ≡ pos 0) }
    {
        let plan = Plan {
            ledgers,
            parts,
            loose,
        };
        let (table, seat) = Table::of_words(alloc, &[0], &plan)?;
        let lot = Lot {
            badge: seat.into_badge(),
        };
        Ok((Books { table }, lot))
    }

    /// Cuts `parts` parts of each of the `count` ledgers from `first` on into a lot of their own, the second, with
    /// amount 0. The first lot has the rest.
    pub fn cut(&self, lot: Lot, first: u32, count: u32, parts: u32) -> (Lot, Lot)
        requires own { lot.books ≡ self.now }
        requires parts { (k : ℕ) → first ≤ k → k < first + count → parts ≤ parts_of lot k }
        requires amounts { (k : ℕ) → first ≤ k → k < first + count → parts_of lot k ≡ parts → amount_of lot k ≡ pos 0 }
        ensures own { (result.0.books ≡ self.now) × (result.1.books ≡ self.now) }
        ensures cut { (k : ℕ) → first ≤ k → k < first + count → parts_of result.1 k ≡ parts }
        ensures rest { (k : ℕ) → first ≤ k → k < first + count → parts_of result.0 k + parts ≡ parts_of lot k }
        ensures no_others { (k : ℕ) → (k < first) ⊎ (first + count ≤ k) → parts_of result.1 k ≡ 0 }
        ensures others { (k : ℕ) → (k < first) ⊎ (first + count ≤ k) → parts_of result.0 k ≡ parts_of lot k }
        ensures no_amounts { (k : ℕ) → amount_of result.1 k ≡ pos 0 }
        ensures amounts { (k : ℕ) → amount_of result.0 k ≡ amount_of lot k }
    {
        let Lot { badge } = lot;
        let mut seat = badge.into_seat();
        let about = (first, count, parts);
        let other = split_as::<Brand, _>(&self.table.shared, &mut seat, &about);
        let rest = Lot {
            badge: seat.into_badge(),
        };
        let cut = Lot {
            badge: other.into_badge(),
        };
        (rest, cut)
    }

    /// Cuts as `cut` does, from a lot behind a reference, which has the rest afterwards.
    pub fn cut_off(&self, lot: &mut Lot, first: u32, count: u32, parts: u32) -> Lot
        requires own { lot.old.books ≡ self.now }
        requires parts { (k : ℕ) → first ≤ k → k < first + count → parts ≤ parts_of lot.old k }
        requires amounts { (k : ℕ) → first ≤ k → k < first + count → parts_of lot.old k ≡ parts → amount_of lot.old k ≡ pos 0 }
        ensures own { (lot.new.books ≡ self.now) × (result.books ≡ self.now) }
        ensures cut { (k : ℕ) → first ≤ k → k < first + count → parts_of result k ≡ parts }
        ensures rest { (k : ℕ) → first ≤ k → k < first + count → parts_of lot.new k + parts ≡ parts_of lot.old k }
        ensures no_others { (k : ℕ) → (k < first) ⊎ (first + count ≤ k) → parts_of result k ≡ 0 }
        ensures others { (k : ℕ) → (k < first) ⊎ (first + count ≤ k) → parts_of lot.new k ≡ parts_of lot.old k }
        ensures no_amounts { (k : ℕ) → amount_of result k ≡ pos 0 }
        ensures amounts { (k : ℕ) → amount_of lot.new k ≡ amount_of lot.old k }
    {
        let whole = Lot {
            badge: mem::replace(&mut lot.badge, Badge::blank()),
        };
        let (left, cut) = self.cut(whole, first, count, parts);
        let Lot { badge } = left;
        lot.badge = badge;
        cut
    }

    /// All of both lots: the parts and the amounts of a ledger's shares are added.
    pub fn join(&self, one: Lot, other: Lot) -> Lot
        requires own { (one.books ≡ self.now) × (other.books ≡ self.now) }
        ensures own { result.books ≡ self.now }
        ensures parts { (k : ℕ) → parts_of result k ≡ parts_of one k + parts_of other k }
        ensures amounts { (k : ℕ) → amount_of result k ≡ amount_of one k +ℤ amount_of other k }
    {
        let Lot { badge: one } = one;
        let Lot { badge: other } = other;
        let seat = united(&self.table.shared, one, other);
        Lot {
            badge: seat.into_badge(),
        }
    }

    /// Lowers the amount in the first lot by `by`, and raises the amount in the second by as much.
    pub fn pay(&self, from: &mut Lot, to: &mut Lot, ledger: u32, by: u64)
        requires own { (from.old.books ≡ self.now) × (to.old.books ≡ self.now) }
        requires from { 1 ≤ parts_of from.old ledger }
        requires to { (1 ≤ parts_of to.old ledger) ⊎ (ledger < self.now.plan.loose) }
        ensures own { (from.new.books ≡ self.now) × (to.new.books ≡ self.now) }
        ensures lowered { amount_of from.new ledger ≡ amount_of from.old ledger -ℤ pos by }
        ensures raised { amount_of to.new ledger ≡ amount_of to.old ledger +ℤ pos by }
        ensures from_others { (k : ℕ) → k ≢ ledger → amount_of from.new k ≡ amount_of from.old k }
        ensures to_others { (k : ℕ) → k ≢ ledger → amount_of to.new k ≡ amount_of to.old k }
        ensures from_parts { (k : ℕ) → parts_of from.new k ≡ parts_of from.old k }
        ensures to_parts { (k : ℕ) → parts_of to.new k ≡ parts_of to.old k }
    {
        let one = mem::replace(&mut from.badge, Badge::blank());
        let other = mem::replace(&mut to.badge, Badge::blank());
        let about = (Snapshot::of(&one), Snapshot::of(&other), ledger, by);
        let mut seat = united(&self.table.shared, one, other);
        let other = split_as::<Brand, _>(&self.table.shared, &mut seat, &about);
        from.badge = seat.into_badge();
        to.badge = other.into_badge();
    }

    /// Says what two lots with all parts of a ledger know: no other share there has a part, so no other owes.
    pub fn known(&self, one: &mut Lot, other: &mut Lot, ledger: u32)
        requires own { (one.old.books ≡ self.now) × (other.old.books ≡ self.now) }
        requires ledger { ledger < self.now.plan.ledgers }
        requires parts { parts_of one.old ledger + parts_of other.old ledger ≡ self.now.plan.parts }
        ensures same { (one.new ≡ one.old) × (other.new ≡ other.old) }
        ensures most { (amount_of one.old ledger +ℤ amount_of other.old ledger) ≤ℤ pos 0 }
        ensures settled { self.now.plan.loose ≤ ledger → amount_of one.old ledger +ℤ amount_of other.old ledger ≡ pos 0 }
    {
        let first = mem::replace(&mut one.badge, Badge::blank());
        let second = mem::replace(&mut other.badge, Badge::blank());
        let about = (Snapshot::of(&first), Snapshot::of(&second));
        let mut seat = united(&self.table.shared, first, second);
        self.table.shared.load::<Tell>(&mut seat, 0);
        let second = split_as::<Brand, _>(&self.table.shared, &mut seat, &about);
        one.badge = seat.into_badge();
        other.badge = second.into_badge();
    }
}

/// One seat for the shares of both.
fn united(ledgers: &Ledgers, one: Badge<Account>, other: Badge<Account>) -> Seat<(), Account>
    requires words { 0 < ledgers.now.table_id.words }
    requires own { (one.table_id ≡ ledgers.now.table_id) × (other.table_id ≡ ledgers.now.table_id) }
    requires one { (v : Account) × (one.views ≡ v ∷ []) }
    requires other { (v : Account) × (other.views ≡ v ∷ []) }
    ensures own { result.table_id ≡ ledgers.now.table_id }
    ensures joined { result.me ≡ (joined (account_of one.views) (account_of other.views), []) }
{
    let mut seat = one.into_seat();
    ledgers.join_seat::<Union>(&mut seat, other.into_seat());
    seat
}
