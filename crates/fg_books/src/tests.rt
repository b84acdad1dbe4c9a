//! Threads that pay into one till under a lock, and lots that take no room.
ghost use Rattle.std.specs.Prelude.{◌≡◌, ◌+◌, ◌*◌, ◌≤◌, pos, ◌-ℤ◌, if◌then◌else◌};
ghost use Rattle.fg_books.specs.Shares.{parts_of, amount_of};

use crate::{Books, Lot};
use std::marker::{Brand, PhantomData};
use std::mem::size_of;
use std::process::Abort;
use std::sync::{Mutex, Wait};
use std::test::Fail;
use std::thread::{Threads, join};

const TIMES: u32 = 500;

/// Which books the till belongs to.
trait Place {
    ghost use Rattle.fg_books.specs.Shares.{BooksId};

    ghost books: { BooksId };
}

impl Place for Brand {
    ghost use Rattle.fg_books.specs.Shares.{some_books};

    ghost books = { some_books };
}

/// What was paid, beside the share that says so.
#[derive(Drop)]
struct Till<P: Place> {
    lot: Lot,
    paid: u64,
    of: PhantomData<P>,
    ghost own: { lot.books ≡ P.books },
    ghost part: { parts_of lot 0 ≡ 1 },
    ghost counted: { amount_of lot 0 ≡ pos paid },
}

impl<P: Place> Till<P> {
    fn take(&mut self, books: &Books, from: &mut Lot) -> bool
        requires own { (books.now ≡ P.books) × (from.old.books ≡ P.books) }
        requires part { parts_of from.old 0 ≡ 1 }
        ensures own { from.new.books ≡ P.books }
        ensures part { parts_of from.new 0 ≡ 1 }
        ensures paid { amount_of from.new 0 ≡ amount_of from.old 0 -ℤ (if result then pos 1 else pos 0) }
    {
        let Some(paid) = self.paid.checked_add(1) else {
            return false;
        };
        books.pay(from, &mut self.lot, 0, 1);
        self.paid = paid;
        true
    }
}

fn pay_often<P: Place, R: Wait>(
    rt: &R,
    books: &Books,
    till: &Mutex<Till<P>>,
    mut lot: Lot,
) -> (Lot, u32)
    requires own { (books.now ≡ P.books) × (lot.books ≡ P.books) }
    requires part { (parts_of lot 0 ≡ 1) × (amount_of lot 0 ≡ pos 0) }
    ensures own { (result.0.books ≡ P.books) × (parts_of result.0 0 ≡ 1) }
    ensures paid { amount_of result.0 0 ≡ pos 0 -ℤ pos result.1 }
    ensures few { result.1 ≤ TIMES }
{
    let mut count = 0;
    for i in 0..TIMES {
        if till.lock(rt).take(books, &mut lot) {
            count += 1;
        }
    }
    (lot, count)
}

// Two threads pay, and their lots are joined.
fn pay_in_pair<P: Place + Send + Sync, R: Threads + Wait + Sync>(
    rt: &R,
    books: &Books,
    till: &Mutex<Till<P>>,
    one: Lot,
    other: Lot,
) -> (Lot, u32)
    requires own { (books.now ≡ P.books) × (one.books ≡ P.books) × (other.books ≡ P.books) }
    requires one { (parts_of one 0 ≡ 1) × (amount_of one 0 ≡ pos 0) }
    requires other { (parts_of other 0 ≡ 1) × (amount_of other 0 ≡ pos 0) }
    ensures own { (result.0.books ≡ P.books) × (parts_of result.0 0 ≡ 2) }
    ensures paid { amount_of result.0 0 ≡ pos 0 -ℤ pos result.1 }
    ensures few { result.1 ≤ 2 * TIMES }
{
    let ((one, a), (other, b)) = join(
        rt,
        || -> (Lot, u32)
            requires { (books.now ≡ P.books) × (one.books ≡ P.books) × (parts_of one 0 ≡ 1) × (amount_of one 0 ≡ pos 0) }
            ensures { (result.0.books ≡ P.books) × (parts_of result.0 0 ≡ 1) × (amount_of result.0 0 ≡ pos 0 -ℤ pos result.1) × (result.1 ≤ TIMES) }
        { pay_often(rt, books, till, one) },
        || -> (Lot, u32)
            requires { (books.now ≡ P.books) × (other.books ≡ P.books) × (parts_of other 0 ≡ 1) × (amount_of other 0 ≡ pos 0) }
            ensures { (result.0.books ≡ P.books) × (parts_of result.0 0 ≡ 1) × (amount_of result.0 0 ≡ pos 0 -ℤ pos result.1) × (result.1 ≤ TIMES) }
        { pay_often(rt, books, till, other) },
    );
    (books.join(one, other), a + b)
}

// What the till says was paid, and what two pairs of threads say that they paid.
fn paid_by_four<P: Place + Send + Sync, R: Threads + Wait + Sync>(
    rt: &R,
    books: &Books,
    all: Lot,
) -> (u64, u32, u32)
    requires own { (books.now ≡ P.books) × (all.books ≡ P.books) }
    requires plan { (P.books.plan.ledgers ≡ 1) × (P.books.plan.parts ≡ 5) × (P.books.plan.loose ≡ 0) }
    requires all { (parts_of all 0 ≡ 5) × (amount_of all 0 ≡ pos 0) }
    ensures { result.0 ≡ result.1 + result.2 }
{
    let (rest, one) = books.cut(all, 0, 1, 1);
    let (rest, two) = books.cut(rest, 0, 1, 1);
    let (rest, three) = books.cut(rest, 0, 1, 1);
    let (mine, four) = books.cut(rest, 0, 1, 1);
    let till: Mutex<Till<P>> = Mutex::new(Till {
        lot: mine,
        paid: 0,
        of: PhantomData,
    });
    let ((left, a), (right, b)) = join(
        rt,
        || -> (Lot, u32)
            requires own { (books.now ≡ P.books) × (one.books ≡ P.books) × (two.books ≡ P.books) }
            requires parts { (parts_of one 0 ≡ 1) × (amount_of one 0 ≡ pos 0) × (parts_of two 0 ≡ 1) × (amount_of two 0 ≡ pos 0) }
            ensures { (result.0.books ≡ P.books) × (parts_of result.0 0 ≡ 2) × (amount_of result.0 0 ≡ pos 0 -ℤ pos result.1) }
        { pay_in_pair(rt, books, &till, one, two) },
        || -> (Lot, u32)
            requires own { (books.now ≡ P.books) × (three.books ≡ P.books) × (four.books ≡ P.books) }
            requires parts { (parts_of three 0 ≡ 1) × (amount_of three 0 ≡ pos 0) × (parts_of four 0 ≡ 1) × (amount_of four 0 ≡ pos 0) }
            ensures { (result.0.books ≡ P.books) × (parts_of result.0 0 ≡ 2) × (amount_of result.0 0 ≡ pos 0 -ℤ pos result.1) }
        { pay_in_pair(rt, books, &till, three, four) },
    );
    let Till {
        mut lot,
        paid,
        of: _,
    } = till.into_inner();
    let mut payers = books.join(left, right);
    books.known(&mut lot, &mut payers, 0);
    (paid, a, b)
}

fn all_agree<P: Place + Send + Sync, R: Threads + Wait + Abort + Sync>(
    rt: &R,
    books: &Books,
    all: Lot,
)
    requires own { (books.now ≡ P.books) × (all.books ≡ P.books) }
    requires plan { (P.books.plan.ledgers ≡ 1) × (P.books.plan.parts ≡ 5) × (P.books.plan.loose ≡ 0) }
    requires all { (parts_of all 0 ≡ 5) × (amount_of all 0 ≡ pos 0) }
{
    let (paid, left, right) = paid_by_four::<P, R>(rt, books, all);
    assert_eq!(rt;
        (paid, left, right),
        (u64::from(4 * TIMES), 2 * TIMES, 2 * TIMES)
    );
}

#[test]
fn the_till_has_what_four_threads_paid(rt: HostRuntime) -> Result<(), Fail> {
    let (books, all) = Books::new(rt.alloc(), 1, 5, 0)?;
    all_agree::<Brand, _>(&rt, &books, all);
    Ok(())
}

#[test]
fn a_lot_takes_no_room(rt: HostRuntime) {
    assert_eq!(rt; size_of::<Lot>(), 0);
}

// A fault of a drive: a share without a part that stands for an amount, in an open ledger.
#[test]
fn an_open_ledger_has_shares_without_a_part(rt: HostRuntime) -> Result<(), Fail> {
    let (books, all) = Books::new(rt.alloc(), 3, 1, 1)?;
    let (mut shelf, mut fault) = books.cut(all, 0, 1, 0);
    books.pay(&mut shelf, &mut fault, 0, 1);
    books.known(&mut shelf, &mut fault, 0);
    let all = books.join(shelf, fault);
    let (_rest, _part) = books.cut(all, 1, 2, 1);
    Ok(())
}
