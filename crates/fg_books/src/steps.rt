//! The rule of the ledgers, and its three kinds of step: a cut, a join, and a step of one account that changes nothing.
ghost use Rattle.std.specs.Prelude.{◌≡◌, ◌<◌, []};
ghost use Rattle.atomic_table.specs.Table.{Splits};
ghost use Rattle.fg_books.specs.Rules.{IsOn, Keeps};

use crate::account::{Account, Plan};
use atomic_table::{Join, Play, Seat, Shared, Split, TableRule};
use std::marker::{Brand, PhantomData};

pub(crate) type Ledgers = Shared<(), Account, Plan, Rule>;

/// The amounts of each ledger sum to 0, its parts are all there, and a share without a part owes nothing.
pub struct Rule;

impl TableRule<(), Account, Plan> for Rule {
    ghost use Rattle.fg_books.specs.Rules.{Keeps, opening_of};

    ghost holds = { Keeps };

    ghost first = { opening_of };
}

/// The shares of two accounts, added.
pub(crate) struct Union;

impl Join<Account> for Union {
    ghost use Rattle.fg_books.specs.Rules.{joined, spent};

    ghost both = { joined };

    ghost spent = { spent };
}

/// What an account with all parts of a ledger tells.
pub(crate) struct Tell;

impl Play<(), Account> for Tell {
    ghost use Rattle.fg_books.specs.Rules.{told};

    ghost then = { told };
}

/// The two accounts that a cut leaves. Each call picks them.
pub(crate) trait Halves {
    ghost use Rattle.fg_books.specs.declared.account.Account.{Account};

    ghost left: { Account };

    ghost right: { Account };
}

impl Halves for Brand {
    ghost use Rattle.fg_books.specs.Rules.{spent};

    ghost left = { spent };

    ghost right = { spent };
}

struct Cut<H> {
    halves: PhantomData<H>,
}

impl<H: Halves> Split<Account> for Cut<H> {
    ghost left = { λ _. H.left };

    ghost right = { λ _. H.right };
}

/// Cuts a seat's account in two. What the halves are made from is passed as `_about`, for the pick alone.
pub(crate) fn split_as<H: Halves, A>(
    ledgers: &Ledgers,
    seat: &mut Seat<(), Account>,
    _about: &A,
) -> Seat<(), Account>
    requires { IsOn ledgers.now.table_id seat.old.table_id × Splits (Keeps ledgers.now.key) seat.old.id seat.old.me.0 H.left H.right }
    ensures kept { (seat.new.table_id ≡ seat.old.table_id) × (seat.new.me ≡ (H.left, seat.old.me.1)) }
    ensures new { (result.table_id ≡ seat.old.table_id) × (result.me ≡ (H.right, [])) }
{
    ledgers.split_seat::<Cut<H>>(seat)
}
