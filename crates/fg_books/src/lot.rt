//! The token that holds shares.

use crate::account::Account;
use atomic_table::Badge;
use std::marker::Model;

/// At most one share of each ledger of one `Books`. It has no bytes, and may be dropped.
///
/// Contracts see the books by `lot.books`, and the share of the ledger `k` by `parts_of lot k` and `amount_of lot k`:
/// 0 and 0 where there is none.
#[derive(Drop)]
pub struct Lot {
    pub(crate) badge: Badge<Account>,
}

impl Model for Lot {
    ghost use Rattle.fg_books.specs.Shares.{Holding, holding_of, IsHeld};

    ghost Value = { Holding };

    ghost view = { λ l. holding_of l.badge.table_id l.badge.views };

    ghost invariant = { λ l. IsHeld l.badge.views };
}
