//! A share of the four running ledgers.

use fg_books::Lot;
use std::marker::Model;

/// What a pass, a page set, a queue or a drive has of the four ledgers. It has no bytes.
#[derive(Drop)]
pub(crate) struct Share {
    pub(crate) lot: Lot,
}

impl Model for Share {
    ghost use Rattle.fg_cache.specs.Share.{Four, four_of, IsEven};

    ghost Value = { Four };

    ghost view = { λ s. four_of s.lot };

    ghost invariant = { λ s. IsEven s.lot };
}
