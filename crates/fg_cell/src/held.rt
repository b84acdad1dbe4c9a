//! What a lock lends.
ghost use Rattle.std.specs.Prelude.{◌≡◌};

use crate::fit::Fit;
use crate::named::Named;
use std::marker::Model;

/// A value that was taken from a lock. It is no `Drop`, so it has to be given back.
pub struct Held<'a, V: Fit> {
    pub(crate) lock: &'a Named<V>,
    pub(crate) value: V,
}

impl<'a, V: Fit> Model for Held<'a, V> {
    ghost use Rattle.fg_cell.specs.Lent.{Lent};

    ghost Value = { Lent V.Name V };

    ghost view = { λ h. record { name = h.lock.now; value = h.value } };
}

impl<'a, V: Fit> Held<'a, V> {
    ghost use mir.Syntax.{named};
    ghost use Rattle.std.specs.Prelude.{[]};
    ghost use Rattle.std.specs.Borrow.{Lends, sem};
    ghost use Rattle.fg_cell.specs.Lent.{holding};
    ghost use Rattle.fg_cell.specs.contracts.held.Held.{the_row};

    /// The value. What is left behind the reference has to fit the name only once it is given back.
    pub fn get(&mut self) -> &mut V
        ensures* writes_back { sem 𝓛 (Lends (the_row (record { mir = named 0; lft = [] }) V.row V.Name.row V.Fit) V.row self.entry result (holding self.old)) }
        ensures value { result.now ≡ self.old.value }
    {
        &mut self.value
    }
}
