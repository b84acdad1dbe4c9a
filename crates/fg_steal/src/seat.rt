use crate::view::View;
use atomic_table::Seat as Place;
use std::marker::Model;

/// The right to draw blocks from one [`Claims`](crate::Claims). It has a number, which is that of the part that it owns.
/// Contracts see which claims it is of, its number, the blocks that it drew, each as its part and its number there,
/// the runs that it was told are spent, and the parts of which it was told `None`.
#[derive(Drop)]
pub struct Seat {
    pub(crate) number: u32,
    // for each run, whether the seat was told that it is spent
    pub(crate) spent: Vec<bool>,
    pub(crate) place: Place<(), View>,
}

impl Model for Seat {
    ghost use Rattle.std.specs.Prelude.{◌≡◌, []};
    ghost use Rattle.fg_steal.specs.Seat.{SeatValue, seat_of, Remembers};

    ghost Value = { SeatValue };

    ghost view = { λ s. seat_of s.place.table_id s.number s.place.me.0 };

    ghost invariant = { λ s. (s.place.me.0.stands_for ≡ 1) × (s.place.me.1 ≡ []) × Remembers s.place.me.0 s.spent.items };
}
