//! The workers take their seats for a wave.

ghost use Rattle.std.specs.Prelude.{◌≡◌, ℕ, ◌<◌, [], All, length, map, slice_index_or, vec_capacity};
ghost use Rattle.fg_crew.specs.Slots.{Has, IsFresh};
ghost use Rattle.fg_steal.specs.Claims.{ClaimsValue};
ghost use Rattle.fg_steal.specs.Seat.{fresh_seat};

use crate::slot::{Desk, Slot};
use fg_steal::{Claims, Seat};
use std::alloc::Global;

/// Each slot gets one of the seats, which are as many, the one of its own number. The vector keeps its room.
pub(crate) fn seat_all<K, F: Drop>(
    alloc: Global,
    claims: &Claims,
    seats: &mut Vec<Seat>,
    slots: &mut [Slot<K, F>],
)
    requires count { length seats.old.items ≡ length slots.old }
    requires fresh { All (λ seat. seat ≡ fresh_seat claims.now seat.number) seats.old.items }
    ensures seats { seats.new.items ≡ [] }
    ensures room { vec_capacity seats.new ≡ vec_capacity seats.old }
    ensures kept { map (λ slot. slot.kept) slots.new ≡ map (λ slot. slot.kept) slots.old }
    ensures fresh { All (λ slot. Has (IsFresh claims.now) slot.desk) slots.new }
{
    while let Some(seat) = seats.pop() {
        seat_one(alloc, claims, &mut slots[seats.len()], seat);
    }
}

/// A slot gets a seat.
fn seat_one<K, F: Drop>(alloc: Global, claims: &Claims, slot: &mut Slot<K, F>, seat: Seat)
    requires { seat ≡ fresh_seat claims.now seat.number }
    ensures kept { slot.new.kept ≡ slot.old.kept }
    ensures fresh { Has (IsFresh claims.now) slot.new.desk }
{
    slot.desk = Some(Desk {
        seat,
        results: Vec::new(alloc),
        end: Ok(()),
    });
}
