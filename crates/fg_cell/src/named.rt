//! A lock round one value, which fits the lock's name.
ghost use Rattle.std.specs.Prelude.{◌≡◌};

use crate::fit::Fit;
use crate::held::Held;
use crate::veiled::Veiled;
use counted_slot::{Counted, FREE, Fits, PRESENT, TAKEN};
use std::marker::Model;
use std::sync::Wait;
use std::thread;

impl<V: Fit> Fits for Veiled<Option<V>> {
    ghost use Rattle.std.specs.Prelude.{IfSome};

    type Tag = V::Name;

    // What is there fits. Nothing is there while the value is lent.
    ghost fits = { λ name place. IfSome place.value (V.fits name) };
}

/// A value that one thread at a time may take. Contracts see the lock as its name.
///
/// The value may be `Send` without being `Sync`. Its place is free while the value is in it, and present while it is
/// lent, so that nobody but who has it can put one back.
#[derive(Drop)]
pub struct Named<V: Fit> {
    slot: Counted<Veiled<Option<V>>>,
}

impl<V: Fit> Model for Named<V> {
    ghost Value = { V.Name };

    ghost view = { λ n. n.slot };
}

impl<V: Fit> Named<V> {
    pub fn new(value: V, name: V::Name) -> Named<V>
        requires { V.fits name value }
        ensures { result ≡ name }
    {
        Named {
            slot: Counted::new(Veiled::new(Some(value)), &name),
        }
    }

    /// Takes the value, as soon as no other thread has it.
    pub fn take<R: Wait>(&self, rt: &R) -> Held<'_, V>
        ensures name { result.name ≡ self.now }
        ensures fits { V.fits self.now result.value }
    {
        for _ in rt.forever() {
            let (found, claim) = self.slot.turn(FREE, TAKEN);
            if found != FREE {
                claim.done();
            } else if let Some(value) = claim.put(Veiled::new(None), PRESENT).into_inner() {
                return Held { lock: self, value };
            }
            thread::yield_now();
        }
        unreachable!()
    }

    /// Gives a value back to the lock that it was taken from, which the value knows: of two locks with one name the
    /// right one, whichever is named here. Only who has the value can, so the place is there at once.
    pub fn give<R: Wait>(&self, rt: &R, held: Held<'_, V>)
        requires { V.fits held.name held.value }
    {
        let Held { lock, value } = held;
        for _ in rt.forever() {
            let (found, claim) = lock.slot.turn(PRESENT, TAKEN);
            if found == PRESENT {
                return nothing(rt, claim.put(Veiled::new(Some(value)), FREE).into_inner());
            }
            claim.done();
            thread::yield_now();
        }
        unreachable!()
    }

    /// The value of a lock that no thread shares any more, so that it is in its place.
    pub fn into_inner<R: Wait>(self, rt: &R) -> V
        ensures { V.fits self result }
    {
        let Named { slot } = self;
        if let Some(value) = slot.into_inner().into_inner() {
            return value;
        }
        for _ in rt.forever() {
            thread::yield_now();
        }
        unreachable!()
    }
}

// While a value is lent, nothing stands in its place. No clause of the slot says so: with a value there the call never returns.
fn nothing<V, R: Wait>(rt: &R, place: Option<V>) {
    let Some(_value) = place else {
        return;
    };
    for _ in rt.forever() {
        thread::yield_now();
    }
    unreachable!()
}
