//! A value in a form that a `&` doesn't show, so that threads may share the place of a value that isn't `Sync`.
ghost use Rattle.std.specs.Prelude.{◌≡◌};
ghost use base.Fml.{ftrue};

use std::marker::Model;

pub(crate) struct Veiled<X> {
    value: X,
}

impl<X> Model for Veiled<X> {
    ghost also_owns = { λ _. ftrue };
}

impl<X> Veiled<X> {
    pub(crate) fn new(value: X) -> Veiled<X>
        ensures { result.value ≡ value }
    {
        Veiled { value }
    }

    pub(crate) fn into_inner(self) -> X
        ensures { result ≡ self.value }
    {
        let Veiled { value } = self;
        value
    }
}

impl<X: Drop> Drop for Veiled<X> {
    fn drop(self) {
        drop(self.into_inner());
    }
}

unsafe impl<X: Send> Send for Veiled<X> {}

unsafe impl<X: Send> Sync for Veiled<X> {}
