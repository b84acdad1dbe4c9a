//! The pages that a cache may be asked for, as contracts see them.

ghost use Rattle.std.specs.Prelude.{◌≡◌, ℕ, List};
ghost use base.Fml.{ftrue};
ghost use base.Stored.{coded_list, coded_ℕ};

use fg_cell::ImageName;
use std::marker::{Brand, Model, PhantomData};

/// The pages that may be asked for. They are no value of the program: the proof of a call picks them.
pub trait Asked {
    ghost use Rattle.std.specs.Prelude.{ℕ, List};

    ghost pages: { List ℕ };
}

impl Asked for Brand {
    ghost use Rattle.std.specs.Prelude.{[]};

    ghost pages = { [] };
}

/// The pages that may be asked for. It has no bytes.
pub struct AskedPages {
    marker: PhantomData<()>,
    pub ghost pages: { List ℕ } by { coded_list coded_ℕ },
}

impl Model for AskedPages {
    ghost also_owns = { λ _. ftrue };
}

impl AskedPages {
    /// The pages that `A` has. A function generic in `A` that is called at `Brand` has those that its caller's proof
    /// picks from the call's arguments.
    pub fn of<A: Asked>() -> AskedPages
        ensures { result.pages ≡ A.pages }
    {
        AskedPages {
            marker: PhantomData,
        }
    }
}

impl Drop for AskedPages {
    fn drop(self) {
        let Self { marker: _ } = self;
    }
}

/// What a cache is named by: the image's pages, where they are told, and the pages that may be asked for.
#[derive(Drop)]
pub struct CacheName {
    pub image: ImageName,
    pub asked: AskedPages,
}
