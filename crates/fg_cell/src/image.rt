//! The name of a frame: the pages of an image, as contracts see them, where they are told.
ghost use Rattle.std.specs.Prelude.{◌≡◌, ℕ, List, Option};
ghost use Rattle.std.specs.Coded.{coded_option};
ghost use base.Fml.{ftrue};
ghost use base.Stored.{coded_list, coded_ℕ};

use std::marker::{Brand, Model, PhantomData};

/// The bytes of each page of an image, in order, or none where the image stands on drives that don't tell what they
/// hold. They are no value of the program: the proof of a call picks them.
pub trait Image {
    ghost use Rattle.std.specs.Prelude.{ℕ, List, Option};

    ghost pages: { Option (List (List ℕ)) };
}

impl Image for Brand {
    ghost use Rattle.std.specs.Prelude.{None};

    ghost pages = { None };
}

/// The pages of an image, where they are told. It has no bytes.
pub struct ImageName {
    marker: PhantomData<()>,
    pub ghost pages: { Option (List (List ℕ)) } by { coded_option (coded_list (coded_list coded_ℕ)) },
}

impl Model for ImageName {
    ghost also_owns = { λ _. ftrue };
}

impl ImageName {
    /// The name of the image whose pages `I` has. A function generic in `I` that is called at `Brand` has those that
    /// its caller's proof picks from the call's arguments.
    pub fn of<I: Image>() -> ImageName
        ensures { result.pages ≡ I.pages }
    {
        ImageName {
            marker: PhantomData,
        }
    }

    /// One more name of the same image, for one more frame.
    pub fn again(&self) -> ImageName
        ensures { result.pages ≡ self.now.pages }
    {
        same_as::<Brand>(self)
    }
}

// The pages are picked from the name that is passed, for that alone.
fn same_as<I: Image>(_name: &ImageName) -> ImageName
    ensures { result.pages ≡ I.pages }
{
    ImageName::of::<I>()
}

impl Drop for ImageName {
    fn drop(self) {
        let Self { marker: _ } = self;
    }
}
