//! What the cache of a run is named by.

ghost use Rattle.std.specs.Prelude.{◌≡◌};
ghost use Rattle.fg_engine.specs.Naming.{image_held, pages_asked};
ghost use Rattle.fg_outside.specs.Drives.{all_told};

use fg_build::Opened;
use fg_cache::{Asked, AskedPages, CacheName};
use fg_cell::{Image, ImageName};
use fg_model::Program;
use fg_outside::Drive;
use std::marker::Brand;

// The pages are picked from the drives that are passed, for that alone.
fn image_of<I: Image, D: Drive>(_drives: &Vec<D>, _opened: &Opened) -> ImageName
    ensures { result.pages ≡ I.pages }
{
    ImageName::of::<I>()
}

// And those that may be asked for from the program too.
fn asked_by<A: Asked, P: Program, D: Drive>(
    _drives: &Vec<D>,
    _opened: &Opened,
    _program: &P,
    _max: u32,
) -> AskedPages
    ensures { result.pages ≡ A.pages }
{
    AskedPages::of::<A>()
}

/// The name of a run's cache: the image's pages, where the drives tell them, and the pages that the run asks for. Where they don't tell,
/// every page may be asked for.
pub(crate) fn cache_name<P: Program, D: Drive>(
    drives: &Vec<D>,
    opened: &Opened,
    program: &P,
    max: u32,
) -> CacheName
    ensures image { result.image.pages ≡ image_held opened.now.layout (all_told D.held drives.now.items) }
    ensures asked { result.asked.pages ≡ pages_asked (P.rules program.now) opened.now max (all_told D.held drives.now.items) }
{
    CacheName {
        image: image_of::<Brand, D>(drives, opened),
        asked: asked_by::<Brand, P, D>(drives, opened, program, max),
    }
}
