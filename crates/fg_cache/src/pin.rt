//! A page that a pass has pinned.

ghost use Rattle.std.specs.Prelude.{◌≡◌, length};
ghost use Rattle.fg_base.specs.declared.limits.TheConstants.{PAGE_BYTES};
ghost use Rattle.fg_cell.specs.Pages.{IsPageOf};

use crate::pass::Pass;
use fg_cell::Shown;
use std::marker::Model;

/// A pinned page. It has to be given back by `Cache::unpin`, which gives the pass back.
pub struct Pin<'a> {
    pub(crate) pass: Pass,
    pub(crate) frame: u32,
    pub(crate) shown: Shown<'a>,
}

impl<'a> Model for Pin<'a> {
    ghost use Rattle.std.specs.Prelude.{◌≢◌};
    ghost use Rattle.fg_base.specs.declared.limits.TheConstants.{NO_PAGE};
    ghost use Rattle.fg_cache.specs.Pass.{Pinned};

    ghost Value = { Pinned };

    ghost view = { λ p. record { pass = p.pass; page = p.shown.page.number; frame = p.frame; image = p.shown.image } };

    ghost invariant = { λ p. p.shown.page.number ≢ NO_PAGE };
}

impl<'a> Pin<'a> {
    /// The page.
    pub fn page(&self) -> u32
        ensures { result ≡ self.now.page }
    {
        self.shown.page().number()
    }

    /// The page's bytes, for as long as the pin lives.
    pub fn bytes(&self) -> &[u8]
        ensures page { IsPageOf self.now.image self.now.page result.now }
        ensures length { length result.now ≡ PAGE_BYTES }
    {
        self.shown.page().bytes()
    }
}
