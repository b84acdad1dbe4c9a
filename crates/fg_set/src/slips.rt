//! The slips that `Directory::want` answers where it gives no frame. Only that call makes them.

ghost use Rattle.std.specs.Prelude.{◌≡◌};
ghost use Rattle.fg_set.specs.Slips.{IsUnderWay, IsAllHeld};

use crate::directory::Directory;
use std::marker::Model;
use std::snapshot::Snapshot;

/// The page was being loaded. Contracts see the page and the directory that was asked.
#[derive(Drop)]
pub struct UnderWay {
    page: u32,
    asked: Snapshot<Directory>,
}

impl Model for UnderWay {
    ghost use Rattle.fg_set.specs.Slips.{Refused, IsUnderWay};

    ghost Value = { Refused };

    ghost view = { λ slip. record { page = slip.page; set = slip.asked.value } };

    ghost invariant = { λ slip. IsUnderWay slip.asked.value slip.page };
}

impl UnderWay {
    pub(crate) fn of(page: u32, asked: Snapshot<Directory>) -> UnderWay
        requires { IsUnderWay asked.value page }
        ensures page { result.page ≡ page }
        ensures set { result.set ≡ asked.value }
    {
        UnderWay { page, asked }
    }

    /// The page that was asked for.
    pub fn page(&self) -> u32
        ensures page { result ≡ self.now.page }
        ensures under_way { IsUnderWay self.now.set self.now.page }
    {
        self.page
    }
}

/// The page was in no entry, and every entry was pinned or loading. Contracts see the page and the directory that was asked.
#[derive(Drop)]
pub struct AllHeld {
    page: u32,
    asked: Snapshot<Directory>,
}

impl Model for AllHeld {
    ghost use Rattle.fg_set.specs.Slips.{Refused, IsAllHeld};

    ghost Value = { Refused };

    ghost view = { λ slip. record { page = slip.page; set = slip.asked.value } };

    ghost invariant = { λ slip. IsAllHeld slip.asked.value slip.page };
}

impl AllHeld {
    pub(crate) fn of(page: u32, asked: Snapshot<Directory>) -> AllHeld
        requires { IsAllHeld asked.value page }
        ensures page { result.page ≡ page }
        ensures set { result.set ≡ asked.value }
    {
        AllHeld { page, asked }
    }

    /// The page that was asked for.
    pub fn page(&self) -> u32
        ensures page { result ≡ self.now.page }
        ensures all_held { IsAllHeld self.now.set self.now.page }
    {
        self.page
    }
}
