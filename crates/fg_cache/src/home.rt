//! What the locks of a cache are named by.

ghost use Rattle.std.specs.Prelude.{◌≡◌};

use crate::asked::CacheName;
use crate::ledgers::Ledgers;
use crate::shape::Shape;
use fg_outside::Drive;
use fg_stripe::Layout;
use std::marker::Model;
use std::snapshot::Snapshot;

/// What all locks of a cache have in common.
#[derive(Drop)]
pub(crate) struct Home {
    pub(crate) layout: Layout,
    pub(crate) shape: Shape,
    pub(crate) name: CacheName,
    pub(crate) books: Snapshot<Ledgers>,
}

impl Model for Home {
    ghost use Rattle.fg_cache.specs.Site.{Site};

    ghost Value = { Site };

    ghost view = { λ h. record { layout = h.layout; shape = h.shape; image = h.name.image.pages; asked = h.name.asked.pages; books = h.books.value } };
}

/// The name of a page set's lock, of a queue's, and of the lock with what `close` needs.
#[derive(Drop)]
pub(crate) struct LockName {
    home: Snapshot<Home>,
    number: u32,
}

impl Model for LockName {
    ghost use Rattle.fg_cache.specs.Names.{LockOf};

    ghost Value = { LockOf };

    ghost view = { λ n. record { site = n.home.value; number = n.number } };
}

impl LockName {
    pub(crate) fn of(home: &Home, number: u32) -> LockName
        ensures { result ≡ record { site = home.now; number = number } }
    {
        LockName {
            home: Snapshot::of(home),
            number,
        }
    }
}

/// The name of a drive's lock.
#[derive(Drop)]
pub(crate) struct ShelfName<D: Drive> {
    home: Snapshot<Home>,
    number: u32,
    opened: Snapshot<D>,
}

impl<D: Drive> Model for ShelfName<D> {
    ghost use Rattle.fg_cache.specs.Names.{DriveLock};

    ghost Value = { DriveLock D };

    ghost view = { λ n. record { site = n.home.value; number = n.number; opened = n.opened.value } };
}

impl<D: Drive> ShelfName<D> {
    pub(crate) fn of(home: &Home, number: u32, drive: &D) -> ShelfName<D>
        ensures { result ≡ record { site = home.now; number = number; opened = drive.now } }
    {
        ShelfName {
            home: Snapshot::of(home),
            number,
            opened: Snapshot::of(drive),
        }
    }
}
