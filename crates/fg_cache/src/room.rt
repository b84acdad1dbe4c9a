//! Room for the drives that a cache gives back when it is closed.

use crate::home::LockName;
use crate::share::Share;
use fg_cell::Fit;
use fg_outside::Drive;

/// A vector with room for the drives, and a share of no part. It stands behind a lock, as drives needn't be `Sync`.
#[derive(Drop)]
pub(crate) struct Room<D: Drive> {
    pub(crate) drives: Vec<D>,
    pub(crate) share: Share,
}

impl<D: Drive> Fit for Room<D> {
    ghost use Rattle.fg_cache.specs.Room.{IsRoom};

    type Name = LockName;

    ghost fits = { IsRoom };
}
