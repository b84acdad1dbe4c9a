//! What the calls of a directory answer.

use crate::entry::EntryState;
use crate::slips::{AllHeld, UnderWay};

/// The answer of `Directory::want`. A frame is named by its entry's number in the set.
#[derive(Drop)]
pub enum Want {
    /// The page stands in this frame, which is pinned for the worker now.
    Hit(u32),
    /// This frame is to be loaded with the page, and the caller has to see to it.
    Start(u32),
    /// Somebody is loading the page.
    Loading(UnderWay),
    /// Every entry is pinned or loading.
    Again(AllHeld),
}

/// An answer of `Directory::want` without its slip.
#[derive(Clone, Copy, PartialEq, Eq, Debug)]
pub enum WantSeen {
    Hit(u32),
    Start(u32),
    Loading,
    Again,
}

/// The answer of `Directory::ready` and `Directory::fail`.
#[derive(Clone, Copy, PartialEq, Eq, Debug)]
pub enum Placed {
    /// The entry was loading the page.
    Done,
    /// It wasn't, and this is its state; nothing changed.
    Other(EntryState),
}

impl Want {
    ghost use Rattle.std.specs.Prelude.{◌≡◌};
    ghost use Rattle.fg_set.specs.Want.{seen_of};

    /// The answer without its slip.
    pub fn seen(&self) -> WantSeen
        ensures { result ≡ seen_of self.now }
    {
        match self {
            Want::Hit(frame) => WantSeen::Hit(*frame),
            Want::Start(frame) => WantSeen::Start(*frame),
            Want::Loading(_) => WantSeen::Loading,
            Want::Again(_) => WantSeen::Again,
        }
    }
}
