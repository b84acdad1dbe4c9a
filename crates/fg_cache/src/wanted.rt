//! What a cache answers who wants a page.

use crate::pass::Pass;
use crate::pin::Pin;
use fg_queue::QueueFull;
use fg_set::{AllHeld, UnderWay};

/// The answer of `Cache::want`.
pub enum Wanted<'a> {
    /// The page, pinned.
    Hit(Pin<'a>),
    /// The page's load waits in its drive's queue.
    Queued(Pass),
    /// The page is on its way.
    Loading(Pass, UnderWay),
    /// Every frame of the page's set is pinned or loading.
    Again(Pass, AllHeld),
    /// The queue of the page's drive is full.
    Full(Pass, QueueFull),
    /// The frame that was listed for the page showed this number.
    Stale(Pass, u32),
}
