//! How a run is to be done.

ghost use Rattle.std.specs.Prelude.{◌≡◌, ◌≤◌};
ghost use Rattle.fg_engine.specs.Options.{shape_of};

use fg_cache::Shape;
use fg_iter::Bounds;

/// How iterations are cut where nobody asks for another way. At most 2^24 messages of 8 bytes are on their way at once, 128 MiB and their
/// share of batches, or those of one block where it has more.
pub const BOUNDS: Bounds = Bounds {
    wave: 16_777_216,
    few: 1024,
};

/// How a run is to be done. Whatever the options are but for `max`, it comes to the same.
#[derive(Clone, Copy, PartialEq, Eq, Debug)]
pub struct Options {
    /// The most iterations.
    pub max: u32,
    /// How many workers there are, 1 to 64.
    pub workers: u32,
    /// How many page sets the cache has, and how many frames each of them.
    pub sets: u32,
    pub ways: u32,
    /// How many loads may wait for a drive.
    pub depth: u32,
    /// A block has 2^`shift` vertices.
    pub shift: u32,
    /// Whether a loop of its own serves each drive beside the workers.
    pub helpers: bool,
    /// How iterations are cut. Whatever it is, a run comes to the same.
    pub bounds: Bounds,
}

impl Options {
    /// The shape of the cache, with a pass for each worker.
    pub(crate) fn shape(&self) -> Shape
        ensures { result ≡ shape_of self.now }
    {
        Shape {
            sets: self.sets,
            ways: self.ways,
            depth: self.depth,
            passes: self.workers,
        }
    }

    /// How many helpers there are over so many drives.
    pub(crate) fn helper_count(&self, drives: u32) -> u32
        ensures { result ≤ drives }
    {
        if self.helpers { drives } else { 0 }
    }
}
