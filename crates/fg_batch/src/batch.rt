//! What one block sent to one lane of a part.

ghost use Rattle.std.specs.Prelude.{◌≡◌, ◌≤◌, ◌^◌};
ghost use Rattle.fg_batch.specs.Lanes.{lanes_each};

use crate::mails::Mails;
use fg_part::PartMap;

/// A lane has so many places of a part. A block has no more.
pub(crate) const LANE_PLACES: u32 = 1 << 16;

/// Messages that the block's vertices sent to vertices of the part whose places are those of the lane: 2^16 places, from
/// `lane` * 2^16 on. Whoever delivers many batches does so lane by lane, so that the places stay near.
#[derive(Drop)]
pub struct Batch {
    pub block: u32,
    pub part: u32,
    pub lane: u32,
    pub mails: Mails,
}

impl Batch {
    /// How many lanes each part of a map has.
    pub fn lanes(map: PartMap) -> u32
        ensures value { result ≡ lanes_each map }
        ensures few { result ≤ 2 ^ 16 }
    {
        map.places(0) / LANE_PLACES + 1
    }
}
