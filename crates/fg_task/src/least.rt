//! The lesser of two bad edges.

ghost use Rattle.std.specs.Prelude.{◌≡◌};
ghost use Rattle.fg_task.specs.Least.{Joins, rank as rank_of};

use fg_base::{BadEdge, Dir};

/// A list of a vertex stands above so many numbers of entries.
const ENTRIES: u128 = 1 << 32;

/// Of the least bad edges of some entries and of others that of them all: the one that an iteration meets first, by vertex, the
/// out-list before the in-list, then by place.
pub fn lesser(one: Option<BadEdge>, other: Option<BadEdge>) -> Option<BadEdge>
    ensures { Joins one other result }
{
    match (one, other) {
        (Some(first), Some(second)) => {
            if rank(second) < rank(first) {
                Some(second)
            } else {
                Some(first)
            }
        }
        (Some(first), None) => Some(first),
        (None, found) => found,
    }
}

/// Where an edge stands in that order.
fn rank(edge: BadEdge) -> u128
    ensures { result ≡ rank_of edge }
{
    let side = match edge.dir {
        Dir::Out => 0,
        Dir::In => 1,
    };
    (u128::from(edge.v) * 2 + side) * ENTRIES + u128::from(edge.place)
}
