//! What stands below a vertex, counted on from a vertex before it.

ghost use Rattle.std.specs.Prelude.{◌≡◌, ◌+◌, ◌*◌, ◌^◌, ◌<◌, ◌≤◌, ◌∷◌, [], drop, length, sum};
ghost use Rattle.fg_index.specs.Degrees.{longs_in, next_degree, joined};

/// The byte of a vertex whose degree doesn't fit into one.
pub(crate) const LONG_BYTE: u8 = 255;

/// The sum of the degrees of all vertices below one, and how many of them are long.
#[derive(Clone, Copy)]
pub(crate) struct Below {
    pub degrees: u64,
    pub longs: usize,
}

/// What stands below the next vertex.
fn step(below: Below, byte: u8, long: &[u32]) -> Below
    requires room { below.degrees + 2 ^ 32 < 2 ^ 64 }
    requires longs { below.longs + longs_in (byte ∷ []) ≤ length long.now }
    ensures degrees { result.degrees ≡ below.degrees + next_degree byte (drop below.longs long.now) }
    ensures longs { result.longs ≡ below.longs + longs_in (byte ∷ []) }
    ensures few { result.degrees ≤ below.degrees + 2 ^ 32 }
{
    if byte == LONG_BYTE {
        Below {
            degrees: below.degrees + u64::from(long[below.longs]),
            longs: below.longs + 1,
        }
    } else {
        Below {
            degrees: below.degrees + u64::from(byte),
            longs: below.longs,
        }
    }
}

/// What stands below the vertex behind those of the bytes, where `below` stands below their first one.
pub(crate) fn walk(below: Below, low: &[u8], long: &[u32]) -> Below
    requires room { below.degrees + length low.now * 2 ^ 32 < 2 ^ 64 }
    requires longs { below.longs + longs_in low.now ≤ length long.now }
    ensures degrees { result.degrees ≡ below.degrees + sum (joined low.now (drop below.longs long.now)) }
    ensures longs { result.longs ≡ below.longs + longs_in low.now }
{
    let mut here = below;
    for byte in low {
        here = step(here, *byte, long);
    }
    here
}
