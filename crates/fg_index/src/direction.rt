//! One direction of an index, read from its bytes.

ghost use Rattle.std.specs.Prelude.{◌≡◌, ◌+◌, ◌*◌, ◌^◌, ◌≤◌, IfOk, IfErr, length, sum, take};
ghost use Rattle.fg_index.specs.Direction.{direction_len, direction_at, summed};
ghost use Rattle.fg_index.specs.DirectionFault.{IsAt};

use crate::degrees::Degrees;
use crate::low::{LowRead, NUMBER_BYTES, PAIR_BYTES, number_in, read_low};
use std::alloc::Global;

/// The degrees in one direction, and how many bytes they stood in.
#[derive(Drop)]
pub(crate) struct Direction {
    pub degrees: Degrees,
    pub len: usize,
}

/// Why bytes gave no direction.
#[derive(Clone, Copy)]
pub(crate) enum DirectionFault {
    Memory,
    /// The bytes are at fault at this place.
    At(u32),
}

/// The first bytes: those of so many pairs, or all where there are fewer.
fn pairs_in(bytes: &[u8], count: u32) -> &[u8]
    ensures { result.now ≡ take (8 * count) bytes.now }
{
    let len = PAIR_BYTES * count as usize;
    if len < bytes.len() {
        &bytes[..len]
    } else {
        bytes
    }
}

/// The direction of `n` vertices, of what was read of its bytes and pairs.
fn summed(
    read: Result<Degrees, u32>,
    n: u32,
    entries: u64,
    len: usize,
) -> Result<Direction, DirectionFault>
    requires few { n ≤ 2 ^ 24 }
    requires pair { IfErr read (λ pair. pair ≤ 2 ^ 24) }
    ensures found { IfOk result (λ found. summed n entries read ≡ Ok found.degrees) }
    ensures same { IfOk result (λ found. read ≡ Ok found.degrees) }
    ensures sum { IfOk result (λ found. sum found.degrees ≡ entries) }
    ensures len { IfOk result (λ found. found.len ≡ len) }
    ensures fault { IfErr result (IsAt (summed n entries read)) }
{
    match read {
        Ok(degrees) => {
            if degrees.total() != entries {
                return Err(DirectionFault::At(0));
            }
            Ok(Direction { degrees, len })
        }
        Err(pair) => Err(DirectionFault::At(n + NUMBER_BYTES as u32 + PAIR_BYTES as u32 * pair)),
    }
}

/// Reads the direction of `n` vertices and so many entries that begins these bytes.
pub(crate) fn read_direction(
    alloc: Global,
    bytes: &[u8],
    n: u32,
    entries: u64,
) -> Result<Direction, DirectionFault>
    requires { n ≤ 2 ^ 24 }
    ensures found { IfOk result (λ found. direction_at n entries bytes.now ≡ Ok found.degrees) }
    ensures len { IfOk result (λ found. found.len ≡ direction_len n bytes.now) }
    ensures within { IfOk result (λ found. found.len ≤ length bytes.now) }
    ensures each { IfOk result (λ found. length found.degrees ≡ n) }
    ensures sum { IfOk result (λ found. sum found.degrees ≡ entries) }
    ensures fault { IfErr result (IsAt (direction_at n entries bytes.now)) }
{
    let vertices = n as usize;
    if bytes.len() < vertices {
        return Err(DirectionFault::At(0));
    }
    if bytes.len() < vertices + NUMBER_BYTES {
        return Err(DirectionFault::At(n));
    }
    let count = number_in(&bytes[vertices..]);
    let pairs = pairs_in(&bytes[vertices + NUMBER_BYTES..], count);
    let read = match read_low(alloc, &bytes[..vertices], pairs) {
        Ok(read) => read,
        Err(_) => return Err(DirectionFault::Memory),
    };
    let LowRead { longs, degrees } = read;
    if longs != count as usize {
        return Err(DirectionFault::At(n));
    }
    let len = vertices + NUMBER_BYTES + PAIR_BYTES * count as usize;
    summed(degrees, n, entries, len)
}
