//! The bytes of a direction's vertices, read beside the pairs of those whose degree is long.

ghost use Rattle.std.specs.Prelude.{◌≡◌, ◌+◌, ◌*◌, ◌^◌, ◌<◌, ◌≤◌, ◌∷◌, [], IfOk, IfErr, IsSome, drop, length};
ghost use Rattle.fg_index.specs.Degrees.{longs_in};
ghost use Rattle.fg_index.specs.Direction.{number_in, degree_of, degrees_at};

use crate::below::LONG_BYTE;
use crate::degrees::Degrees;
use byteorder::{ByteOrder, LittleEndian};
use fg_base::Memory;
use std::alloc::Global;

/// Bytes of a number.
pub(crate) const NUMBER_BYTES: usize = 4;
/// Bytes of a pair: a vertex and its degree.
pub(crate) const PAIR_BYTES: usize = 8;

/// What a direction's bytes and pairs gave: how many degrees are long by the bytes, and the degrees, or the number of the first pair
/// at fault.
#[derive(Drop)]
pub(crate) struct LowRead {
    pub longs: usize,
    pub degrees: Result<Degrees, u32>,
}

/// The number that the first 4 bytes spell.
#[tactic(auto, unfolding(crate::specs::Direction::number_in))]
pub(crate) fn number_in(bytes: &[u8]) -> u32
    requires { 4 ≤ length bytes.now }
    ensures { result ≡ number_in bytes.now }
{
    LittleEndian::read_u32(bytes)
}

/// The degree of a vertex with this byte, where these pairs are left; none where it is long and the next pair isn't its own.
fn degree_of(vertex: u32, byte: u8, pairs: &[u8]) -> Option<u32>
    ensures degree { result ≡ degree_of vertex byte pairs.now }
    ensures pair { IsSome result → 8 * longs_in (byte ∷ []) ≤ length pairs.now }
{
    if byte != LONG_BYTE {
        return Some(u32::from(byte));
    }
    if pairs.len() < PAIR_BYTES {
        return None;
    }
    let degree = number_in(&pairs[NUMBER_BYTES..]);
    if number_in(pairs) == vertex && degree >= 255 {
        Some(degree)
    } else {
        None
    }
}

/// The pairs behind the first ones.
fn pairs_from(pairs: &[u8], taken: usize) -> &[u8]
    requires { 8 * taken ≤ length pairs.now }
    ensures { result.now ≡ drop (8 * taken) pairs.now }
{
    &pairs[PAIR_BYTES * taken..]
}

/// How many degrees are long with one more byte.
fn longs_with(longs: usize, byte: u8) -> usize
    requires { longs < 2 ^ 32 }
    ensures { result ≡ longs + longs_in (byte ∷ []) }
{
    if byte == LONG_BYTE { longs + 1 } else { longs }
}

/// How many of the bytes stand for long degrees.
fn longs_in(low: &[u8]) -> usize
    ensures { result ≡ longs_in low.now }
{
    low.iter().filter(|byte| **byte == LONG_BYTE).count()
}

/// Reads the degrees of vertices 0, 1, 2 and so on, into memory that is taken before. Each byte and each pair is met once:
/// behind a fault the bytes are only counted.
pub(crate) fn read_low(alloc: Global, low: &[u8], pairs: &[u8]) -> Result<LowRead, Memory>
    requires { length low.now ≤ 2 ^ 24 }
    ensures longs { IfOk result (λ read. read.longs ≡ longs_in low.now) }
    ensures degrees { IfOk result (λ read. read.degrees ≡ degrees_at 0 0 low.now pairs.now) }
    ensures each { IfOk result (λ read. IfOk read.degrees (λ degrees. length degrees ≡ length low.now)) }
    ensures fits { IfOk result (λ read. IfOk read.degrees (λ _. 8 * read.longs ≤ length pairs.now)) }
    ensures pair { IfOk result (λ read. IfErr read.degrees (λ pair. pair ≤ length low.now)) }
{
    let mut kept = Degrees::new(alloc, low.len(), low.len().min(pairs.len() / PAIR_BYTES))?;
    let mut longs = 0;
    for (vertex, byte) in low.iter().enumerate() {
        let degree = match degree_of(vertex as u32, *byte, pairs_from(pairs, longs)) {
            Some(degree) => degree,
            None => {
                return Ok(LowRead {
                    longs: longs + longs_in(&low[vertex..]),
                    degrees: Err(longs as u32),
                });
            }
        };
        kept = kept.push(degree)?;
        longs = longs_with(longs, *byte);
    }
    Ok(LowRead {
        longs,
        degrees: Ok(kept),
    })
}
