//! Bytes of an image, put behind those that are there.

ghost use Rattle.std.specs.Prelude.{◌≡◌, ◌+◌, ◌*◌, ◌-◌, ◌^◌, ◌≤◌, ◌++◌, IfOk, length, map};
ghost use Rattle.std.specs.List.{flat_map};
ghost use Rattle.byteorder.specs.Endian.{little_bytes};
ghost use Rattle.fg_base.specs.declared.limits.TheConstants.{PAGE_BYTES};
ghost use Rattle.fg_image.specs.Header.{pages_for};
ghost use Rattle.fg_image.specs.Made.{long_pairs, spelled_direction, spelled_entry};
ghost use Rattle.fg_image.specs.Making.{blanks, byte_of, header_bytes, long_degrees, out_entry, pair_bytes};

use crate::header::{Header, MAGIC, NUMBERS_END};
use fg_base::limits::PAGE_BYTES;
use fg_base::{Entry, Memory};
use fg_model::Pair;
use fg_stripe::bytes::{put_number, put_wide_number};
use std::alloc::Global;

/// From this degree on a degree is long.
const LONG: u32 = 255;

/// The page of a header, in a vector with room for so many bytes.
pub(crate) fn header_page(alloc: Global, room: usize, header: &Header) -> Result<Vec<u8>, Memory>
    ensures { IfOk result (λ page. page.items ≡ header_bytes header.now) }
{
    let mut page = Vec::with_capacity(alloc, room)?;
    page.extend_from_slice(&MAGIC)?;
    let page = with_number(page, header.version)?;
    let page = with_number(page, header.flags)?;
    let page = with_number(page, header.n)?;
    let page = with_number(page, header.pages)?;
    let page = with_wide_number(page, header.out_entries)?;
    let page = with_wide_number(page, header.in_entries)?;
    let page = with_wide_number(page, header.out_bytes)?;
    let page = with_wide_number(page, header.in_bytes)?;
    let page = with_wide_number(page, header.index_bytes)?;
    let page = with_number(page, header.out_first)?;
    let page = with_number(page, header.in_first)?;
    let page = with_number(page, header.index_first)?;
    with_zeros(page, PAGE_BYTES - NUMBERS_END)
}

/// The bytes with a number of 4 bytes behind them.
pub(crate) fn with_number(bytes: Vec<u8>, number: u32) -> Result<Vec<u8>, Memory>
    ensures { IfOk result (λ after. after.items ≡ bytes.items ++ little_bytes 4 number) }
{
    let mut bytes = bytes;
    let mut spelled = [0; 4];
    put_number(&mut spelled, 0, number);
    bytes.extend_from_slice(&spelled)?;
    Ok(bytes)
}

/// The bytes with a number of 8 bytes behind them.
pub(crate) fn with_wide_number(bytes: Vec<u8>, number: u64) -> Result<Vec<u8>, Memory>
    ensures { IfOk result (λ after. after.items ≡ bytes.items ++ little_bytes 8 number) }
{
    let mut bytes = bytes;
    let mut spelled = [0; 8];
    put_wide_number(&mut spelled, 0, number);
    bytes.extend_from_slice(&spelled)?;
    Ok(bytes)
}

/// The bytes with so many zeros behind them.
pub(crate) fn with_zeros(bytes: Vec<u8>, count: usize) -> Result<Vec<u8>, Memory>
    requires few { count ≤ 2 ^ 40 }
    ensures { IfOk result (λ after. after.items ≡ bytes.items ++ blanks count) }
{
    let mut bytes = bytes;
    bytes.resize(bytes.len() + count, 0)?;
    Ok(bytes)
}

/// The bytes with zeros behind them, up to whole pages.
pub(crate) fn padded(bytes: Vec<u8>) -> Result<Vec<u8>, Memory>
    ensures { IfOk result (λ after. after.items ≡ bytes.items ++ blanks (pages_for (length bytes.items) * PAGE_BYTES - length bytes.items)) }
{
    let missing = bytes.len().div_ceil(PAGE_BYTES) * PAGE_BYTES - bytes.len();
    with_zeros(bytes, missing)
}

/// The bytes with an entry's behind them.
fn with_entry(bytes: Vec<u8>, weighted: bool, entry: Entry) -> Result<Vec<u8>, Memory>
    ensures { IfOk result (λ after. after.items ≡ bytes.items ++ spelled_entry weighted entry) }
{
    let bytes = with_number(bytes, entry.target)?;
    if !weighted {
        return Ok(bytes);
    }
    with_number(bytes, entry.weight)
}

/// The bytes with the out-entries of the pairs behind them, in their order.
pub(crate) fn with_outs(bytes: Vec<u8>, weighted: bool, pairs: &[Pair]) -> Result<Vec<u8>, Memory>
    ensures { IfOk result (λ after. after.items ≡ bytes.items ++ flat_map (λ pair. spelled_entry weighted (out_entry pair)) pairs.now) }
{
    let mut bytes = bytes;
    for pair in pairs {
        let entry = Entry {
            target: pair.target,
            weight: pair.weight,
        };
        bytes = with_entry(bytes, weighted, entry)?;
    }
    Ok(bytes)
}

/// The byte of a degree.
fn byte_of(degree: u32) -> u8
    ensures { result ≡ byte_of degree }
{
    degree.min(LONG) as u8
}

/// The bytes with the pair of a vertex behind them, where its degree is long.
fn with_pair(bytes: Vec<u8>, vertex: u32, degree: u32) -> Result<Vec<u8>, Memory>
    ensures { IfOk result (λ after. after.items ≡ bytes.items ++ pair_bytes vertex degree) }
{
    if degree < LONG {
        return Ok(bytes);
    }
    with_number(with_number(bytes, vertex)?, degree)
}

/// How many of the degrees are long.
pub(crate) fn long_degrees(degrees: &[u32]) -> usize
    ensures { result ≡ long_degrees degrees.now }
{
    degrees.iter().filter(|degree| LONG <= **degree).count()
}

/// The bytes with the bytes of the degrees behind them.
fn with_bytes(bytes: Vec<u8>, degrees: &[u32]) -> Result<Vec<u8>, Memory>
    ensures { IfOk result (λ after. after.items ≡ bytes.items ++ map byte_of degrees.now) }
{
    let mut bytes = bytes;
    for degree in degrees {
        bytes.push(byte_of(*degree))?;
    }
    Ok(bytes)
}

/// The bytes with the pairs of the long degrees behind them.
fn with_pairs(bytes: Vec<u8>, degrees: &[u32]) -> Result<Vec<u8>, Memory>
    requires { length degrees.now ≤ 2 ^ 24 }
    ensures { IfOk result (λ after. after.items ≡ bytes.items ++ long_pairs 0 degrees.now) }
{
    let mut bytes = bytes;
    for (vertex, degree) in degrees.iter().enumerate() {
        bytes = with_pair(bytes, vertex as u32, *degree)?;
    }
    Ok(bytes)
}

/// The bytes with a direction of the index behind them.
pub(crate) fn with_direction(bytes: Vec<u8>, degrees: &[u32]) -> Result<Vec<u8>, Memory>
    requires { length degrees.now ≤ 2 ^ 24 }
    ensures { IfOk result (λ after. after.items ≡ bytes.items ++ spelled_direction degrees.now) }
{
    let bytes = with_bytes(bytes, degrees)?;
    let bytes = with_number(bytes, long_degrees(degrees) as u32)?;
    with_pairs(bytes, degrees)
}
