//! The index of an image.

ghost use Rattle.std.specs.Prelude.{◌≡◌, ◌+◌, ◌*◌, ◌^◌, ◌<◌, ◌≤◌, IfOk, IfErr, length, slice_index, sum};
ghost use Rattle.fg_index.specs.DirectionFault.{index_fault};
ghost use Rattle.fg_index.specs.ImageIndex.{IsFaultOf, degrees_in, entry_bytes, index_at, span_of};
ghost use Rattle.fg_base.specs.declared.limits.TheConstants.{MAX_VERTICES};

use crate::degrees::Degrees;
use crate::direction::{DirectionFault, read_direction};
use crate::span::Span;
use fg_base::limits::MAX_VERTICES;
use fg_base::{Dir, Refusal};
use std::alloc::Global;
use std::marker::Model;

/// The degrees of all vertices in both directions, and whether entries have weights. From them comes where each vertex's lists
/// stand. Only `read` takes memory: about one byte per vertex and direction.
#[derive(Drop)]
pub struct Index {
    n: u32,
    weighted: bool,
    outs: Degrees,
    ins: Degrees,
}

impl Model for Index {
    ghost use Rattle.std.specs.Prelude.{◌≡◌, ◌≤◌, ◌^◌, length};
    ghost use Rattle.fg_index.specs.ImageIndex.{ImageIndex};

    ghost Value = { ImageIndex };

    ghost view = { λ inside. record { weighted = inside.weighted; outs = inside.outs; ins = inside.ins } };

    ghost invariant = { λ inside. (inside.n ≤ 2 ^ 24) × (length inside.outs ≡ inside.n) × (length inside.ins ≡ inside.n) };
}

/// The fault of a direction that begins at `start`.
fn placed(fault: DirectionFault, dir: Dir, start: usize) -> Refusal
    requires { start < 2 ^ 63 }
    ensures { result ≡ index_fault dir start fault }
{
    match fault {
        DirectionFault::Memory => Refusal::Memory,
        DirectionFault::At(place) => Refusal::BadIndex(dir, start as u64 + u64::from(place)),
    }
}

impl Index {
    /// Reads the index of `n` vertices from the bytes of its section, which tells of so many out-entries and in-entries. `BadIndex`
    /// names the direction and the place of the first fault, the out-lists' before the in-lists'. In a direction that begins at `o`
    /// the faults stand in this order:
    ///
    /// - at `o`: the `n` bytes don't fit;
    /// - at `o + n`: the count doesn't fit, or isn't the number of bytes equal to 255;
    /// - at `o + n + 4 + 8 * k`: pair `k` doesn't fit, its vertex isn't the `k`-th one whose byte is 255, or its degree is below 255;
    /// - at `o`: the sum of the degrees isn't the direction's number of entries.
    ///
    /// Bytes left over behind the in-lists are a fault of `In` at the first of them. The bytes are gone through once.
    pub fn read(
        alloc: Global,
        bytes: &[u8],
        n: u32,
        weighted: bool,
        out_entries: u64,
        in_entries: u64,
    ) -> Result<Index, Refusal>
        requires { n ≤ MAX_VERTICES }
        ensures found { IfOk result (λ index. index_at n out_entries in_entries bytes.now ≡ Ok (index.outs, index.ins)) }
        ensures weighted { IfOk result (λ index. index.weighted ≡ weighted) }
        ensures each_out { IfOk result (λ index. length index.outs ≡ n) }
        ensures each_in { IfOk result (λ index. length index.ins ≡ n) }
        ensures sum_out { IfOk result (λ index. sum index.outs ≡ out_entries) }
        ensures sum_in { IfOk result (λ index. sum index.ins ≡ in_entries) }
        ensures fault { IfErr result (IsFaultOf (index_at n out_entries in_entries bytes.now)) }
    {
        let outs = match read_direction(alloc, bytes, n, out_entries) {
            Ok(outs) => outs,
            Err(fault) => return Err(placed(fault, Dir::Out, 0)),
        };
        let middle = outs.len;
        let ins = match read_direction(alloc, &bytes[middle..], n, in_entries) {
            Ok(ins) => ins,
            Err(fault) => return Err(placed(fault, Dir::In, middle)),
        };
        let end = middle + ins.len;
        if end < bytes.len() {
            return Err(Refusal::BadIndex(Dir::In, end as u64));
        }
        Ok(Index {
            n,
            weighted,
            outs: outs.degrees,
            ins: ins.degrees,
        })
    }

    /// How many vertices there are.
    pub fn n(&self) -> u32
        ensures outs { result ≡ length self.now.outs }
        ensures ins { result ≡ length self.now.ins }
        ensures few { result ≤ MAX_VERTICES }
    {
        self.n
    }

    /// Whether entries have weights.
    pub fn weighted(&self) -> bool
        ensures { result ≡ self.now.weighted }
    {
        self.weighted
    }

    /// How many entries the list of vertex `v` has.
    pub fn degree(&self, dir: Dir, v: u32) -> u32
        requires { v < length self.now.outs }
        ensures { result ≡ slice_index (degrees_in self.now dir) v }
    {
        match dir {
            Dir::Out => self.outs.get(v as usize),
            Dir::In => self.ins.get(v as usize),
        }
    }

    /// Where the list of vertex `v` stands in its section, in bytes: behind the lists of all vertices below it. The cost is that of at
    /// most 31 degrees.
    pub fn span(&self, dir: Dir, v: u32) -> Span
        requires { v < length self.now.outs }
        ensures span { result ≡ span_of self.now dir v }
        ensures within { result.start + result.len ≤ sum (degrees_in self.now dir) * entry_bytes self.now.weighted }
    {
        let entry = entry_bytes(self.weighted);
        let below = match dir {
            Dir::Out => self.outs.below(v as usize),
            Dir::In => self.ins.below(v as usize),
        };
        Span {
            start: below * entry,
            len: u64::from(self.degree(dir, v)) * entry,
        }
    }
}

/// The bytes of an entry.
fn entry_bytes(weighted: bool) -> u64
    ensures size { result ≡ entry_bytes weighted }
    ensures few { result ≤ 8 }
{
    if weighted { 8 } else { 4 }
}
