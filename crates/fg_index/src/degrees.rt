//! The degrees of vertices in one direction.

ghost use Rattle.std.specs.Prelude.{◌≡◌, ◌+◌, ◌*◌, ◌%◌, ◌^◌, ◌<◌, ◌≤◌, ◌++◌, ◌∷◌, [], ◌==◌, IfOk, length, min, nat_lt, slice_index, sum, take, if◌then◌else◌};
ghost use Rattle.fg_index.specs.Degrees.{longs_in, joined};
ghost use Rattle.fg_index.specs.DegreesParts.{IsDegrees, IsBelow};

use crate::below::{Below, LONG_BYTE, walk};
use fg_base::Memory;
use std::alloc::Global;
use std::marker::Model;

/// Each so many vertices have a start of their own.
const GROUP: usize = 32;

/// The degrees of vertices 0, 1, 2 and so on in one direction. Contracts see the list of the degrees. A degree takes a byte and a
/// 32nd of a start, and one of 255 or more 4 bytes besides.
#[derive(Drop)]
pub struct Degrees {
    low: Vec<u8>,
    long: Vec<u32>,
    starts: Vec<Below>,
    total: u64,
}

impl Model for Degrees {
    ghost use Rattle.std.specs.Prelude.{ℕ, List};
    ghost use Rattle.std.specs.Coded.{coded_ℕ, coded_list};

    ghost Value = { List ℕ };

    ghost coded = { coded_list coded_ℕ };

    ghost use Rattle.fg_index.specs.Degrees.{joined};
    ghost use Rattle.fg_index.specs.DegreesParts.{IsDegrees};

    ghost view = { λ inside. joined inside.low.items inside.long.items };

    ghost invariant = { λ inside. IsDegrees inside.low.items inside.long.items inside.starts.items inside.total };
}

/// The byte of a degree.
fn byte_of(degree: u32) -> u8
    ensures { result ≡ min degree 255 }
{
    if degree < 255 {
        degree as u8
    } else {
        LONG_BYTE
    }
}

/// The long degrees with one more degree behind them, where it is long.
fn with_long(long: Vec<u32>, degree: u32) -> Result<Vec<u32>, Memory>
    ensures { IfOk result (λ after. after.items ≡ (if nat_lt degree 255 then long.items else long.items ++ degree ∷ [])) }
{
    let mut long = long;
    if degree < 255 {
        return Ok(long);
    }
    long.push(degree)?;
    Ok(long)
}

/// The starts with one more behind them, where vertex `next` begins a group.
fn with_start(starts: Vec<Below>, next: usize, below: Below) -> Result<Vec<Below>, Memory>
    ensures { IfOk result (λ after. after.items ≡ (if next % 32 == 0 then starts.items ++ below ∷ [] else starts.items)) }
{
    let mut starts = starts;
    if next % GROUP != 0 {
        return Ok(starts);
    }
    starts.push(below)?;
    Ok(starts)
}

/// The bytes with one more behind them.
fn with_byte(low: Vec<u8>, byte: u8) -> Result<Vec<u8>, Memory>
    ensures { IfOk result (λ after. after.items ≡ low.items ++ byte ∷ []) }
{
    let mut low = low;
    low.push(byte)?;
    Ok(low)
}

/// What stands below a vertex: its group's start, and at most 31 degrees more.
fn below_of(low: &[u8], long: &[u32], starts: &[Below], total: u64, v: usize) -> Below
    requires few { length low.now ≤ 2 ^ 24 }
    requires parts { IsDegrees low.now long.now starts.now total }
    requires within { v < length low.now }
    ensures { IsBelow low.now long.now v result }
{
    let _total = total;
    let group = v / GROUP;
    walk(starts[group], &low[group * GROUP..v], long)
}

impl Degrees {
    /// No degree yet, with room for those of `vertices` vertices, `longs` of them long. All memory is taken here, as long as no more
    /// are pushed.
    pub fn new(alloc: Global, vertices: usize, longs: usize) -> Result<Degrees, Memory>
        ensures { IfOk result (λ degrees. degrees ≡ []) }
    {
        Ok(Degrees {
            low: Vec::with_capacity(alloc, vertices)?,
            long: Vec::with_capacity(alloc, longs)?,
            starts: Vec::with_capacity(alloc, vertices.div_ceil(GROUP))?,
            total: 0,
        })
    }

    /// The degrees with one more behind them.
    pub fn push(self, degree: u32) -> Result<Degrees, Memory>
        requires { length self < 2 ^ 24 }
        ensures { IfOk result (λ degrees. degrees ≡ self ++ degree ∷ []) }
    {
        let Degrees {
            low,
            long,
            starts,
            total,
        } = self;
        let below = Below {
            degrees: total,
            longs: long.len(),
        };
        let starts = with_start(starts, low.len(), below)?;
        let low = with_byte(low, byte_of(degree))?;
        let long = with_long(long, degree)?;
        Ok(Degrees {
            low,
            long,
            starts,
            total: total + u64::from(degree),
        })
    }

    /// How many vertices there are.
    pub fn len(&self) -> usize
        ensures { result ≡ length self.now }
    {
        self.low.len()
    }

    /// The sum of all degrees.
    pub fn total(&self) -> u64
        ensures { result ≡ sum self.now }
    {
        self.total
    }

    /// The sum of the degrees of all vertices below this one. The cost is that of at most 31 bytes.
    pub fn below(&self, v: usize) -> u64
        requires within { v < length self.now }
        requires few { length self.now ≤ 2 ^ 24 }
        ensures sum { result ≡ sum (take v self.now) }
        ensures bounded { result ≤ 2 ^ 56 }
    {
        below_of(&self.low, &self.long, &self.starts, self.total, v).degrees
    }

    /// The degree of this vertex. The cost is that of a byte, and of at most 31 more where the degree is long.
    pub fn get(&self, v: usize) -> u32
        requires within { v < length self.now }
        requires few { length self.now ≤ 2 ^ 24 }
        ensures { result ≡ slice_index self.now v }
    {
        let byte = self.low[v];
        if byte != LONG_BYTE {
            return u32::from(byte);
        }
        let below = below_of(&self.low, &self.long, &self.starts, self.total, v);
        self.long[below.longs]
    }
}
