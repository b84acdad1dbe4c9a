ghost use Rattle.std.specs.Prelude.{◌≡◌, ℕ, ◌+◌, ◌^◌, ◌<◌, ◌≤◌};
ghost use Rattle.fg_base.specs.declared.limits.TheConstants.{MAX_VERTICES, MAX_SHIFT, MAX_WORKERS};

use fg_base::limits::{MAX_SHIFT, MAX_VERTICES, MAX_WORKERS};

/// The vertices below `n` in blocks of 2^`shift`, of which the last may be shorter, dealt out to `parts` parts in turn.
#[derive(Clone, Copy, PartialEq, Eq, Debug)]
pub struct PartMap {
    /// The number of vertices.
    pub n: u32,
    /// A block has 2^`shift` vertices.
    pub shift: u32,
    /// The number of parts, at least 1.
    pub parts: u32,
    ghost few_vertices: { n ≤ MAX_VERTICES },
    ghost small_blocks: { shift ≤ MAX_SHIFT },
    ghost some_parts: { 0 < parts },
    ghost few_parts: { parts ≤ MAX_WORKERS },
}

impl PartMap {
    ghost use Rattle.fg_part.specs.PartMap.{block_size, block_of, part_of, block_total, blocks_in, block_at, place_of, places_in, vertex_at, StandsIn, IsBlock};

    /// The map over the vertices below `n`.
    pub fn new(n: u32, shift: u32, parts: u32) -> PartMap
        requires vertices { n ≤ MAX_VERTICES }
        requires shift { shift ≤ MAX_SHIFT }
        requires parts { (0 < parts) × (parts ≤ MAX_WORKERS) }
        ensures { (result.n ≡ n) × (result.shift ≡ shift) × (result.parts ≡ parts) }
    {
        PartMap { n, shift, parts }
    }

    /// How many vertices a full block has.
    pub fn block_size(&self) -> u32
        ensures value { result ≡ block_size self.now }
        ensures some { 0 < result }
        ensures few { result ≤ 2 ^ MAX_SHIFT }
    {
        1 << self.shift
    }

    /// The one block that `v` stands in.
    pub fn block_of(&self, v: u32) -> u32
        requires { v < self.now.n }
        ensures value { result ≡ block_of self.now v }
        ensures within { result < block_total self.now }
        ensures stands { StandsIn self.now result v }
        ensures alone { (b : ℕ) → StandsIn self.now b v → b ≡ result }
    {
        v >> self.shift
    }

    /// The part that has the block of `v`.
    pub fn part_of(&self, v: u32) -> u32
        requires { v < self.now.n }
        ensures value { result ≡ part_of self.now v }
        ensures own { result < self.now.parts }
        ensures placed { (k : ℕ) × (k < blocks_in self.now result) × (block_at self.now result k ≡ block_of self.now v) }
    {
        self.block_of(v) % self.parts
    }

    /// How many blocks the part has: those of the numbers 0 to below this.
    pub fn blocks(&self, part: u32) -> u32
        requires { part < self.now.parts }
        ensures value { result ≡ blocks_in self.now part }
        ensures all { (k : ℕ) → IsBlock self.now (block_at self.now part k) → k < result }
        ensures each { (k : ℕ) → k < result → IsBlock self.now (block_at self.now part k) }
    {
        let total = self.n.div_ceil(1 << self.shift);
        total.saturating_sub(part).div_ceil(self.parts)
    }

    /// Block `k` of the part.
    pub fn block(&self, part: u32, k: u32) -> u32
        requires part { part < self.now.parts }
        requires within { k < blocks_in self.now part }
        ensures value { result ≡ block_at self.now part k }
        ensures is_block { IsBlock self.now result }
        ensures alone { (p j : ℕ) → p < self.now.parts → block_at self.now p j ≡ result → (p ≡ part) × (j ≡ k) }
    {
        k * self.parts + part
    }

    /// The place of `v` in its part, from 0 on. No other vertex of the part has it.
    pub fn place_of(&self, v: u32) -> u32
        requires { v < self.now.n }
        ensures value { result ≡ place_of self.now v }
        ensures within { result < places_in self.now (part_of self.now v) }
        ensures back { vertex_at self.now (part_of self.now v) result ≡ v }
    {
        ((self.block_of(v) / self.parts) << self.shift) + v % (1 << self.shift)
    }

    /// How many places the part has. The last ones may be no vertices.
    pub fn places(&self, part: u32) -> u32
        requires { part < self.now.parts }
        ensures value { result ≡ places_in self.now part }
        ensures few { result < MAX_VERTICES + 2 ^ MAX_SHIFT }
    {
        self.blocks(part) << self.shift
    }

    /// The vertex at a place of the part; no vertex where it is `n` or more.
    pub fn vertex_at(&self, part: u32, place: u32) -> u32
        requires part { part < self.now.parts }
        requires within { place < places_in self.now part }
        ensures value { result ≡ vertex_at self.now part place }
        ensures in_part { result < self.now.n → part_of self.now result ≡ part }
        ensures back { result < self.now.n → place_of self.now result ≡ place }
    {
        let block = self.block(part, place >> self.shift);
        (block << self.shift) + place % (1 << self.shift)
    }
}
