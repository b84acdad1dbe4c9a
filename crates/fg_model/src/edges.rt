//! The edges of a graph, as a list of pairs.

ghost use Rattle.std.specs.Prelude.{◌≡◌, Bool};

use std::marker::Model;

/// One edge: where it comes from, where it leads, and its weight.
#[derive(Clone, Copy, PartialEq, Eq, Debug)]
pub struct Pair {
    pub source: u32,
    pub target: u32,
    pub weight: u32,
}

/// The edges of a graph within the limits of the engine: each pair of vertices at most once, ascending by source and then by
/// target. Contracts see the number of vertices, whether the edges have weights, and the list of the pairs. Nothing here takes
/// memory.
#[derive(Drop, Debug)]
pub struct Edges {
    n: u32,
    weighted: bool,
    pairs: Vec<Pair>,
}

impl Model for Edges {
    ghost use Rattle.fg_model.specs.Edges.{EdgeList, AreEdges};

    ghost Value = { EdgeList };

    ghost view = { λ inside. record { n = inside.n; weighted = inside.weighted; pairs = inside.pairs.items } };

    ghost invariant = { λ inside. AreEdges (record { n = inside.n; weighted = inside.weighted; pairs = inside.pairs.items }) };
}

impl Edges {
    ghost use Rattle.fg_model.specs.Edges.{AreEdges};

    /// The edges of these pairs between `n` vertices.
    pub fn new(n: u32, weighted: bool, pairs: Vec<Pair>) -> Edges
        requires { AreEdges (record { n = n; weighted = weighted; pairs = pairs.items }) }
        ensures { result ≡ record { n = n; weighted = weighted; pairs = pairs.items } }
    {
        Edges { n, weighted, pairs }
    }

    /// How many vertices there are, at most 2^24. Every pair is of vertices below.
    pub fn n(&self) -> u32
        ensures n { result ≡ self.now.n }
        ensures within { AreEdges self.now }
    {
        self.n
    }

    /// Whether the edges have weights. Where they don't, every weight is 1.
    pub fn is_weighted(&self) -> bool
        ensures weighted { result ≡ self.now.weighted }
        ensures within { AreEdges self.now }
    {
        self.weighted
    }

    /// The pairs, ascending, at most 2^26.
    pub fn pairs(&self) -> &[Pair]
        ensures pairs { result.now ≡ self.now.pairs }
        ensures within { AreEdges self.now }
    {
        &self.pairs
    }

    /// The pairs, ascending, at most 2^26.
    pub fn into_pairs(self) -> Vec<Pair>
        ensures pairs { result.items ≡ self.pairs }
        ensures within { AreEdges self }
    {
        let Edges {
            n: _,
            weighted: _,
            pairs,
        } = self;
        pairs
    }
}
