//! What the lines of a text gave so far.

ghost use Rattle.std.specs.Prelude.{◌≡◌, ℕ, ◌<◌, ◌≤◌, ◌+◌, ◌^◌, ◌++◌, ◌∷◌, [], false, OnOk, length, nat_le, take};
ghost use Rattle.fg_base.specs.declared.limits.TheConstants.{MAX_ENTRIES, MAX_VERTICES};
ghost use Rattle.fg_text.specs.Gathered.{is_double, pair_there, pair_back, pairs_of, weight_of, with_edges};
ghost use Rattle.fg_text.specs.Merged.{merged};

use crate::merged::merge;
use crate::verdict::Edge;
use fg_base::Memory;
use fg_base::limits::MAX_ENTRIES;
use fg_model::{Edges, Pair};
use std::alloc::Global;
use std::marker::Model;

/// What the lines of a text gave so far: the number of vertices, whether there was a weight, and the pairs in the order of the
/// lines. Contracts see these three.
#[derive(Drop)]
pub(crate) struct Gathered {
    n: u32,
    weighted: bool,
    pairs: Vec<Pair>,
}

impl Model for Gathered {
    ghost use Rattle.fg_model.specs.Edges.{EdgeList};
    ghost use Rattle.fg_text.specs.Gathered.{AreGathered};

    ghost Value = { EdgeList };

    ghost view = { λ inside. record { n = inside.n; weighted = inside.weighted; pairs = inside.pairs.items } };

    ghost invariant = { λ inside. AreGathered inside.n inside.weighted inside.pairs.items };
}

/// Whether an edge is a pair both ways.
fn is_double(undirected: bool, edge: Edge) -> bool
    ensures { result ≡ is_double undirected edge }
{
    undirected && edge.source != edge.target
}

/// An edge as a pair.
fn pair_there(edge: Edge) -> Pair
    ensures pair { result ≡ pair_there edge }
    ensures weight { weight_of edge < 2 ^ 32 }
{
    Pair {
        source: edge.source,
        target: edge.target,
        weight: edge.weight.unwrap_or(1),
    }
}

/// An edge as a pair, the other way round.
fn pair_back(edge: Edge) -> Pair
    ensures { result ≡ pair_back edge }
{
    Pair {
        source: edge.target,
        target: edge.source,
        weight: edge.weight.unwrap_or(1),
    }
}

/// Adds the pairs of an edge. After want of memory some first of them were added.
fn push_pairs(pairs: &mut Vec<Pair>, undirected: bool, edge: Edge) -> Result<(), Memory>
    ensures ok { OnOk result (pairs.new.items ≡ pairs.old.items ++ pairs_of undirected edge) }
    ensures weight { weight_of edge < 2 ^ 32 }
    ensures front { (k : ℕ) × (pairs.new.items ≡ pairs.old.items ++ take k (pairs_of undirected edge)) }
{
    if pairs.push(pair_there(edge)).is_err() {
        return Err(Memory);
    }
    if !is_double(undirected, edge) {
        return Ok(());
    }
    if pairs.push(pair_back(edge)).is_err() {
        return Err(Memory);
    }
    Ok(())
}

impl Gathered {
    /// Nothing yet.
    pub(crate) fn new(alloc: Global) -> Gathered
        ensures { result ≡ record { n = 0; weighted = false; pairs = [] } }
    {
        Gathered {
            n: 0,
            weighted: false,
            pairs: Vec::new(alloc),
        }
    }

    /// Whether there is room for the pairs of this edge.
    pub(crate) fn has_room(&self, undirected: bool, edge: Edge) -> bool
        ensures { result ≡ nat_le (length self.now.pairs + length (pairs_of undirected edge)) MAX_ENTRIES }
    {
        let more = if is_double(undirected, edge) { 2 } else { 1 };
        self.pairs.len() + more <= MAX_ENTRIES as usize
    }

    /// Adds an edge.
    pub(crate) fn add(&mut self, undirected: bool, edge: Edge) -> Result<(), Memory>
        requires source { edge.source < MAX_VERTICES }
        requires target { edge.target < MAX_VERTICES }
        requires room { length self.old.pairs + length (pairs_of undirected edge) ≤ MAX_ENTRIES }
        ensures { OnOk result (self.new ≡ with_edges undirected self.old (edge ∷ [])) }
    {
        self.n = self.n.max(edge.source.max(edge.target) + 1);
        self.weighted |= edge.weight.is_some();
        push_pairs(&mut self.pairs, undirected, edge)
    }

    /// All that was gathered, in order, each place once with its least weight.
    pub(crate) fn into_edges(self) -> Edges
        ensures { result ≡ record self { pairs = merged self.pairs } }
    {
        let Gathered { n, weighted, pairs } = self;
        Edges::new(n, weighted, merge(pairs))
    }
}
