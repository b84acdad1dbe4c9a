//! The generator of edges.

ghost use Rattle.std.specs.Prelude.{◌≡◌, ◌<◌};

use crate::verdict::Edge;
use rand_core::utils::NextWord;
use rand_pcg::Lcg64Xsh32;

/// The stream of words that edges are made of.
const STREAM: u64 = 54;

/// A generator of edges between so many vertices.
#[derive(Drop)]
pub(crate) struct Generator {
    words: Lcg64Xsh32,
    nodes: u32,
    ghost stream: { words.increment ≡ 109 },
    ghost some: { 0 < nodes },
}

impl Generator {
    ghost use Rattle.fg_text.specs.Generator.{edge_at, next_state, opening_state};

    /// The generator that opens with this start.
    pub(crate) fn new(start: u64, nodes: u32) -> Generator
        requires { 0 < nodes }
        ensures state { result.words.state ≡ opening_state start }
        ensures nodes { result.nodes ≡ nodes }
    {
        Generator {
            words: Lcg64Xsh32::new(start, STREAM),
            nodes,
        }
    }

    /// The next edge: two words, its source and its target.
    pub(crate) fn next_edge(&mut self) -> Edge
        ensures edge { result ≡ edge_at self.old.nodes self.old.words.state }
        ensures state { self.new.words.state ≡ next_state (next_state self.old.words.state) }
        ensures nodes { self.new.nodes ≡ self.old.nodes }
        ensures source { result.source < self.old.nodes }
        ensures target { result.target < self.old.nodes }
    {
        let source = self.words.next_word() % self.nodes;
        let target = self.words.next_word() % self.nodes;
        Edge {
            source,
            target,
            weight: None,
        }
    }
}
