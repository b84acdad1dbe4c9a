//! A graph in memory.

ghost use Rattle.std.specs.Prelude.{All, IsTrue, ◌↔◌};
ghost use Rattle.fg_model.specs.Graph.{IsEntryOf, IsSide, IsWithinLimits};

use fg_base::limits::{MAX_ENTRIES, MAX_VERTICES};
use fg_base::{Entry, Items};

/// For each of the `n` vertices its out-entries and its in-entries. In a contract a graph is the record of these lists.
/// A graph that was read from an image may hold targets that are no vertices.
#[derive(Drop)]
pub struct Graph {
    pub n: u32,
    pub weighted: bool,
    pub outs: Items<Items<Entry>>,
    pub ins: Items<Items<Entry>>,
}

impl Graph {
    /// Whether the engine works on this graph: at most 2^24 vertices, a list of each direction for each of them, at
    /// most 2^26 entries in each direction, and weight 1 throughout where it isn't weighted.
    pub fn is_within_limits(&self) -> bool
        ensures { IsTrue result ↔ IsWithinLimits self.now }
    {
        self.n <= MAX_VERTICES
            && is_side(self.n, self.weighted, self.outs.as_slice())
            && is_side(self.n, self.weighted, self.ins.as_slice())
    }
}

fn is_side(n: u32, weighted: bool, rows: &[Items<Entry>]) -> bool
    ensures { IsTrue result ↔ IsSide n weighted rows.now }
{
    if rows.len() != n as usize {
        return false;
    }
    let mut room = MAX_ENTRIES as usize;
    for row in rows {
        let entries = row.as_slice();
        if entries.len() > room {
            return false;
        }
        if !are_entries(weighted, entries) {
            return false;
        }
        room -= entries.len();
    }
    true
}

fn are_entries(weighted: bool, entries: &[Entry]) -> bool
    ensures { IsTrue result ↔ All (IsEntryOf weighted) entries.now }
{
    for entry in entries {
        if !is_entry(weighted, *entry) {
            return false;
        }
    }
    true
}

fn is_entry(weighted: bool, entry: Entry) -> bool
    ensures { IsTrue result ↔ IsEntryOf weighted entry }
{
    weighted || entry.weight == 1
}
