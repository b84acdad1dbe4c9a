//! Pairs in order, each place once.

ghost use Rattle.std.specs.Prelude.{◌≡◌, ◌≤◌, length};
ghost use Rattle.fg_text.specs.Merged.{IsMerged, has_place_of, merged};

use fg_model::Pair;

/// Whether two pairs are of the same vertices.
fn has_place_of(one: &Pair, other: &Pair) -> bool
    ensures { result ≡ has_place_of one.now other.now }
{
    one.source == other.source && one.target == other.target
}

/// The pairs ascending by source and then by target, each of them once with its least weight. Pairs that come ascending cost one
/// pass; no memory is taken.
pub(crate) fn merge(pairs: Vec<Pair>) -> Vec<Pair>
    ensures merged { result.items ≡ merged pairs.items }
    ensures meaning { IsMerged pairs.items result.items }
    ensures few { length result.items ≤ length pairs.items }
{
    let mut pairs = pairs;
    pairs.sort_unstable_by(|one, other| {
        one.source
            .cmp(&other.source)
            .then(one.target.cmp(&other.target))
            .then(one.weight.cmp(&other.weight))
    });
    pairs.dedup_by(|later, first| has_place_of(later, first));
    pairs
}
