//! What blocks weigh.

ghost use Rattle.std.specs.Prelude.{◌≡◌, ℕ, ◌-◌, ◌<◌, ◌≤◌, ◌*◌, ◌^◌, IfOk, List, length, min};
ghost use Rattle.std.specs.List.{range_with_len, sum_by};
ghost use Rattle.fg_base.specs.declared.limits.TheConstants.{MAX_VERTICES};
ghost use Rattle.fg_build.specs.Answers.{OpenedFits};
ghost use Rattle.fg_build.specs.ToldImage.{graph_over};
ghost use Rattle.fg_engine.specs.Weights.{needed_degree};
ghost use Rattle.fg_iter.specs.Lists.{AreBlockWeights};

use fg_base::{Dir, Memory, Need};
use fg_build::Opened;
use fg_index::Index;
use fg_model::Program;
use fg_part::PartMap;
use std::alloc::Global;

/// How many entries the needed lists of a vertex have.
fn needed_degree(index: &Index, need: Need, v: u32) -> u64
    requires { v < length index.now.outs }
    ensures value { result ≡ needed_degree index.now need v }
    ensures few { result < 2 ^ 33 }
{
    match need {
        Need::Out => u64::from(index.degree(Dir::Out, v)),
        Need::In => u64::from(index.degree(Dir::In, v)),
        Need::Both => u64::from(index.degree(Dir::Out, v)) + u64::from(index.degree(Dir::In, v)),
    }
}

/// How many those of the vertices from `first` on and before `end` have.
fn needed_between(index: &Index, need: Need, first: u32, end: u32) -> u64
    requires within { (first ≤ end) × (end ≤ length index.now.outs) }
    requires few { end ≤ MAX_VERTICES }
    ensures { result ≡ sum_by (needed_degree index.now need) (range_with_len first (end - first)) }
{
    let mut entries = 0;
    for v in first..end {
        entries += needed_degree(index, need, v);
    }
    entries
}

/// The weight of each block: how many entries all its vertices need.
pub(crate) fn block_weights<P: Program>(
    alloc: Global,
    program: &P,
    opened: &Opened,
    map: PartMap,
) -> Result<Vec<u64>, Memory>
    requires fits { OpenedFits opened.now }
    requires map { map.n ≡ length opened.now.index.outs }
    ensures { IfOk result (λ weights. (image : List ℕ) →
        AreBlockWeights (P.rules program.now) (graph_over opened.now image) map weights.items) }
{
    let need = program.need();
    let size = map.block_size();
    let blocks = map.n.div_ceil(size);
    let mut weights = Vec::with_capacity(alloc, blocks as usize)?;
    for block in 0..blocks {
        let first = block * size;
        let end = map.n.min(first + size);
        weights.push(needed_between(&opened.index, need, first, end))?;
    }
    Ok(weights)
}
