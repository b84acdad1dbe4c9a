//! The blocks of an iteration.

ghost use Rattle.std.specs.Prelude.{◌≡◌, ◌≤◌, ◌++◌, ◌∷◌, [], IfOk, OnOk, length};
ghost use Rattle.fg_base.specs.declared.limits.TheConstants.{MAX_VERTICES};
ghost use Rattle.fg_iter.specs.Marked.{AreListed};

use fg_base::Memory;
use std::alloc::Global;

/// Blocks in ascending order, each with its weight.
#[derive(Drop)]
pub(crate) struct Listed {
    pub(crate) blocks: Vec<u32>,
    pub(crate) weights: Vec<u64>,
}

impl Listed {
    /// What all of them weigh, or the most that a number holds.
    pub(crate) fn weight(&self) -> u64 {
        self.weights
            .iter()
            .fold(0u64, |sum, weight| sum.saturating_add(*weight))
    }

    /// One block more, with its weight.
    fn push(&mut self, block: u32, weight: u64) -> Result<(), Memory>
        ensures blocks { OnOk result (self.new.blocks.items ≡ self.old.blocks.items ++ block ∷ []) }
        ensures weights { OnOk result (self.new.weights.items ≡ self.old.weights.items ++ weight ∷ []) }
    {
        self.blocks.push(block)?;
        self.weights.push(weight)?;
        Ok(())
    }
}

/// The blocks with a mark.
pub(crate) fn list_marked(alloc: Global, marks: &[bool], weights: &[u64]) -> Result<Listed, Memory>
    requires few { length marks.now ≤ MAX_VERTICES }
    requires weights { length weights.now ≡ length marks.now }
    ensures { IfOk result (λ listed. AreListed marks.now weights.now listed) }
{
    let mut listed = Listed {
        blocks: Vec::new(alloc),
        weights: Vec::new(alloc),
    };
    for block in 0..marks.len() {
        if !marks[block] {
            continue;
        }
        listed.push(block as u32, weights[block])?;
    }
    Ok(listed)
}
