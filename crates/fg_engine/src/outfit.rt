//! What takes memory before a run's cache is opened.

ghost use Rattle.std.specs.Prelude.{◌≡◌, ◌≤◌, All, IfOk, length};
ghost use Rattle.fg_build.specs.Answers.{OpenedFits};
ghost use Rattle.fg_engine.specs.Outfit.{IsOutboxOf, IsOutfit};

use crate::helping::{HelperEnd, helper_ends};
use crate::starting::opening_states;
use crate::weighing::block_weights;
use fg_base::{Memory, VState};
use fg_batch::Outbox;
use fg_build::Opened;
use fg_cache::{FaultShare, Pass};
use fg_model::Program;
use fg_part::PartMap;
use std::alloc::Global;

/// The opening states, the weight of each block, the workers' outboxes, a place for the end of each helper, and room for the passes and for
/// the shares of faults on their way back to the cache, one of the workers and one of each helper.
#[derive(Drop)]
pub(crate) struct Outfit {
    pub(crate) states: Vec<VState>,
    pub(crate) weights: Vec<u64>,
    pub(crate) outboxes: Vec<Outbox>,
    pub(crate) ends: Vec<HelperEnd>,
    pub(crate) passes: Vec<Pass>,
    pub(crate) shares: Vec<FaultShare>,
}

impl Outfit {
    /// The outfit of a run of this program on the image that was opened, with as many workers as the map has parts, and so many helpers.
    pub(crate) fn new<P: Program>(
        alloc: Global,
        program: &P,
        opened: &Opened,
        map: PartMap,
        helpers: u32,
    ) -> Result<Outfit, Memory>
        requires fits { OpenedFits opened.now }
        requires map { map.n ≡ length opened.now.index.outs }
        requires helpers { helpers ≤ opened.now.layout.drives }
        ensures { IfOk result (IsOutfit (P.rules program.now) opened.now map) }
    {
        Ok(Outfit {
            states: opening_states(alloc, program, opened)?,
            weights: block_weights(alloc, program, opened, map)?,
            outboxes: outboxes(alloc, map)?,
            ends: helper_ends(alloc, helpers)?,
            passes: Vec::with_capacity(alloc, map.parts as usize)?,
            shares: Vec::with_capacity(alloc, helpers as usize + 1)?,
        })
    }
}

/// An outbox for each part of the map.
fn outboxes(alloc: Global, map: PartMap) -> Result<Vec<Outbox>, Memory>
    ensures count { IfOk result (λ outboxes. length outboxes.items ≡ map.parts) }
    ensures each { IfOk result (λ outboxes. All (IsOutboxOf map) outboxes.items) }
{
    let mut outboxes = Vec::with_capacity(alloc, map.parts as usize)?;
    for _worker in 0..map.parts {
        outboxes.push_reserved(Outbox::new(alloc, map)?);
    }
    Ok(outboxes)
}
