//! What the workers of an iteration share.

ghost use Rattle.std.specs.Prelude.{◌≡◌, ◌<◌, IfErr, IfOk, OnOk};
ghost use Rattle.fg_batch.specs.Outbox.{IsUnsent};
ghost use Rattle.fg_cache.specs.Slips.{FaultOf};
ghost use Rattle.fg_part.specs.PartMap.{block_total};
ghost use Rattle.fg_task.specs.Blocks.{HasCause, IsResult};
ghost use Rattle.fg_worker.specs.Desk.{HasRoomForBlock, IsDesk, SpentUpToBlock, blocks_of, setting_of};
ghost use Rattle.fg_worker.specs.Hand.{IsHand, IsPassHeld, SpentByHand, counted_by};

use crate::beginning::begin_block;
use crate::block_run::BlockRun;
use crate::hand::Hand;
use crate::result::result_of;
use crate::rounds::visit_all;
use fg_base::{Tally, VState};
use fg_cache::{Cache, FaultShare};
use fg_index::Index;
use fg_model::Program;
use fg_outside::Drive;
use fg_part::PartMap;
use fg_stripe::Layout;
use fg_task::{Along, BlockResult, RunsBlock, TaskBook, WorkFault};
use std::alloc::Global;
use std::sync::Wait;

/// What the workers of an iteration share: the program, the cache of an image, the index and the layout by which its lists are found,
/// the blocks, and the state of each vertex in this phase.
#[derive(Drop)]
pub struct Desk<'a, P: Program, D: Drive> {
    pub program: &'a P,
    pub cache: &'a Cache<D>,
    pub index: &'a Index,
    pub layout: Layout,
    pub map: PartMap,
    pub states: &'a [VState],
    pub phase: u64,
}

impl<'a, P: Program, D: Drive, T: Tally> RunsBlock<Hand<T>> for Desk<'a, P, D> {
    ghost use Rattle.std.specs.Prelude.{◌≡◌};
    ghost use Rattle.fg_worker.specs.Desk.{IsDesk, blocks_of, setting_of};
    ghost use Rattle.fg_worker.specs.Hand.{IsHand, counted_by};

    type Fault = FaultShare;

    ghost blocks = { λ desk. blocks_of (setting_of P.rules desk) };

    ghost lends = { λ desk hand. IsDesk (setting_of P.rules desk) × IsHand desk.cache.now.site desk.map hand };

    ghost spent = { λ hand. counted_by T.runs T.entries hand };

    ghost caused = { λ desk share. share.books ≡ desk.cache.now.site.books };

    /// Runs the block, and waits for the pages that it needs. At a fault what was sent until then is let go.
    fn run<R: Wait>(
        &self,
        rt: &R,
        alloc: Global,
        block: u32,
        kept: &mut Hand<T>,
    ) -> Result<BlockResult, WorkFault<FaultShare>> {
        match run_block(rt, alloc, self, block, kept) {
            Ok(result) => Ok(result),
            Err(fault) => {
                kept.outbox.clear();
                Err(fault)
            }
        }
    }
}

/// Runs a block. For a fault what was sent until then is left in the outbox.
fn run_block<P: Program, D: Drive, T: Tally, R: Wait>(
    rt: &R,
    alloc: Global,
    desk: &Desk<'_, P, D>,
    block: u32,
    hand: &mut Hand<T>,
) -> Result<BlockResult, WorkFault<FaultShare>>
    requires desk { IsDesk (setting_of P.rules desk.now) }
    requires hand { IsHand desk.now.cache.now.site desk.now.map hand.old }
    requires block { block < block_total desk.now.map }
    requires room { HasRoomForBlock (setting_of P.rules desk.now) block (counted_by T.runs T.entries hand.old) }
    ensures result { IfOk result (λ result. IsResult (blocks_of (setting_of P.rules desk.now)) block result) }
    ensures exact { IfOk result (SpentByHand T.runs T.entries (blocks_of (setting_of P.rules desk.now)) hand.old hand.new) }
    ensures unsent { OnOk result (IsUnsent hand.new.outbox) }
    ensures pass { IsPassHeld desk.now.cache.now.site hand.new.pass }
    ensures map { hand.new.outbox.map ≡ desk.now.map }
    ensures few { SpentUpToBlock (setting_of P.rules desk.now) block
        (counted_by T.runs T.entries hand.old) (counted_by T.runs T.entries hand.new) }
    ensures fault { IfErr result (λ fault. HasCause (λ (share : FaultOf). share.books ≡ desk.now.cache.now.site.books) fault) }
{
    let function = Along {
        program: desk.program,
        n: desk.map.n,
        weighted: desk.index.weighted(),
    };
    let mut book = TaskBook::new(alloc, function);
    let active = begin_block(desk, block, &mut book, &mut hand.tally)?;
    let mut run = BlockRun { book, least: None };
    match visit_all(rt, alloc, desk.cache, desk.layout, &mut run, hand) {
        Ok(()) => {}
        Err(fault) => return Err(fault),
    }
    let result = result_of(alloc, block, active, run.least, &mut hand.outbox)?;
    Ok(result)
}
