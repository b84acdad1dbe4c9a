//! The drives of a job are opened, and its source is looked at.

ghost use Rattle.std.specs.Prelude.{◌≡◌, ◌≢◌, ◌≤◌, [], None, Ok, Some, IfErr, IfOk, IfSome, MatchOption, OnOk, Option, length};
ghost use Rattle.fg_base.specs.Refusal.{status_of};
ghost use Rattle.fg_base.specs.declared.limits.TheConstants.{MAX_DRIVES};
ghost use Rattle.fg_base.specs.declared.refusal.Refusal.TheVariants.{OutputFault as output_fault};
ghost use Rattle.fg_build.specs.Answers.{HoldWhole, OpenedFits};
ghost use Rattle.fg_build.specs.Opening.{opening_of};
ghost use Rattle.fg_build.specs.OpeningReads.{opening_reads};
ghost use Rattle.fg_build.specs.PagesTold.{RefusedTold};
ghost use Rattle.fg_outside.specs.Drives.{EachSame, LogsGrew, LogsGrewByFirst, NoneRose, RoomyKept, all_told};
ghost use Rattle.fg_report.specs.Refusals.{refusal_line};
ghost use Rattle.fg_top.specs.Ends.{IsCause};
ghost use Rattle.fg_top.specs.Meaning.{MeansWish};
ghost use Rattle.fg_top.specs.Outcome.{WishComesTo, held_graph, source_of};
ghost use Rattle.fg_top.specs.Running.{IsSourced};
ghost use Rattle.fg_top.specs.Tallies.{begins_of};
ghost use Rattle.fg_top.specs.declared.stats.Stats.{Stats};

use crate::wish::Wish;
use fg_base::Refusal;
use fg_build::{Opened, open};
use fg_outside::Drive;
use fg_words::Pick;
use std::alloc::Global;

/// The source of a program that has one.
fn source_of(pick: Pick) -> Option<u32>
    ensures { result ≡ source_of pick }
{
    match pick {
        Pick::Bfs(source) => Some(source),
        Pick::Sssp(source) => Some(source),
        Pick::Wcc | Pick::Core | Pick::Rank(_) => None,
    }
}

/// The source of the program, where it has one that is no vertex.
fn bad_source(pick: Pick, vertices: u32) -> Option<u32>
    ensures { MatchOption result (IsSourced pick vertices) (λ source. (source_of pick ≡ Some source) × (vertices ≤ source)) }
{
    let Some(source) = source_of(pick) else {
        return None;
    };
    if source < vertices {
        return None;
    }
    Some(source)
}

/// Opens the drives, and looks whether the source is a vertex.
pub fn open_sourced<D: Drive>(
    alloc: Global,
    wish: Wish,
    drives: &mut Vec<D>,
) -> Result<Opened, Refusal>
    requires some { 1 ≤ length drives.old.items }
    requires few { length drives.old.items ≤ MAX_DRIVES }
    ensures opening { IfOk result (λ opened. IfSome (all_told D.held drives.old.items) (λ helds. opening_of helds ≡ Ok opened)) }
    ensures fits { IfOk result OpenedFits }
    ensures told { IfOk result (λ opened. HoldWhole D.told opened.layout drives.new.items) }
    ensures sourced { IfOk result (λ opened. IsSourced wish.pick opened.header.n) }
    ensures kept { OnOk result (NoneRose D.faults drives.old.items drives.new.items) }
    ensures cause { IfErr result (λ refusal. (stats : Option Stats) → IsCause D.faults drives.old.items drives.new.items
        (WishComesTo wish stats (all_told D.held drives.old.items)) (Some refusal) (refusal_line refusal)) }
    ensures not_output { IfErr result (λ refusal. refusal ≢ output_fault) }
    ensures told_err { IfErr result (λ refusal. status_of refusal ≡ 7 → RefusedTold D.told drives.old.items drives.new.items refusal) }
    ensures unbegun { IfErr result (λ refusal. status_of refusal ≡ 8 →
        IfSome (all_told D.held drives.old.items) (λ helds. begins_of wish (held_graph helds) ≡ [])) }
    ensures means { OnOk result (IfSome (all_told D.held drives.old.items) (λ helds. MeansWish wish (held_graph helds))) }
    ensures reads { IfSome (all_told D.held drives.old.items) (λ helds. LogsGrewByFirst D.log (opening_reads helds) drives.old.items drives.new.items) }
    ensures all_read { OnOk result (IfSome (all_told D.held drives.old.items)
        (λ helds. LogsGrew D.log (opening_reads helds) drives.old.items drives.new.items)) }
    ensures held { EachSame D.held drives.old.items drives.new.items }
    ensures room { EachSame D.room drives.old.items drives.new.items }
    ensures sure { RoomyKept D.room D.faults drives.old.items drives.new.items }
{
    let opened = match open(alloc, drives) {
        Ok(opened) => opened,
        Err(refusal) => return Err(refusal),
    };
    let vertices = opened.header.n;
    if let Some(source) = bad_source(wish.pick, vertices) {
        return Err(Refusal::BadSource(source, vertices));
    }
    Ok(opened)
}
