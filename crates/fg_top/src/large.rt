//! The work of a run on generated edges.

ghost use Rattle.std.specs.Prelude.{◌≡◌, ◌≤◌, ◌^◌, IfErr, IfOk};
ghost use Rattle.fg_base.specs.declared.limits.TheConstants.{MAX_DRIVES, MAX_ENTRIES, MAX_IMAGE_PAGES, MAX_UNIT, MAX_VERTICES};
ghost use Rattle.fg_build.specs.Layouts.{plan_of};
ghost use Rattle.fg_engine.specs.Tallies.{RoseWithin, tally_between};
ghost use Rattle.fg_text.specs.Generator.{generated_text};
ghost use Rattle.fg_text.specs.Made.{MadeRefused};
ghost use Rattle.fg_top.specs.Calls.{output_between};
ghost use Rattle.fg_top.specs.Ends.{EndsAlone};
ghost use Rattle.fg_top.specs.Engines.{FitsLimits};
ghost use Rattle.fg_top.specs.LargeJob.{LargeComesTo, MeansGenerated, generated_graph};
ghost use Rattle.fg_top.specs.MadeDrives.{AreEmptyFor, HoldGenerated};
ghost use Rattle.fg_top.specs.Statuses.{CameToEnd};
ghost use Rattle.fg_top.specs.Tallies.{RoseByWish, Stood, begins_of};

use crate::engine::Engine;
use crate::report::refuse;
use crate::run::run_job;
use crate::wish::Wish;
use fg_base::{Memory, Refusal, Tally};
use fg_build::build;
use fg_image::image_pages;
use fg_outside::{Drive, RoomDrive, Sink};
use fg_stripe::Layout;
use fg_stripe::striping::need_on;
use fg_text::generate_edges;
use fg_words::Recipe;
use std::alloc::Global;
use std::sync::Wait;
use std::thread::Threads;

/// Empty drives, each with just the room that it needs for its part of an image that is laid out so.
fn empty_drives(alloc: Global, layout: &Layout) -> Result<Vec<RoomDrive>, Memory>
    requires few_drives { layout.now.drives ≤ MAX_DRIVES }
    requires some_unit { 1 ≤ layout.now.unit }
    requires small_unit { layout.now.unit ≤ MAX_UNIT }
    requires few_pages { layout.now.pages ≤ MAX_IMAGE_PAGES }
    ensures { IfOk result (λ drives. AreEmptyFor ⟦<RoomDrive as Drive>⟧.held ⟦<RoomDrive as Drive>⟧.room ⟦<RoomDrive as Drive>⟧.faults layout.now
        drives.items) }
{
    let mut drives = Vec::with_capacity(alloc, layout.drives as usize)?;
    for drive in 0..layout.drives {
        drives.push(RoomDrive::new(alloc, need_on(drive, layout))?)?;
    }
    Ok(drives)
}

/// Drives in memory that hold the image of the edges that are generated so, over so many drives and in units of so many
/// pages. The edges are gone when this returns.
fn make_drives(
    alloc: Global,
    recipe: Recipe,
    unit: u32,
    count: u32,
) -> Result<Vec<RoomDrive>, Refusal>
    requires some_nodes { 1 ≤ recipe.nodes }
    requires few_nodes { recipe.nodes ≤ MAX_VERTICES }
    requires few_edges { recipe.edges ≤ MAX_ENTRIES }
    requires some { 1 ≤ count }
    requires few { count ≤ MAX_DRIVES }
    requires some_unit { 1 ≤ unit }
    requires small_unit { unit ≤ MAX_UNIT }
    ensures made { IfOk result (λ drives. HoldGenerated ⟦<RoomDrive as Drive>⟧.held ⟦<RoomDrive as Drive>⟧.faults (plan_of count unit 0) recipe drives.items) }
    ensures refused { IfErr result (MadeRefused recipe.undirected (generated_text recipe.start recipe.nodes recipe.edges)) }
{
    let edges = match generate_edges(
        alloc,
        recipe.start,
        recipe.nodes,
        recipe.edges,
        recipe.undirected,
    ) {
        Ok(edges) => edges,
        Err(refusal) => return Err(refusal),
    };
    let Ok(pages) = image_pages(alloc, &edges) else {
        return Err(Refusal::Memory);
    };
    // Room alone is asked of this layout, so it isn't said where the sections begin.
    let layout = Layout {
        drives: count,
        unit,
        pages,
        out_first: 1,
        in_first: 1,
    };
    let Ok(mut drives) = empty_drives(alloc, &layout) else {
        return Err(Refusal::Memory);
    };
    match build(alloc, &edges, unit, 0, &mut drives) {
        Ok(_) => Ok(drives),
        Err(refusal) => Err(refusal),
    }
}

/// Does a run on the graph of generated edges: they are generated, their image is built over so many drives in memory, in
/// units of so many pages, and then it is run on as on any other. No drive of these can fail.
pub fn large_job<R: Threads + Wait + Sync, K: Sink, T: Tally + Send>(
    rt: &R,
    alloc: Global,
    wish: Wish,
    engine: Engine,
    recipe: Recipe,
    unit: u32,
    count: u32,
    out: &mut K,
    tally: &mut T,
) -> u8
    requires some_nodes { 1 ≤ recipe.nodes }
    requires few_nodes { recipe.nodes ≤ MAX_VERTICES }
    requires few_edges { recipe.edges ≤ MAX_ENTRIES }
    requires some { 1 ≤ count }
    requires few { count ≤ MAX_DRIVES }
    requires some_unit { 1 ≤ unit }
    requires small_unit { unit ≤ MAX_UNIT }
    requires engine { FitsLimits engine }
    requires room_of_runs { T.runs tally.old ≤ 2 ^ 62 }
    requires room_of_entries { T.entries tally.old ≤ 2 ^ 62 }
    ensures ends { EndsAlone (LargeComesTo wish recipe)
        (output_between K.Sink out.old out.new) result }
    ensures means { result ≡ 0 → MeansGenerated wish recipe }
    ensures tally { result ≡ 0 → RoseByWish wish (generated_graph recipe)
        (tally_between T.Tally tally.old tally.new) }
    ensures tally_went { RoseWithin (CameToEnd result) (begins_of wish (generated_graph recipe))
        (tally_between T.Tally tally.old tally.new) }
    ensures tally_stands { result ≡ 7 → Stood
        (tally_between T.Tally tally.old tally.new) }
{
    let mut drives = match make_drives(alloc, recipe, unit, count) {
        Ok(drives) => drives,
        Err(refusal) => return refuse(out, refusal),
    };
    run_job(rt, alloc, wish, engine, false, &mut drives, out, tally)
}
