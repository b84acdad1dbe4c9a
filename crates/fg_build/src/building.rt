//! Building an image over empty drives.

ghost use Rattle.std.specs.Prelude.{◌≡◌, ◌<◌, ◌≤◌, ◌/◌, IfOk, IfSome, IsOk, OnOk, length};
ghost use Rattle.fg_base.specs.declared.limits.TheConstants.{MAX_DRIVES, MAX_UNIT, PAGE_BYTES};
ghost use Rattle.fg_build.specs.Answers.{ReadCounts};
ghost use Rattle.fg_build.specs.Appends.{BuildsInOrder, build_appends};
ghost use Rattle.fg_build.specs.Building.{Builds, EmptyCounts, RoomyKeptForImage, SaysEmpty};
ghost use Rattle.fg_build.specs.Calls.{Keeps};
ghost use Rattle.fg_build.specs.Layouts.{plan_of};
ghost use Rattle.fg_build.specs.PagesTold.{EmptyTold};
ghost use Rattle.fg_image.specs.Made.{image_bytes};
ghost use Rattle.fg_outside.specs.Drives.{EachSame, RoomyKept, all_told};

use crate::appending::append_image;
use fg_base::Refusal;
use fg_base::limits::PAGE_BYTES;
use fg_image::make_image;
use fg_model::Edges;
use fg_outside::{Drive, count_pages};
use fg_stripe::Label;
use std::alloc::Global;

/// Looks whether the drives are empty, in order: `NotEmpty` names the first that holds a whole page. A call of a drive that
/// fails gives `DriveFault` at that point.
pub fn empty<D: Drive>(drives: &mut Vec<D>) -> Result<(), Refusal>
    requires few { length drives.old.items ≤ MAX_DRIVES }
    ensures says { IfSome (all_told D.held drives.old.items) (λ helds. SaysEmpty result helds) }
    ensures told { EmptyTold D.told drives.old.items drives.new.items result }
    ensures counts { EmptyCounts D.faults drives.old.items drives.new.items result }
    ensures held { EachSame D.held drives.old.items drives.new.items }
    ensures log { EachSame D.log drives.old.items drives.new.items }
    ensures room { EachSame D.room drives.old.items drives.new.items }
    ensures sure { RoomyKept D.room D.faults drives.old.items drives.new.items }
{
    look_at_all(drives)
}

/// Builds the image of these edges over the drives, behind what they hold: takes all its memory first, then appends each
/// drive's label in order of drives and then each image page in ascending order, one page a call. Answers the number of the
/// image's pages. `DriveFault` names the drive whose append failed.
pub fn build<D: Drive>(
    alloc: Global,
    edges: &Edges,
    unit: u32,
    number: u64,
    drives: &mut Vec<D>,
) -> Result<u32, Refusal>
    requires some { 1 ≤ length drives.old.items }
    requires few { length drives.old.items ≤ MAX_DRIVES }
    requires some_unit { 1 ≤ unit }
    requires small_unit { unit ≤ MAX_UNIT }
    ensures pages { IfOk result (λ pages. pages ≡ length (image_bytes edges.now) / PAGE_BYTES) }
    ensures holds { Builds D.held (plan_of (length drives.old.items) unit number) edges.now drives.old.items drives.new.items result }
    ensures in_order { BuildsInOrder D.held (build_appends (plan_of (length drives.old.items) unit number) edges.now) drives.old.items drives.new.items result }
    ensures counts { ReadCounts D.faults drives.old.items drives.new.items result }
    ensures log { EachSame D.log drives.old.items drives.new.items }
    ensures sure { RoomyKeptForImage D.room D.faults (plan_of (length drives.old.items) unit number) edges.now drives.old.items drives.new.items }
{
    let Ok(image) = make_image(alloc, edges) else {
        return Err(Refusal::Memory);
    };
    let pages = (image.len() / PAGE_BYTES) as u32;
    let label = Label {
        drive: 0,
        drives: drives.len() as u32,
        unit,
        pages,
        number,
    };
    match append_image(drives, &label, &image) {
        Ok(()) => Ok(pages),
        Err(refusal) => Err(refusal),
    }
}

/// Looks whether each drive is empty.
fn look_at_all<D: Drive>(drives: &mut [D]) -> Result<(), Refusal>
    requires few { length drives.old ≤ MAX_DRIVES }

    ensures says { IfSome (all_told D.held drives.old) (λ helds. SaysEmpty result helds) }
    ensures told { EmptyTold D.told drives.old drives.new result }
    ensures counts { EmptyCounts D.faults drives.old drives.new result }
    ensures log { EachSame D.log drives.old drives.new }
    ensures keeps { Keeps D.held D.room D.faults drives.old drives.new }
{
    let count = drives.len() as u32;
    for drive in 0..count {
        let Ok(pages) = count_pages(drives, drive) else {
            return Err(Refusal::DriveFault(drive));
        };
        if pages != 0 {
            return Err(Refusal::NotEmpty(drive));
        }
    }
    Ok(())
}
