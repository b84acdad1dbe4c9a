//! Opening drives.

ghost use Rattle.std.specs.Prelude.{◌≡◌, ◌≤◌, IfErr, IfOk, IfSome, OnOk, length};
ghost use Rattle.fg_base.specs.declared.limits.TheConstants.{MAX_DRIVES};
ghost use Rattle.fg_build.specs.Answers.{HoldWhole, IsOpening, OpenedFits, OpeningCounts};
ghost use Rattle.fg_build.specs.Calls.{Keeps, ReadFor};
ghost use Rattle.fg_build.specs.Opening.{opening_of};
ghost use Rattle.fg_build.specs.OpeningReads.{OpeningRead, OpeningReadFirst, opening_reads};
ghost use Rattle.fg_build.specs.PagesTold.{RefusedTold};
ghost use Rattle.fg_outside.specs.Drives.{EachSame, RoomyKept, all_told};

use crate::front::{read_front, read_index};
use crate::labels::{read_labels, striping_of};
use crate::opened::Opened;
use fg_base::Refusal;
use fg_outside::Drive;
use fg_stripe::Layout;
use std::alloc::Global;

/// Opens the drives of one image, in their order. For each drive: how many pages it has, its label, read alone, and whether it
/// agrees with the number of drives and with drive 0's label and has the pages that it needs; then the header page, and
/// then each page of the index, ascending, each read alone. The first refusal in this order is answered: `NoLabel`,
/// `WrongDrive`, `LabelDiffers`, `ShortDrive` of a drive, `BadHeader`, `BadVersion`, `BadSections`, `BadIndex`. A call of a
/// drive that fails gives `DriveFault` at that point, and `Memory` may come at any. A drive may have more pages than it
/// needs.
pub fn open<D: Drive>(alloc: Global, drives: &mut Vec<D>) -> Result<Opened, Refusal>
    requires some { 1 ≤ length drives.old.items }
    requires few { length drives.old.items ≤ MAX_DRIVES }
    ensures answer { IfSome (all_told D.held drives.old.items) (λ helds. IsOpening (opening_of helds) result) }
    ensures fits { IfOk result OpenedFits }
    ensures told { IfOk result (λ opened. HoldWhole D.told opened.layout drives.new.items) }
    ensures told_err { IfErr result (RefusedTold D.told drives.old.items drives.new.items) }
    ensures counts { OpeningCounts D.faults drives.old.items drives.new.items result }
    ensures reads { OpeningReadFirst D.held D.log drives.old.items drives.new.items }
    ensures all_read { OnOk result (OpeningRead D.held D.log drives.old.items drives.new.items) }
    ensures held { EachSame D.held drives.old.items drives.new.items }
    ensures room { EachSame D.room drives.old.items drives.new.items }
    ensures sure { RoomyKept D.room D.faults drives.old.items drives.new.items }
{
    open_drives(alloc, drives)
}

/// Opens the drives: their labels, then the header page, then the index.
fn open_drives<D: Drive>(alloc: Global, drives: &mut [D]) -> Result<Opened, Refusal>
    requires some { 1 ≤ length drives.old }
    requires few { length drives.old ≤ MAX_DRIVES }

    ensures answer { IfSome (all_told D.held drives.old) (λ helds. IsOpening (opening_of helds) result) }
    ensures fits { IfOk result OpenedFits }
    ensures told { IfOk result (λ opened. HoldWhole D.told opened.layout drives.new) }
    ensures told_err { IfErr result (RefusedTold D.told drives.old drives.new) }
    ensures counts { OpeningCounts D.faults drives.old drives.new result }

    ensures keeps { Keeps D.held D.room D.faults drives.old drives.new }
    ensures reads { IfSome (all_told D.held drives.old) (λ helds. ReadFor D.faults D.log (opening_reads helds) drives.old drives.new result) }
{
    let label = match read_labels(drives) {
        Ok(label) => label,
        Err(refusal) => return Err(refusal),
    };
    let striping = striping_of(&label);
    let (header, sections) = match read_front(drives, &striping) {
        Ok(front) => front,
        Err(refusal) => return Err(refusal),
    };
    let layout = Layout {
        out_first: sections.out_first,
        in_first: sections.in_first,
        ..striping
    };
    match read_index(alloc, drives, &layout, &header) {
        Ok(index) => Ok(Opened {
            layout,
            header,
            index,
        }),
        Err(refusal) => Err(refusal),
    }
}
