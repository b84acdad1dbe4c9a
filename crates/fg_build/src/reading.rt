//! A whole image in memory.

ghost use Rattle.std.specs.Prelude.{◌≡◌, ◌*◌, IfOk, IfSome, OnOk, length};
ghost use Rattle.fg_base.specs.declared.limits.TheConstants.{PAGE_BYTES};
ghost use Rattle.fg_build.specs.Answers.{HoldWhole, OpenedFits, ReadCounts};
ghost use Rattle.fg_build.specs.Opening.{image_of};
ghost use Rattle.fg_build.specs.OpeningReads.{whole_reads};
ghost use Rattle.fg_outside.specs.Drives.{EachSame, LogsGrew, LogsGrewByFirst, RoomyKept, all_told};

use crate::opened::Opened;
use crate::pages::read_pages;
use fg_base::Refusal;
use fg_outside::Drive;
use std::alloc::Global;

/// The bytes of the image that was opened on these drives: all its pages, ascending, each read alone. A call of a drive that
/// fails gives `DriveFault`.
pub fn read_all<D: Drive>(
    alloc: Global,
    drives: &mut Vec<D>,
    opened: &Opened,
) -> Result<Vec<u8>, Refusal>
    requires fits { OpenedFits opened.now }
    requires told { HoldWhole D.told opened.now.layout drives.old.items }
    ensures image { IfOk result (λ image. IfSome (all_told D.held drives.old.items) (λ helds. image.items ≡ image_of opened.now helds)) }
    ensures whole { IfOk result (λ image. length image.items ≡ opened.now.layout.pages * PAGE_BYTES) }
    ensures counts { ReadCounts D.faults drives.old.items drives.new.items result }
    ensures reads { LogsGrewByFirst D.log (whole_reads opened.now.layout) drives.old.items drives.new.items }
    ensures all_read { OnOk result (LogsGrew D.log (whole_reads opened.now.layout) drives.old.items drives.new.items) }
    ensures held { EachSame D.held drives.old.items drives.new.items }
    ensures room { EachSame D.room drives.old.items drives.new.items }
    ensures sure { RoomyKept D.room D.faults drives.old.items drives.new.items }
{
    read_pages(alloc, drives, &opened.layout, 0, opened.layout.pages)
}
