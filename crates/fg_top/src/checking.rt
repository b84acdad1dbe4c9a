//! The work of checking an image.

ghost use Rattle.std.specs.Prelude.{◌≡◌, ◌≢◌, ◌≤◌, IfErr, IfOk, IfSome, Ok, OnOk, Some, length};
ghost use Rattle.fg_base.specs.Refusal.{status_of};
ghost use Rattle.fg_base.specs.declared.limits.TheConstants.{MAX_DRIVES};
ghost use Rattle.fg_base.specs.declared.refusal.Refusal.TheVariants.{OutputFault as output_fault};
ghost use Rattle.fg_build.specs.Opening.{image_of, opening_of};
ghost use Rattle.fg_build.specs.PagesTold.{RefusedTold};
ghost use Rattle.fg_image.specs.Checking.{IsFaultless};
ghost use Rattle.fg_outside.specs.Drives.{EachSame, LogsGrew, LogsGrewByFirst, NoneRose, RoomyKept, all_told};
ghost use Rattle.fg_report.specs.Refusals.{refusal_line};
ghost use Rattle.fg_top.specs.Calls.{output_between};
ghost use Rattle.fg_top.specs.CheckJob.{CheckComesTo, HoldMirror, check_reads, parts_of};
ghost use Rattle.fg_top.specs.Ends.{Ends, IsCause, LeavesHeld};
ghost use Rattle.fg_top.specs.RunJob.{OpeningRefused};

use crate::checked_line::write_checked;
use crate::report::refuse;
use fg_base::Refusal;
use fg_build::{Opened, open, read_all};
use fg_image::check_sections;
use fg_outside::{Drive, Sink};
use std::alloc::Global;

/// Opens the drives, reads the image whole, and checks it. The image's bytes are gone when this returns.
fn check<D: Drive>(alloc: Global, drives: &mut Vec<D>) -> Result<Opened, Refusal>
    requires some { 1 ≤ length drives.old.items }
    requires few { length drives.old.items ≤ MAX_DRIVES }
    ensures opening { IfOk result (λ opened. IfSome (all_told D.held drives.old.items) (λ helds. opening_of helds ≡ Ok opened)) }
    ensures sound { IfOk result (λ opened. IfSome (all_told D.held drives.old.items)
        (λ helds. IsFaultless (parts_of opened) (image_of opened helds))) }
    ensures mirror { OnOk result (IfSome (all_told D.held drives.old.items) (λ helds. HoldMirror helds (opening_of helds))) }
    ensures kept { OnOk result (NoneRose D.faults drives.old.items drives.new.items) }
    ensures cause { IfErr result (λ refusal. IsCause D.faults drives.old.items drives.new.items (CheckComesTo (all_told D.held drives.old.items))
        (Some refusal) (refusal_line refusal)) }
    ensures not_output { IfErr result (λ refusal. refusal ≢ output_fault) }
    ensures told_err { IfErr result (λ refusal. status_of refusal ≡ 7 → RefusedTold D.told drives.old.items drives.new.items refusal) }
    ensures reads { IfSome (all_told D.held drives.old.items) (λ helds. LogsGrewByFirst D.log (check_reads helds) drives.old.items drives.new.items) }
    ensures all_read { OnOk result (IfSome (all_told D.held drives.old.items)
        (λ helds. LogsGrew D.log (check_reads helds) drives.old.items drives.new.items)) }
    ensures held { EachSame D.held drives.old.items drives.new.items }
    ensures sure { RoomyKept D.room D.faults drives.old.items drives.new.items }
{
    let opened = match open(alloc, drives) {
        Ok(opened) => opened,
        Err(refusal) => return Err(refusal),
    };
    let image = match read_all(alloc, drives, &opened) {
        Ok(image) => image,
        Err(refusal) => return Err(refusal),
    };
    match check_sections(alloc, &opened.header, &opened.layout, &opened.index, &image) {
        Ok(()) => Ok(opened),
        Err(refusal) => Err(refusal),
    }
}

/// Checks the image on the drives: they are opened, the image is read whole, its first fault is looked for, and where it has
/// none a line of it is written.
pub fn check_job<D: Drive, K: Sink>(alloc: Global, drives: &mut Vec<D>, out: &mut K) -> u8
    requires some { 1 ≤ length drives.old.items }
    requires few { length drives.old.items ≤ MAX_DRIVES }
    ensures ends { Ends D.faults drives.old.items drives.new.items
        (CheckComesTo (all_told D.held drives.old.items))
        (LeavesHeld D.held drives.old.items drives.new.items)
        (output_between K.Sink out.old out.new) result }
    ensures drives { EachSame D.held drives.old.items drives.new.items }
    ensures sure { RoomyKept D.room D.faults drives.old.items drives.new.items }
    ensures reads { IfSome (all_told D.held drives.old.items) (λ helds. LogsGrewByFirst D.log (check_reads helds) drives.old.items drives.new.items) }
    ensures told { result ≡ 7 → OpeningRefused D.told drives.old.items drives.new.items }
    ensures means { result ≡ 0 → IfSome (all_told D.held drives.old.items) (λ helds. HoldMirror helds (opening_of helds)) }
    ensures all_read { result ≡ 0 → IfSome (all_told D.held drives.old.items)
        (λ helds. LogsGrew D.log (check_reads helds) drives.old.items drives.new.items) }
{
    let opened = match check(alloc, drives) {
        Ok(opened) => opened,
        Err(refusal) => return refuse(out, refusal),
    };
    if let Err(_) = write_checked(out, &opened) {
        return Refusal::OutputFault.status();
    }
    0
}
