//! The labels of drives that are to hold one image.

ghost use Rattle.std.specs.Prelude.{◌≡◌, ◌<◌, ◌≤◌, ◌+◌, ◌==◌, ◌&&◌, true, [], ◌∷◌, IfErr, IfOk, IfSome, length, slice_index_or};
ghost use Rattle.fg_base.specs.declared.limits.TheConstants.{MAX_DRIVES};
ghost use Rattle.fg_build.specs.Answers.{HoldWhole};
ghost use Rattle.fg_build.specs.Calls.{Keeps, ReadFor};
ghost use Rattle.fg_build.specs.Labelled.{IsAllLabelled, IsFirst, IsLabelled, IsPassed, LabelFits, ToldEnough, striping_of};
ghost use Rattle.fg_build.specs.Labels.{agrees_with, need_of, refusal_by};
ghost use Rattle.fg_build.specs.OpeningReads.{alone, label_reads};
ghost use Rattle.fg_build.specs.PagesTold.{IsOf, IsRefusedAt, IsUnlabelled, RefusedTold, ToldAlone, ToldHere};
ghost use Rattle.fg_outside.specs.Drives.{ToldBy, all_told};

use fg_base::Refusal;
use fg_base::limits::PAGE_BYTES;
use fg_outside::{Drive, count_pages, read_page};
use fg_stripe::striping::need_on;
use fg_stripe::{Label, Layout};

/// A drive's label, and how many pages the drive has.
#[derive(Clone, Copy)]
struct Labelled {
    label: Label,
    pages: u32,
}

/// How the image of this label is striped. Its sections aren't placed: they begin at page 0.
pub(crate) fn striping_of(label: &Label) -> Layout
    ensures { result ≡ striping_of label.now }
{
    Layout {
        drives: label.drives,
        unit: label.unit,
        pages: label.pages,
        out_first: 0,
        in_first: 0,
    }
}

/// Whether the label is of an image on so many drives, the image of this first label.
fn agrees_with(drives: u32, first: &Label, label: &Label) -> bool
    ensures { result ≡ agrees_with drives first.now label.now }
{
    label.drives == drives
        && label.unit == first.unit
        && label.pages == first.pages
        && label.number == first.number
}

/// What refuses this drive of so many, where drive 0 has the label `first`.
fn refusal_by(drives: u32, first: &Label, drive: u32, found: &Labelled) -> Option<Refusal>
    requires { LabelFits found.now.label }
    ensures { result ≡ refusal_by drives first.now drive found.now.pages found.now.label }
{
    let label = &found.label;
    if label.drive != drive {
        return Some(Refusal::WrongDrive(drive, label.drive));
    }
    if !agrees_with(drives, first, label) {
        return Some(Refusal::LabelDiffers(drive));
    }
    let need = need_on(drive, &striping_of(label));
    if found.pages < need {
        return Some(Refusal::ShortDrive(drive, found.pages, need));
    }
    None
}

/// The number of pages of the drive, and its label, read alone. `NoLabel` where the drive has no page or that isn't a
/// label.
fn read_label<D: Drive>(drives: &mut [D], drive: u32) -> Result<Labelled, Refusal>
    requires { drive < length drives.old }

    ensures answer { IfSome (all_told D.held drives.old) (λ helds. IsLabelled drive (slice_index_or helds drive []) result) }
    ensures fits { IfOk result (λ found. LabelFits found.label) }
    ensures some { IfOk result (λ found. 1 ≤ found.pages) }
    ensures told { IfOk result (λ found. ToldBy D.told drive found.pages drives.old drives.new) }
    ensures told_err { IfErr result (λ refusal. IsUnlabelled drive refusal × ToldAlone D.told drive drives.old drives.new) }

    ensures keeps { Keeps D.held D.room D.faults drives.old drives.new }
    ensures reads { ReadFor D.faults D.log (alone drive 0 ∷ []) drives.old drives.new result }
{
    let mut page = [0; PAGE_BYTES];
    let Ok(pages) = count_pages(drives, drive) else {
        return Err(Refusal::DriveFault(drive));
    };
    if pages == 0 {
        return Err(Refusal::NoLabel(drive));
    }
    let Ok(()) = read_page(drives, drive, 0, &mut page) else {
        return Err(Refusal::DriveFault(drive));
    };
    let Some(label) = Label::read(&page) else {
        return Err(Refusal::NoLabel(drive));
    };
    Ok(Labelled { label, pages })
}

/// Looks whether this drive of so many has a label that agrees with drive 0's, and the pages that it needs.
fn check_drive<D: Drive>(drives: &mut [D], first: &Label, drive: u32) -> Result<(), Refusal>
    requires own { drive < length drives.old }
    requires few { length drives.old ≤ MAX_DRIVES }
    requires same { first.now.drives ≡ length drives.old }

    ensures answer { IfSome (all_told D.held drives.old) (λ helds. IsPassed (length drives.old) first.now drive (slice_index_or helds drive []) result) }
    ensures told { IfOk result (λ _. ToldEnough D.told drive (need_of drive first.now) drives.old drives.new) }
    ensures told_err { IfErr result (λ refusal. IsOf drive refusal × ToldHere D.told first.now drive refusal drives.old drives.new) }

    ensures keeps { Keeps D.held D.room D.faults drives.old drives.new }
    ensures reads { ReadFor D.faults D.log (alone drive 0 ∷ []) drives.old drives.new result }
{
    let count = drives.len() as u32;
    let found = match read_label(drives, drive) {
        Ok(found) => found,
        Err(refusal) => return Err(refusal),
    };
    if let Some(refusal) = refusal_by(count, first, drive, &found) {
        return Err(refusal);
    }
    Ok(())
}

/// The label of drive 0, which agrees with the number of drives and has its pages.
fn read_first<D: Drive>(drives: &mut [D]) -> Result<Label, Refusal>
    requires some { 1 ≤ length drives.old }
    requires few { length drives.old ≤ MAX_DRIVES }

    ensures answer { IfSome (all_told D.held drives.old) (λ helds. IsFirst helds result) }
    ensures fits { IfOk result LabelFits }
    ensures same { IfOk result (λ label. label.drives ≡ length drives.old) }
    ensures told { IfOk result (λ label. ToldEnough D.told 0 (need_of 0 label) drives.old drives.new) }
    ensures told_err { IfErr result (λ refusal. IsOf 0 refusal × IsRefusedAt D.told 0 refusal drives.old drives.new) }

    ensures keeps { Keeps D.held D.room D.faults drives.old drives.new }
    ensures reads { ReadFor D.faults D.log (alone 0 0 ∷ []) drives.old drives.new result }
{
    let count = drives.len() as u32;
    let found = match read_label(drives, 0) {
        Ok(found) => found,
        Err(refusal) => return Err(refusal),
    };
    if let Some(refusal) = refusal_by(count, &found.label, 0, &found) {
        return Err(refusal);
    }
    Ok(found.label)
}

/// The label of drive 0, with which each drive's label agrees. Each drive has the pages that it needs. The drives are
/// looked at one by one, in their order, and the first refusal is answered.
pub(crate) fn read_labels<D: Drive>(drives: &mut [D]) -> Result<Label, Refusal>
    requires some { 1 ≤ length drives.old }
    requires few { length drives.old ≤ MAX_DRIVES }

    ensures answer { IfSome (all_told D.held drives.old) (λ helds. IsAllLabelled helds result) }
    ensures fits { IfOk result LabelFits }
    ensures told { IfOk result (λ label. HoldWhole D.told (striping_of label) drives.new) }
    ensures told_err { IfErr result (RefusedTold D.told drives.old drives.new) }

    ensures keeps { Keeps D.held D.room D.faults drives.old drives.new }
    ensures reads { ReadFor D.faults D.log (label_reads (length drives.old)) drives.old drives.new result }
{
    let count = drives.len() as u32;
    let first = match read_first(drives) {
        Ok(first) => first,
        Err(refusal) => return Err(refusal),
    };
    for drive in 1..count {
        if let Err(refusal) = check_drive(drives, &first, drive) {
            return Err(refusal);
        }
    }
    Ok(first)
}
