//! Appending an image to drives: each drive its label, and then each page of the image to its drive.

ghost use Rattle.std.specs.Prelude.{◌≡◌, ◌<◌, ◌≤◌, ◌/◌, ◌+◌, [], ◌∷◌, length};
ghost use Rattle.fg_base.specs.declared.limits.TheConstants.{MAX_DRIVES, MAX_IMAGE_PAGES, PAGE_BYTES};
ghost use Rattle.fg_build.specs.Appending.{Appends, RoomyKeptFor, on_drive, one_on, pages_dealt, pages_dealt_count};
ghost use Rattle.fg_build.specs.Appends.{AppendsInOrder, append_of, image_appends, label_appends, page_appends};
ghost use Rattle.fg_build.specs.Layouts.{layout_by, layout_pages_by, plan_by};
ghost use Rattle.fg_outside.specs.Drives.{EachSame};
ghost use Rattle.fg_stripe.specs.Label.{label_bytes};

use fg_base::Refusal;
use fg_base::limits::PAGE_BYTES;
use fg_outside::Drive;
use fg_stripe::Label;
use fg_stripe::striping::place;

/// Appends a page to the drive of this number.
fn append_to<D: Drive>(drives: &mut [D], drive: u32, page: &[u8]) -> Result<(), Refusal>
    requires drive { drive < length drives.old }
    requires whole { length page.now ≡ PAGE_BYTES }

    ensures appends { Appends D.held D.room D.faults (on_drive drive page.now) (one_on drive) drives.old drives.new result }
    ensures in_order { AppendsInOrder D.held (append_of drive page.now ∷ []) drives.old drives.new result }
    ensures log { EachSame D.log drives.old drives.new }
    ensures sure { RoomyKeptFor D.room D.faults (one_on drive) drives.old drives.new }
{
    let Ok(()) = drives[drive as usize].append(page) else {
        return Err(Refusal::DriveFault(drive));
    };
    Ok(())
}

/// Appends each drive's label, in their order.
fn append_labels<D: Drive>(drives: &mut [D], label: &Label) -> Result<(), Refusal>
    requires few { length drives.old ≤ MAX_DRIVES }

    ensures appends { Appends D.held D.room D.faults (λ drive. label_bytes (record label.now { drive = drive })) (λ drive. 1) drives.old drives.new result }
    ensures in_order { AppendsInOrder D.held (label_appends (length drives.old) label.now) drives.old drives.new result }
    ensures log { EachSame D.log drives.old drives.new }
    ensures sure { RoomyKeptFor D.room D.faults (λ drive. 1) drives.old drives.new }
{
    let count = drives.len() as u32;
    let mut page = [0; PAGE_BYTES];
    for drive in 0..count {
        Label { drive, ..*label }.write(&mut page);
        if let Err(refusal) = append_to(drives, drive, &page) {
            return Err(refusal);
        }
    }
    Ok(())
}

/// Appends the pages of the image, each to its drive, ascending.
fn append_pages<D: Drive>(drives: &mut [D], label: &Label, image: &[u8]) -> Result<(), Refusal>
    requires drives { length drives.old ≡ label.now.drives }
    requires some_drives { 0 < label.now.drives }
    requires some_unit { 0 < label.now.unit }
    requires pages { label.now.pages ≡ length image.now / PAGE_BYTES }
    requires few { label.now.pages ≤ MAX_IMAGE_PAGES }

    ensures appends { Appends D.held D.room D.faults (pages_dealt label.now image.now) (pages_dealt_count label.now) drives.old drives.new result }
    ensures in_order { AppendsInOrder D.held (page_appends label.now.drives label.now.unit image.now label.now.pages) drives.old drives.new result }
    ensures log { EachSame D.log drives.old drives.new }
    ensures sure { RoomyKeptFor D.room D.faults (pages_dealt_count label.now) drives.old drives.new }
{
    for page in 0..label.pages {
        let from = page as usize * PAGE_BYTES;
        let drive = place(page, label.drives, label.unit).drive;
        if let Err(refusal) = append_to(drives, drive, &image[from..from + PAGE_BYTES]) {
            return Err(refusal);
        }
    }
    Ok(())
}

/// Appends the image to the drives: each drive's label, the one that is given but for the drive's number, and then each page
/// of the image.
pub(crate) fn append_image<D: Drive>(
    drives: &mut [D],
    label: &Label,
    image: &[u8],
) -> Result<(), Refusal>
    requires few_drives { length drives.old ≤ MAX_DRIVES }
    requires drives { length drives.old ≡ label.now.drives }
    requires some_drives { 0 < label.now.drives }
    requires some_unit { 0 < label.now.unit }
    requires pages { label.now.pages ≡ length image.now / PAGE_BYTES }
    requires few { label.now.pages ≤ MAX_IMAGE_PAGES }

    ensures appends { Appends D.held D.room D.faults (layout_by label.now image.now) (layout_pages_by label.now image.now) drives.old drives.new result }
    ensures in_order { AppendsInOrder D.held (image_appends (plan_by label.now) image.now) drives.old drives.new result }
    ensures log { EachSame D.log drives.old drives.new }
    ensures sure { RoomyKeptFor D.room D.faults (layout_pages_by label.now image.now) drives.old drives.new }
{
    if let Err(refusal) = append_labels(drives, label) {
        return Err(refusal);
    }
    if let Err(refusal) = append_pages(drives, label, image) {
        return Err(refusal);
    }
    Ok(())
}
