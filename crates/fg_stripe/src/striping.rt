//! Which page of which drive holds a page of the image.

ghost use Rattle.std.specs.Prelude.{◌≡◌, ◌+◌, ◌<◌, ◌≤◌, length};
ghost use Rattle.fg_base.specs.declared.limits.TheConstants.{MAX_DRIVES, MAX_IMAGE_PAGES, MAX_UNIT};
ghost use Rattle.fg_stripe.specs.Striping.{place_of, page_at, pages_on};

use crate::layout::{Layout, Place};

/// Where the page of the image stands. Units of `unit` pages are dealt out to the drives in turn, the first to drive 0,
/// and each drive keeps its units one behind the other from its page 1 on.
pub fn place(page: u32, drives: u32, unit: u32) -> Place
    requires some_drives { 0 < drives }
    requires some_unit { 0 < unit }
    requires page_within { page < MAX_IMAGE_PAGES }
    ensures value { result ≡ place_of page drives unit }
    ensures own_drive { result.drive < drives }
    ensures behind_label { 0 < result.local }
    ensures back { page_at result drives unit ≡ page }
{
    let whole_units = page / unit;
    Place {
        drive: whole_units % drives,
        local: 1 + whole_units / drives * unit + page % unit,
    }
}

/// How many pages the drive needs: its label, and the pages of the image that are placed on it.
pub fn need_on(drive: u32, layout: &Layout) -> u32
    requires own_drive { drive < layout.now.drives }
    requires few_drives { layout.now.drives ≤ MAX_DRIVES }
    requires some_unit { 0 < layout.now.unit }
    requires small_unit { layout.now.unit ≤ MAX_UNIT }
    requires pages_within { layout.now.pages ≤ MAX_IMAGE_PAGES }
    ensures { result ≡ 1 + length (pages_on drive layout.now.drives layout.now.unit layout.now.pages) }
{
    let round = layout.drives * layout.unit;
    let whole_rounds = layout.pages / round;
    let last_round = layout.pages % round;
    let before = drive * layout.unit;
    1 + whole_rounds * layout.unit + last_round.saturating_sub(before).min(layout.unit)
}
