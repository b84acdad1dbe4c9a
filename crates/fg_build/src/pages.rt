//! Pages of an image on drives, each read alone.

ghost use Rattle.std.specs.Prelude.{◌≡◌, ◌<◌, ◌≤◌, ◌+◌, ◌*◌, [], ◌∷◌, IfErr, IfOk, IfSome, OnOk, length};
ghost use Rattle.fg_base.specs.declared.limits.TheConstants.{PAGE_BYTES};
ghost use Rattle.fg_build.specs.Answers.{HoldWhole};
ghost use Rattle.fg_build.specs.Calls.{IsOutside, Keeps, ReadFor};
ghost use Rattle.fg_build.specs.OpeningReads.{page_read, page_reads};
ghost use Rattle.fg_build.specs.Pages.{IsStriped, pages_at};
ghost use Rattle.fg_outside.specs.Drives.{EachSame, all_told};
ghost use Rattle.fg_stripe.specs.Held.{page_on};

use fg_base::Refusal;
use fg_base::limits::PAGE_BYTES;
use fg_outside::{Drive, read_page};
use fg_stripe::Layout;
use fg_stripe::striping::place;
use std::alloc::Global;

/// Reads a page of the image into `into`, of `PAGE_BYTES` bytes.
pub(crate) fn read_image_page<D: Drive>(
    drives: &mut [D],
    layout: &Layout,
    page: u32,
    into: &mut [u8],
) -> Result<(), Refusal>
    requires striped { IsStriped layout.now }
    requires told { HoldWhole D.told layout.now drives.old }
    requires page { page < layout.now.pages }
    requires whole { length into.old ≡ PAGE_BYTES }

    ensures bytes { OnOk result (IfSome (all_told D.held drives.old) (λ helds. into.new ≡ page_on layout.now.unit helds page)) }
    ensures fault { IfErr result IsOutside }
    ensures same_told { EachSame D.told drives.old drives.new }

    ensures keeps { Keeps D.held D.room D.faults drives.old drives.new }
    ensures reads { ReadFor D.faults D.log (page_read layout.now.drives layout.now.unit page ∷ []) drives.old drives.new result }
{
    let place = place(page, layout.drives, layout.unit);
    let Ok(()) = read_page(drives, place.drive, place.local, into) else {
        return Err(Refusal::DriveFault(place.drive));
    };
    Ok(())
}

/// Reads so many pages of the image from page `first` on into `into`, each into its place.
fn fill_pages<D: Drive>(
    drives: &mut [D],
    layout: &Layout,
    first: u32,
    count: u32,
    into: &mut [u8],
) -> Result<(), Refusal>
    requires striped { IsStriped layout.now }
    requires told { HoldWhole D.told layout.now drives.old }
    requires pages { first + count ≤ layout.now.pages }
    requires whole { length into.old ≡ count * PAGE_BYTES }

    ensures bytes { OnOk result (IfSome (all_told D.held drives.old) (λ helds. into.new ≡ pages_at layout.now.unit helds first count)) }
    ensures fault { IfErr result IsOutside }
    ensures same_told { EachSame D.told drives.old drives.new }

    ensures keeps { Keeps D.held D.room D.faults drives.old drives.new }
    ensures reads { ReadFor D.faults D.log (page_reads layout.now.drives layout.now.unit first count) drives.old drives.new result }
{
    for k in 0..count {
        let from = k as usize * PAGE_BYTES;
        let page = &mut into[from..from + PAGE_BYTES];
        if let Err(refusal) = read_image_page(drives, layout, first + k, page) {
            return Err(refusal);
        }
    }
    Ok(())
}

/// The bytes of so many pages of the image from page `first` on, in a list that gets its room at once.
pub(crate) fn read_pages<D: Drive>(
    alloc: Global,
    drives: &mut [D],
    layout: &Layout,
    first: u32,
    count: u32,
) -> Result<Vec<u8>, Refusal>
    requires striped { IsStriped layout.now }
    requires told { HoldWhole D.told layout.now drives.old }
    requires pages { first + count ≤ layout.now.pages }

    ensures bytes { IfOk result (λ bytes. IfSome (all_told D.held drives.old) (λ helds. bytes.items ≡ pages_at layout.now.unit helds first count)) }
    ensures whole { IfOk result (λ bytes. length bytes.items ≡ count * PAGE_BYTES) }
    ensures fault { IfErr result IsOutside }
    ensures same_told { EachSame D.told drives.old drives.new }

    ensures keeps { Keeps D.held D.room D.faults drives.old drives.new }
    ensures reads { ReadFor D.faults D.log (page_reads layout.now.drives layout.now.unit first count) drives.old drives.new result }
{
    let Ok(mut bytes) = vec![in alloc; 0; count as usize * PAGE_BYTES] else {
        return Err(Refusal::Memory);
    };
    if let Err(refusal) = fill_pages(drives, layout, first, count, &mut bytes) {
        return Err(refusal);
    }
    Ok(bytes)
}
