//! The header page and the index of an image on drives.

ghost use Rattle.std.specs.Prelude.{◌≡◌, ◌<◌, ◌≤◌, [], ◌∷◌, IfErr, IfOk, IfSome, length};
ghost use Rattle.fg_build.specs.Answers.{HoldWhole};
ghost use Rattle.fg_build.specs.Calls.{IsAnswer, Keeps, ReadFor};
ghost use Rattle.fg_build.specs.Front.{IsFront, index_on, reads_of_index};
ghost use Rattle.fg_build.specs.OpeningReads.{page_read};
ghost use Rattle.fg_build.specs.Pages.{IsStriped};
ghost use Rattle.fg_build.specs.PagesTold.{IsBehindLabels};
ghost use Rattle.fg_image.specs.Front.{HeaderFits, front_at};
ghost use Rattle.fg_image.specs.Header.{is_weighted};
ghost use Rattle.fg_image.specs.Image.{IndexFits};
ghost use Rattle.fg_outside.specs.Drives.{EachSame, all_told};
ghost use Rattle.fg_stripe.specs.Held.{page_on};

use crate::pages::{read_image_page, read_pages};
use fg_base::Refusal;
use fg_base::limits::PAGE_BYTES;
use fg_image::Header;
use fg_index::Index;
use fg_outside::Drive;
use fg_stripe::Layout;
use std::alloc::Global;

/// The header of an image that is striped so, and where its sections stand, as on one drive. Refuses as `Header::read`
/// and `Header::sections` do.
pub(crate) fn read_front<D: Drive>(
    drives: &mut [D],
    striping: &Layout,
) -> Result<(Header, Layout), Refusal>
    requires striped { IsStriped striping.now }
    requires told { HoldWhole D.told striping.now drives.old }
    requires some { 0 < striping.now.pages }

    ensures answer { IfSome (all_told D.held drives.old) (λ helds. IsFront (front_at striping.now.pages (page_on striping.now.unit helds 0)) result) }
    ensures fits { IfOk result (λ front. HeaderFits front.0 front.1) }
    ensures pages { IfOk result (λ front. front.1.pages ≡ striping.now.pages) }
    ensures behind { IfErr result IsBehindLabels }
    ensures same_told { EachSame D.told drives.old drives.new }

    ensures keeps { Keeps D.held D.room D.faults drives.old drives.new }
    ensures reads { ReadFor D.faults D.log (page_read striping.now.drives striping.now.unit 0 ∷ []) drives.old drives.new result }
{
    let mut page = [0; PAGE_BYTES];
    if let Err(refusal) = read_image_page(drives, striping, 0, &mut page) {
        return Err(refusal);
    }
    let header = match Header::read(&page) {
        Ok(header) => header,
        Err(refusal) => return Err(refusal),
    };
    match header.sections(striping.pages) {
        Ok(layout) => Ok((header, layout)),
        Err(refusal) => Err(refusal),
    }
}

/// The index of an image with this header. Its pages are read into one list, out of which it is read once. Refuses as
/// `Index::read` does.
pub(crate) fn read_index<D: Drive>(
    alloc: Global,
    drives: &mut [D],
    layout: &Layout,
    header: &Header,
) -> Result<Index, Refusal>
    requires striped { IsStriped layout.now }
    requires told { HoldWhole D.told layout.now drives.old }
    requires fits { HeaderFits header.now layout.now }

    ensures answer { IfSome (all_told D.held drives.old) (λ helds. IsAnswer (index_on layout.now header.now helds) result) }
    ensures fits { IfOk result (λ index. IndexFits layout.now index) }
    ensures vertices { IfOk result (λ index. length index.outs ≡ header.now.n) }
    ensures weighted { IfOk result (λ index. index.weighted ≡ is_weighted header.now) }
    ensures behind { IfErr result IsBehindLabels }
    ensures same_told { EachSame D.told drives.old drives.new }

    ensures keeps { Keeps D.held D.room D.faults drives.old drives.new }
    ensures reads { ReadFor D.faults D.log (reads_of_index layout.now header.now) drives.old drives.new result }
{
    let first = header.index_first;
    let bytes = match read_pages(alloc, drives, layout, first, layout.pages - first) {
        Ok(bytes) => bytes,
        Err(refusal) => return Err(refusal),
    };
    let index = &bytes[..header.index_bytes as usize];
    let weighted = header.is_weighted();
    match Index::read(
        alloc,
        index,
        header.n,
        weighted,
        header.out_entries,
        header.in_entries,
    ) {
        Ok(index) => Ok(index),
        Err(refusal) => Err(refusal),
    }
}
