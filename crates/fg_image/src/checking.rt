//! The check of an image: its targets, its padding, and whether its in-lists mirror its out-lists.

ghost use Rattle.std.specs.Prelude.{◌≡◌, ◌≢◌, ◌*◌, ◌≤◌, ◌^◌, IfErr, OnOk, length, sum};
ghost use Rattle.fg_base.specs.declared.limits.TheConstants.{PAGE_BYTES};
ghost use Rattle.fg_image.specs.Checking.{IsFaultless, IsFirstFault, IsFoundOr, IsSectionOf, bad_page, bad_page_in, padding_of, sections_in};
ghost use Rattle.fg_image.specs.Front.{HeaderFits};
ghost use Rattle.fg_image.specs.Image.{AreParts, IndexFits, IsImage, Parts, graph_in, parts_with};
ghost use Rattle.fg_image.specs.Lists.{graph_by};
ghost use Rattle.fg_model.specs.Mirror.{IsMirror};
ghost use Rattle.fg_stripe.specs.Label.{is_blank};

use crate::cut::entry_bytes;
use crate::header::Header;
use crate::mirror::first_unlike;
use crate::parts::{ImageParts, read_parts};
use crate::targets::first_bad_edge;
use fg_base::limits::PAGE_BYTES;
use fg_base::{Dir, Refusal};
use fg_index::Index;
use fg_stripe::Layout;
use fg_stripe::bytes::is_blank;
use std::alloc::Global;

/// A section of an image: its first page, and how many bytes it has.
#[derive(Clone, Copy)]
pub(crate) struct Section {
    pub first: u32,
    pub bytes: u64,
}

/// Whether the bytes behind a section's end, up to that of its last page, are zeros.
fn is_padded(image: &[u8], section: Section) -> bool
    requires within { IsSectionOf image.now section }
    ensures { result ≡ is_blank (padding_of image.now section) }
{
    let bytes = section.bytes as usize;
    let end = section.first as usize * PAGE_BYTES + bytes;
    let missing = bytes.div_ceil(PAGE_BYTES) * PAGE_BYTES - bytes;
    is_blank(&image[end..end + missing])
}

/// The page of a section with a byte other than 0 behind its end.
fn bad_page(image: &[u8], section: Section) -> Option<u32>
    requires within { IsSectionOf image.now section }
    ensures { result ≡ bad_page image.now section }
{
    if is_padded(image, section) {
        return None;
    }
    Some(section.first + (section.bytes / PAGE_BYTES as u64) as u32)
}

/// The first page of the image with a byte other than 0 behind its section's end.
fn first_bad_page(layout: &Layout, header: &Header, image: &[u8]) -> Option<u32>
    requires fits { HeaderFits header.now layout.now }
    requires whole { layout.now.pages * PAGE_BYTES ≤ length image.now }
    ensures { result ≡ bad_page_in image.now (sections_in header.now layout.now) }
{
    let size = entry_bytes(header.is_weighted()) as u64;
    let outs = Section {
        first: layout.out_first,
        bytes: header.out_entries * size,
    };
    let ins = Section {
        first: layout.in_first,
        bytes: header.in_entries * size,
    };
    let index = Section {
        first: header.index_first,
        bytes: header.index_bytes,
    };
    bad_page(image, outs)
        .or(bad_page(image, ins))
        .or(bad_page(image, index))
}

/// How many out-entries an index tells of.
fn count_outs(index: &Index) -> usize
    requires { sum index.now.outs ≤ 2 ^ 26 }
    ensures { result ≡ sum index.now.outs }
{
    let mut count = 0;
    for v in 0..index.n() {
        count += index.degree(Dir::Out, v) as usize;
    }
    count
}

/// Checks an image with this header, these sections and this index: each entry leads to a vertex, the bytes behind each section's
/// end are zeros, and each in-list holds, in some order, just the turned out-entries that lead to its vertex. The first fault
/// is answered:
///
/// - `BadEdge`: of the least vertex, in its out-list before its in-list, at the least place;
/// - `BadPadding`: of the least page;
/// - `NotMirror`: of the least vertex.
///
/// Besides the image and its index this takes 8 bytes per vertex and, for each out-entry and each entry of the longest
/// in-list, as many bytes as an entry has. The out-lists are gone through ten times, in eight of them for the entries that
/// lead to an eighth of the vertices; the in-lists are gone through twice, and the entries of each vertex are sorted.
pub fn check_sections(
    alloc: Global,
    header: &Header,
    layout: &Layout,
    index: &Index,
    image: &[u8],
) -> Result<(), Refusal>
    requires header { HeaderFits header.now layout.now }
    requires fits { IndexFits layout.now index.now }
    requires whole { layout.now.pages * PAGE_BYTES ≤ length image.now }
    ensures ok { OnOk result (IsFaultless (parts_with header.now layout.now index.now) image.now) }
    ensures mirror { OnOk result (IsMirror (graph_by layout.now index.now image.now)) }
    ensures refusal { IfErr result (λ found. found ≢ Refusal.Memory →
        IsFirstFault (parts_with header.now layout.now index.now) image.now found) }
{
    match first_bad_edge(layout, index, image) {
        Some(edge) => return Err(Refusal::BadEdge(edge)),
        None => {}
    }
    match first_bad_page(layout, header, image) {
        Some(page) => return Err(Refusal::BadPadding(page)),
        None => {}
    }
    match first_unlike(alloc, layout, index, image, count_outs(index)) {
        Ok(Some(v)) => Err(Refusal::NotMirror(v)),
        Ok(None) => Ok(()),
        Err(_) => Err(Refusal::Memory),
    }
}

/// Checks an image: its first fault is answered, as `check_sections` does.
pub fn check_image(alloc: Global, image: &Vec<u8>) -> Result<(), Refusal>
    requires is_image { (parts : Parts) × IsImage image.now.items parts }
    ensures ok { OnOk result ((parts : Parts) → AreParts image.now.items parts → IsFaultless parts image.now.items) }
    ensures mirror { OnOk result ((parts : Parts) → AreParts image.now.items parts → IsMirror (graph_in parts image.now.items)) }
    ensures refusal { IfErr result (λ found. found ≢ Refusal.Memory →
        (parts : Parts) → AreParts image.now.items parts → IsFirstFault parts image.now.items found) }
    ensures only { (parts : Parts) → AreParts image.now.items parts → (fault : Refusal) →
        IsFirstFault parts image.now.items fault → IsFoundOr fault result }
{
    let bytes = image.as_slice();
    let pages = (bytes.len() / PAGE_BYTES) as u32;
    let ImageParts {
        header,
        layout,
        index,
    } = match read_parts(alloc, bytes, pages) {
        Ok(parts) => parts,
        Err(refusal) => return Err(refusal),
    };
    match check_sections(alloc, &header, &layout, &index, bytes) {
        Ok(()) => Ok(()),
        Err(refusal) => Err(refusal),
    }
}
