//! The header page of an image.

ghost use Rattle.std.specs.Prelude.{◌≡◌, ◌≤◌, ◌==◌, ◌*◌, ◌^◌, true, IfOk, length};
ghost use Rattle.fg_base.specs.declared.limits.TheConstants.{MAX_ENTRIES, MAX_IMAGE_PAGES, PAGE_BYTES};
ghost use Rattle.fg_image.specs.Front.{HeaderFits};
ghost use Rattle.fg_image.specs.Header.{has_sections, header_at, header_of, is_counted, is_weighted, pages_for, sections_of, size_of};
ghost use Rattle.fg_image.specs.Making.{header_with};

use fg_base::Refusal;
use fg_base::limits::{MAX_ENTRIES, MAX_VERTICES, PAGE_BYTES};
use fg_stripe::Layout;
use fg_stripe::bytes::{is_blank, number_at, wide_number_at};

/// What each header page begins with.
pub(crate) const MAGIC: [u8; 8] = *b"FGIMAGE\0";

/// The one version of the image's form.
const VERSION: u32 = 1;

/// The byte of the page at which the numbers end. Behind it there are zeros.
pub(crate) const NUMBERS_END: usize = 76;

/// The most bytes of an index, 2^27.
const MAX_INDEX_BYTES: u64 = 134_217_728;

/// The numbers of an image's header page.
#[derive(Clone, Copy, PartialEq, Eq, Debug)]
pub struct Header {
    /// The version of the image's form, 1.
    pub version: u32,
    /// 0, or 1 where entries have weights.
    pub flags: u32,
    /// The number of vertices, at most 2^24.
    pub n: u32,
    /// The pages of the image, this one among them.
    pub pages: u32,
    /// The entries of all out-lists, at most 2^26.
    pub out_entries: u64,
    /// The entries of all in-lists, at most 2^26.
    pub in_entries: u64,
    /// The bytes of the out-lists' section.
    pub out_bytes: u64,
    /// The bytes of the in-lists' section.
    pub in_bytes: u64,
    /// The bytes of the index, at most 2^27.
    pub index_bytes: u64,
    /// The page at which the out-lists begin.
    pub out_first: u32,
    /// The page at which the in-lists begin.
    pub in_first: u32,
    /// The page at which the index begins.
    pub index_first: u32,
}

impl Header {
    /// The header that the bytes of one page are. Refuses, in this order: `BadHeader` where the page doesn't begin with
    /// the mark of images, `BadVersion` where the version isn't 1, `BadHeader` where the flags or a count are out of
    /// their range or a byte behind the numbers isn't zero.
    pub fn read(page: &[u8]) -> Result<Header, Refusal>
        requires { length page.now ≡ PAGE_BYTES }
        ensures value { result ≡ header_at page.now }
        ensures counted { IfOk result (λ header. is_counted header ≡ true) }
    {
        if !page.starts_with(&MAGIC) {
            return Err(Refusal::BadHeader);
        }
        let header = header_of(page);
        if header.version != VERSION {
            return Err(Refusal::BadVersion(header.version));
        }
        if header.is_counted() && is_blank(&page[NUMBERS_END..]) {
            Ok(header)
        } else {
            Err(Refusal::BadHeader)
        }
    }

    /// Where the sections stand, on one drive, in an image of so many pages. Refuses as `BadSections` a header whose
    /// numbers don't agree with each other or with the pages, whatever they are.
    pub fn sections(&self, pages: u32) -> Result<Layout, Refusal>
        ensures value { result ≡ sections_of self.now pages }
        ensures fits { is_counted self.now ≡ true → pages ≤ MAX_IMAGE_PAGES → IfOk result (λ layout. HeaderFits self.now layout) }
    {
        if !self.has_sections(pages) {
            return Err(Refusal::BadSections);
        }
        Ok(Layout {
            drives: 1,
            unit: 1,
            pages,
            out_first: self.out_first,
            in_first: self.in_first,
        })
    }

    /// The header of an image of so many vertices and edges, each of which is an out-entry and an in-entry, whose index
    /// has so many bytes.
    pub(crate) fn with(weighted: bool, n: u32, edges: u64, index_bytes: u64) -> Header
        requires few_edges { edges ≤ MAX_ENTRIES }
        requires few_bytes { index_bytes ≤ 2 ^ 27 }
        ensures { result ≡ header_with weighted n edges edges index_bytes }
    {
        let bytes = edges * if weighted { 8 } else { 4 };
        let in_first = 1 + pages_for(bytes) as u32;
        let index_first = in_first + pages_for(bytes) as u32;
        Header {
            version: VERSION,
            flags: if weighted { 1 } else { 0 },
            n,
            pages: index_first + pages_for(index_bytes) as u32,
            out_entries: edges,
            in_entries: edges,
            out_bytes: bytes,
            in_bytes: bytes,
            index_bytes,
            out_first: 1,
            in_first,
            index_first,
        }
    }

    /// Whether entries have weights.
    pub fn is_weighted(&self) -> bool
        ensures { result ≡ is_weighted self.now }
    {
        self.flags == 1
    }

    /// Whether the flags are 0 or 1 and the counts within the limits.
    fn is_counted(&self) -> bool
        ensures { result ≡ is_counted self.now }
    {
        self.flags <= 1
            && self.n <= MAX_VERTICES
            && self.out_entries <= u64::from(MAX_ENTRIES)
            && self.in_entries <= u64::from(MAX_ENTRIES)
    }

    /// Whether so many bytes are those of so many entries.
    fn fills(&self, bytes: u64, entries: u64) -> bool
        ensures { result ≡ (bytes == entries * size_of self.now) }
    {
        let size = if self.is_weighted() { 8 } else { 4 };
        u128::from(bytes) == u128::from(entries) * size
    }

    /// Whether the sections lie one behind the other up to the last of so many pages, and have the entries' bytes.
    fn has_sections(&self, pages: u32) -> bool
        ensures { result ≡ has_sections pages self.now }
    {
        let in_first = 1 + pages_for(self.out_bytes);
        let index_first = u64::from(self.in_first) + pages_for(self.in_bytes);
        let end = u64::from(self.index_first) + pages_for(self.index_bytes);
        self.fills(self.out_bytes, self.out_entries)
            && self.fills(self.in_bytes, self.in_entries)
            && self.index_bytes <= MAX_INDEX_BYTES
            && self.out_first == 1
            && u64::from(self.in_first) == in_first
            && u64::from(self.index_first) == index_first
            && u64::from(self.pages) == end
            && self.pages == pages
    }
}

/// The pages that so many bytes fill.
fn pages_for(bytes: u64) -> u64
    ensures value { result ≡ pages_for bytes }
    ensures few { result ≤ 2 ^ 52 }
{
    bytes.div_ceil(PAGE_BYTES as u64)
}

/// The numbers of a header page, whatever they are.
fn header_of(page: &[u8]) -> Header
    requires { length page.now ≡ PAGE_BYTES }
    ensures { result ≡ header_of page.now }
{
    Header {
        version: number_at(page, 8),
        flags: number_at(page, 12),
        n: number_at(page, 16),
        pages: number_at(page, 20),
        out_entries: wide_number_at(page, 24),
        in_entries: wide_number_at(page, 32),
        out_bytes: wide_number_at(page, 40),
        in_bytes: wide_number_at(page, 48),
        index_bytes: wide_number_at(page, 56),
        out_first: number_at(page, 64),
        in_first: number_at(page, 68),
        index_first: number_at(page, 72),
    }
}
