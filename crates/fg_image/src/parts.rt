//! What the bytes of an image say before its lists.

ghost use Rattle.std.specs.Prelude.{◌≡◌, ◌≢◌, ◌+◌, ◌*◌, ◌≤◌, IfOk, IfErr, Ok, Err, length, sum};
ghost use Rattle.fg_base.specs.declared.limits.TheConstants.{MAX_IMAGE_PAGES, PAGE_BYTES};
ghost use Rattle.fg_image.specs.Front.{HeaderFits};
ghost use Rattle.fg_image.specs.Image.{IndexFits, index_in, parts_in};

use crate::header::Header;
use fg_base::Refusal;
use fg_base::limits::PAGE_BYTES;
use fg_index::Index;
use fg_stripe::Layout;
use std::alloc::Global;

/// An image's header, where its sections stand, and its index.
#[derive(Drop)]
pub(crate) struct ImageParts {
    pub header: Header,
    pub layout: Layout,
    pub index: Index,
}

/// The bytes of the section of the index.
fn index_in<'a>(header: &Header, image: &'a [u8]) -> &'a [u8]
    requires { header.now.index_first * PAGE_BYTES + header.now.index_bytes ≤ length image.now }
    ensures { result.now ≡ index_in header.now image.now }
{
    let behind = &image[header.index_first as usize * PAGE_BYTES..];
    &behind[..header.index_bytes as usize]
}

/// Reads the header, the sections and the index of an image of so many pages, or the first refusal among them.
pub(crate) fn read_parts(alloc: Global, image: &[u8], pages: u32) -> Result<ImageParts, Refusal>
    requires whole { length image.now ≡ pages * PAGE_BYTES }
    requires some { 1 ≤ pages }
    requires few { pages ≤ MAX_IMAGE_PAGES }
    ensures parts { IfOk result (λ parts. parts_in pages image.now ≡ Ok (record { header = parts.header; layout = parts.layout; index = parts.index })) }
    ensures pages { IfOk result (λ parts. parts.layout.pages ≡ pages) }
    ensures fits { IfOk result (λ parts. IndexFits parts.layout parts.index) }
    ensures header { IfOk result (λ parts. HeaderFits parts.header parts.layout) }
    ensures entries { IfOk result (λ parts. sum parts.index.outs ≡ parts.header.out_entries) }
    ensures refusal { IfErr result (λ refusal. refusal ≢ Refusal.Memory → parts_in pages image.now ≡ Err refusal) }
{
    let header = match Header::read(&image[..PAGE_BYTES]) {
        Ok(header) => header,
        Err(refusal) => return Err(refusal),
    };
    let layout = match header.sections(pages) {
        Ok(layout) => layout,
        Err(refusal) => return Err(refusal),
    };
    let bytes = index_in(&header, image);
    let weighted = header.is_weighted();
    match Index::read(
        alloc,
        bytes,
        header.n,
        weighted,
        header.out_entries,
        header.in_entries,
    ) {
        Ok(index) => Ok(ImageParts {
            header,
            layout,
            index,
        }),
        Err(refusal) => Err(refusal),
    }
}
