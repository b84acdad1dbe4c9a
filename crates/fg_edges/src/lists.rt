//! The two calls.

ghost use Rattle.std.specs.Prelude.{◌≡◌, ◌<◌, ◌≤◌, ◌*◌, length};
ghost use Rattle.fg_base.specs.declared.limits.TheConstants.{PAGE_BYTES};
ghost use Rattle.fg_edges.specs.Segment.{IsInside, segment_entries};
ghost use Rattle.fg_edges.specs.Segments.{IsOnPages, list_at, rest_end};
ghost use Rattle.fg_image.specs.Image.{IndexFits};

use crate::iter::{Entries, Segments};
use crate::segment::Segment;
use fg_base::Dir;
use fg_base::limits::PAGE_BYTES;
use fg_image::first_page_of;
use fg_index::Index;
use fg_stripe::Layout;

/// The list `dir` of vertex `v` page by page, ascending. `index` and `layout` are those of one image. A list without entries has no
/// segment.
pub fn segments(index: &Index, layout: &Layout, dir: Dir, v: u32) -> Segments
    requires fits { IndexFits layout.now index.now }
    requires vertex { v < length index.now.outs }
    ensures list { result ≡ list_at layout.now index.now dir v }
    ensures on_pages { IsOnPages result }
    ensures within { rest_end result ≤ layout.now.pages * PAGE_BYTES }
{
    let span = index.span(dir, v);
    let at = first_page_of(layout, dir) as usize * PAGE_BYTES + span.start as usize;
    Segments::of_list(index.weighted(), at, index.degree(dir, v))
}

/// The entries of a segment, in list order, out of the bytes of its page. An entry without a weight has weight 1.
pub fn entries(bytes: &[u8], segment: Segment, weighted: bool) -> Entries<'_>
    requires page { length bytes.now ≡ PAGE_BYTES }
    requires inside { IsInside weighted segment }
    ensures { result ≡ segment_entries weighted bytes.now segment }
{
    Entries::of_segment(bytes, segment, weighted)
}
