//! Entries of an image whose target is no vertex.

ghost use Rattle.std.specs.Prelude.{◌≡◌, ◌*◌, ◌<◌, ◌≤◌, find, length};
ghost use Rattle.fg_base.specs.declared.limits.TheConstants.{PAGE_BYTES};
ghost use Rattle.fg_image.specs.Checking.{bad_edge_in};
ghost use Rattle.fg_image.specs.Image.{IndexFits};
ghost use Rattle.fg_image.specs.Lists.{begin_of, graph_by, list_of};
ghost use Rattle.fg_model.specs.Iteration.{is_bad};
ghost use Rattle.fg_model.specs.VertexRun.{edges_from};

use crate::cut::{entry_at, entry_bytes, first_page_of};
use fg_base::limits::PAGE_BYTES;
use fg_base::{BadEdge, Dir};
use fg_index::Index;
use fg_stripe::Layout;

/// The first entry of a list of `v`, whose bytes begin at `begin`, that leads to no vertex.
fn bad_in_list(
    layout: &Layout,
    index: &Index,
    image: &[u8],
    dir: Dir,
    v: u32,
    begin: usize,
) -> Option<BadEdge>
    requires fits { IndexFits layout.now index.now }
    requires whole { layout.now.pages * PAGE_BYTES ≤ length image.now }
    requires vertex { v < length index.now.outs }
    requires begin { begin ≡ begin_of layout.now index.now dir v }
    ensures { result ≡
        find (is_bad (length index.now.outs)) (edges_from v dir 0 (list_of layout.now index.now image.now dir v)) }
{
    let size = entry_bytes(index.weighted());
    let n = index.n();
    for place in 0..index.degree(dir, v) {
        let entry = entry_at(index.weighted(), image, begin + place as usize * size);
        if n <= entry.target {
            let found = entry.target;
            return Some(BadEdge {
                v,
                dir,
                place,
                found,
            });
        }
    }
    None
}

/// The first entry of the image that leads to no vertex. Each list is gone through once.
pub(crate) fn first_bad_edge(layout: &Layout, index: &Index, image: &[u8]) -> Option<BadEdge>
    requires fits { IndexFits layout.now index.now }
    requires whole { layout.now.pages * PAGE_BYTES ≤ length image.now }
    ensures { result ≡ bad_edge_in (graph_by layout.now index.now image.now) }
{
    let size = entry_bytes(index.weighted());
    let mut out_begin = first_page_of(layout, Dir::Out) as usize * PAGE_BYTES;
    let mut in_begin = first_page_of(layout, Dir::In) as usize * PAGE_BYTES;
    for v in 0..index.n() {
        let edge = bad_in_list(layout, index, image, Dir::Out, v, out_begin);
        if edge.is_some() {
            return edge;
        }
        let edge = bad_in_list(layout, index, image, Dir::In, v, in_begin);
        if edge.is_some() {
            return edge;
        }
        out_begin += index.degree(Dir::Out, v) as usize * size;
        in_begin += index.degree(Dir::In, v) as usize * size;
    }
    None
}
