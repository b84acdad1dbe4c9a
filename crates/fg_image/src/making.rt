//! The image of edges.

ghost use Rattle.std.specs.Prelude.{◌≡◌, ◌≤◌, ◌/◌, ◌^◌, IfOk, OnOk, length, map, sum};
ghost use Rattle.std.specs.List.{range_with_len};
ghost use Rattle.fg_base.specs.declared.limits.TheConstants.{MAX_ENTRIES, MAX_IMAGE_PAGES, MAX_VERTICES, PAGE_BYTES};
ghost use Rattle.fg_base.specs.declared.plain.Dir.TheVariants.{In, Out};
ghost use Rattle.fg_image.specs.Made.{graph_of_edges, header_for, image_bytes};
ghost use Rattle.fg_image.specs.Making.{IsImageOf, count_of, index_bytes};
ghost use Rattle.fg_model.specs.Edges.{AreEdges};
ghost use Rattle.fg_model.specs.Graph.{IsWithinLimits};
ghost use Rattle.fg_model.specs.Mirror.{IsMirror};

use crate::header::Header;
use crate::place::with_ins;
use crate::spell::{header_page, long_degrees, padded, with_direction, with_outs};
use crate::tally::{degrees_by, starts_of};
use fg_base::limits::PAGE_BYTES;
use fg_base::{Dir, Memory};
use fg_model::Edges;
use std::alloc::Global;

/// How many bytes the index of these degrees has.
fn index_len(outs: &[u32], ins: &[u32]) -> u64
    requires few_vertices { length outs.now ≤ MAX_VERTICES }
    requires same_vertices { length ins.now ≡ length outs.now }
    requires few_outs { sum outs.now ≤ MAX_ENTRIES }
    requires few_ins { sum ins.now ≤ MAX_ENTRIES }
    ensures len { result ≡ length (index_bytes outs.now ins.now) }
    ensures few { result ≤ 2 ^ 27 }
{
    let vertices = outs.len() as u64;
    let longs = (long_degrees(outs) + long_degrees(ins)) as u64;
    2 * vertices + 8 + 8 * longs
}

/// What the image of edges is laid out by: how many entries the list of each vertex has, in both directions, and the header.
#[derive(Drop)]
struct Measures {
    outs: Vec<u32>,
    ins: Vec<u32>,
    header: Header,
}

/// Measures the image of the edges. The pairs are gone through once for each direction.
fn measure(alloc: Global, edges: &Edges) -> Result<Measures, Memory>
    ensures outs { IfOk result (λ measures. measures.outs.items ≡ map (count_of Out edges.now.pairs) (range_with_len 0 edges.now.n)) }
    ensures ins { IfOk result (λ measures. measures.ins.items ≡ map (count_of In edges.now.pairs) (range_with_len 0 edges.now.n)) }
    ensures header { IfOk result (λ measures. measures.header ≡ header_for (graph_of_edges edges.now)) }
    ensures within { AreEdges edges.now }
{
    let pairs = edges.pairs();
    let n = edges.n();
    let outs = degrees_by(alloc, Dir::Out, n, pairs)?;
    let ins = degrees_by(alloc, Dir::In, n, pairs)?;
    let index_bytes = index_len(&outs, &ins);
    let header = Header::with(edges.is_weighted(), n, pairs.len() as u64, index_bytes);
    Ok(Measures { outs, ins, header })
}

/// How many pages the image of the edges has. The image itself is not made: beside a number per vertex and direction this
/// takes no memory.
pub fn image_pages(alloc: Global, edges: &Edges) -> Result<u32, Memory>
    ensures pages { IfOk result (λ pages. pages ≡ length (image_bytes edges.now) / PAGE_BYTES) }
    ensures few { IfOk result (λ pages. pages ≤ MAX_IMAGE_PAGES) }
{
    let measures = measure(alloc, edges)?;
    Ok(measures.header.pages)
}

/// The bytes of the image of the edges: its header, the out-lists by target, the in-lists by source, and the index, each
/// with zeros behind to whole pages. The image is given all its room at once; besides it, a number per vertex and direction
/// is kept. The pairs are gone through once for the lists of each direction, and not sorted again.
pub fn make_image(alloc: Global, edges: &Edges) -> Result<Vec<u8>, Memory>
    ensures bytes { IfOk result (λ image. image.items ≡ image_bytes edges.now) }
    ensures image { IfOk result (λ image. IsImageOf (graph_of_edges edges.now) image.items) }
    ensures limits { OnOk result (IsWithinLimits (graph_of_edges edges.now)) }
    ensures mirror { OnOk result (IsMirror (graph_of_edges edges.now)) }
{
    let Measures { outs, ins, header } = measure(alloc, edges)?;
    let weighted = edges.is_weighted();
    let pairs = edges.pairs();
    let image = header_page(alloc, header.pages as usize * PAGE_BYTES, &header)?;
    let image = padded(with_outs(image, weighted, pairs)?)?;
    let places = starts_of(alloc, &ins)?;
    let image = padded(with_ins(image, weighted, pairs, places)?)?;
    let image = with_direction(image, &outs)?;
    let image = with_direction(image, &ins)?;
    padded(image)
}
