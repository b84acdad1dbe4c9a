//! The graph of an image in memory.

ghost use Rattle.std.specs.Prelude.{◌≡◌, ◌+◌, ◌*◌, ◌/◌, ◌≤◌, IfOk, Ok, length};
ghost use Rattle.fg_base.specs.declared.limits.TheConstants.{PAGE_BYTES};
ghost use Rattle.fg_image.specs.Image.{AreParts, IndexFits, IsImage, Parts, graph_in};
ghost use Rattle.fg_image.specs.Lists.{entries_at, entry_at, first_page_of, graph_by, rows_of};
ghost use Rattle.fg_index.specs.ImageIndex.{entry_bytes};
ghost use Rattle.fg_model.specs.Graph.{IsWithinLimits};

use crate::parts::{ImageParts, read_parts};
use fg_base::limits::PAGE_BYTES;
use fg_base::{Dir, Entry, Items, Memory, Refusal};
use fg_index::Index;
use fg_model::Graph;
use fg_stripe::Layout;
use fg_stripe::bytes::number_at;
use std::alloc::Global;

/// The entry whose bytes begin at this place: its target and, where entries have weights, its weight behind it.
pub fn entry_at(weighted: bool, bytes: &[u8], place: usize) -> Entry
    requires { place + entry_bytes weighted ≤ length bytes.now }
    ensures { result ≡ entry_at weighted bytes.now place }
{
    let target = number_at(bytes, place);
    let weight = if weighted {
        number_at(bytes, place + 4)
    } else {
        1
    };
    Entry { target, weight }
}

/// The bytes of an entry.
pub fn entry_bytes(weighted: bool) -> usize
    ensures size { result ≡ entry_bytes weighted }
    ensures few { result ≤ 8 }
{
    if weighted { 8 } else { 4 }
}

/// The list of so many entries whose bytes begin at this place.
fn cut_list(
    alloc: Global,
    weighted: bool,
    bytes: &[u8],
    place: usize,
    count: usize,
) -> Result<Items<Entry>, Memory>
    requires { place + count * entry_bytes weighted ≤ length bytes.now }
    ensures { IfOk result (λ entries. entries ≡ entries_at weighted bytes.now place count) }
{
    let size = entry_bytes(weighted);
    let mut entries = Vec::with_capacity(alloc, count)?;
    for i in 0..count {
        entries.push(entry_at(weighted, bytes, place + i * size))?;
    }
    Ok(Items::from_vec(entries))
}

/// The page at which the lists of a direction begin.
pub fn first_page_of(layout: &Layout, dir: Dir) -> u32
    ensures { result ≡ first_page_of layout.now dir }
{
    match dir {
        Dir::Out => layout.out_first,
        Dir::In => layout.in_first,
    }
}

/// The lists of a direction, one behind the other from its section's first byte on.
fn cut_rows(
    alloc: Global,
    layout: &Layout,
    index: &Index,
    dir: Dir,
    image: &[u8],
) -> Result<Items<Items<Entry>>, Memory>
    requires fits { IndexFits layout.now index.now }
    requires whole { layout.now.pages * PAGE_BYTES ≤ length image.now }
    ensures { IfOk result (λ rows. rows ≡ rows_of layout.now index.now image.now dir) }
{
    let size = entry_bytes(index.weighted());
    let mut rows = Vec::with_capacity(alloc, index.n() as usize)?;
    let mut place = first_page_of(layout, dir) as usize * PAGE_BYTES;
    for v in 0..index.n() {
        let degree = index.degree(dir, v) as usize;
        let row = cut_list(alloc, index.weighted(), image, place, degree)?;
        rows.push(row)?;
        place += degree * size;
    }
    Ok(Items::from_vec(rows))
}

/// The graph of an image whose sections and index are these: for each vertex its two lists, cut out by the degrees. Its
/// targets may be no vertices. Each list gets its room at once.
pub fn cut_graph(
    alloc: Global,
    layout: &Layout,
    index: &Index,
    image: &[u8],
) -> Result<Graph, Memory>
    requires fits { IndexFits layout.now index.now }
    requires whole { layout.now.pages * PAGE_BYTES ≤ length image.now }
    ensures graph { IfOk result (λ graph. graph ≡ graph_by layout.now index.now image.now) }
    ensures limits { IfOk result IsWithinLimits }
{
    let outs = cut_rows(alloc, layout, index, Dir::Out, image)?;
    let ins = cut_rows(alloc, layout, index, Dir::In, image)?;
    Ok(Graph {
        n: index.n(),
        weighted: index.weighted(),
        outs,
        ins,
    })
}

/// The graph of an image: for each vertex its two lists, cut out by the degrees. Its targets may be no vertices.
pub fn graph_of(alloc: Global, image: &Vec<u8>) -> Result<Graph, Memory>
    requires is_image { (parts : Parts) × IsImage image.now.items parts }
    ensures graph { IfOk result (λ graph.
        (parts : Parts) → AreParts image.now.items parts → graph ≡ graph_in parts image.now.items) }
    ensures limits { IfOk result IsWithinLimits }
{
    let pages = (image.len() / PAGE_BYTES) as u32;
    match read_parts(alloc, image, pages) {
        Ok(ImageParts { layout, index, .. }) => cut_graph(alloc, &layout, &index, image),
        Err(Refusal::Memory) => Err(Memory),
        Err(_) => unreachable!(),
    }
}
