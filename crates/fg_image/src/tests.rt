//! The header, the sections and the graphs of a small image written by hand: five vertices, five edges.

use crate::parts::read_parts;
use crate::{Header, check_image, graph_of, image_pages, make_image};
use fg_base::limits::PAGE_BYTES;
use fg_base::{BadEdge, Dir, Entry, Items, Refusal};
use fg_model::{Edges, Graph, Pair};
use fg_stripe::Layout;
use std::alloc::{AllocError, Global};
use std::test::Fail;

/// The first bytes of the header page; the others are zeros.
const FRONT: [u8; 76] = [
    70, 71, 73, 77, 65, 71, 69, 0, 1, 0, 0, 0, 0, 0, 0, 0, 5, 0, 0, 0, 4, 0, 0, 0, 5, 0, 0, 0, 0,
    0, 0, 0, 5, 0, 0, 0, 0, 0, 0, 0, 20, 0, 0, 0, 0, 0, 0, 0, 20, 0, 0, 0, 0, 0, 0, 0, 18, 0, 0, 0,
    0, 0, 0, 0, 1, 0, 0, 0, 2, 0, 0, 0, 3, 0, 0, 0,
];

/// The numbers of that page.
const HEADER: Header = Header {
    version: 1,
    flags: 0,
    n: 5,
    pages: 4,
    out_entries: 5,
    in_entries: 5,
    out_bytes: 20,
    in_bytes: 20,
    index_bytes: 18,
    out_first: 1,
    in_first: 2,
    index_first: 3,
};

/// Its out-lists and its in-lists, without weights.
const OUTS: [u8; 40] = [
    1, 0, 0, 0, 2, 0, 0, 0, 3, 0, 0, 0, 3, 0, 0, 0, 4, 0, 0, 0, 0, 0, 0, 0, 0, 0, 0, 0, 0, 0, 0, 0,
    0, 0, 0, 0, 0, 0, 0, 0,
];

const INS: [u8; 40] = [
    0, 0, 0, 0, 0, 0, 0, 0, 1, 0, 0, 0, 2, 0, 0, 0, 3, 0, 0, 0, 0, 0, 0, 0, 0, 0, 0, 0, 0, 0, 0, 0,
    0, 0, 0, 0, 0, 0, 0, 0,
];

/// Out-lists with weights. The last target is no vertex.
const WEIGHTED_OUTS: [u8; 40] = [
    1, 0, 0, 0, 7, 0, 0, 0, 2, 0, 0, 0, 0, 0, 0, 0, 3, 0, 0, 0, 255, 255, 255, 255, 3, 0, 0, 0, 0,
    1, 0, 0, 4, 0, 0, 128, 1, 0, 0, 0,
];

/// What the header page reads as, with these bytes of it changed.
fn read_with(changes: &[(usize, u8)]) -> Result<Header, Refusal> {
    let mut page = [0u8; PAGE_BYTES];
    page[..76].copy_from_slice(&FRONT);
    for (place, byte) in changes {
        if *place < page.len() {
            page[*place] = *byte;
        }
    }
    Header::read(&page)
}

#[test]
fn a_header_is_read(rt: HostRuntime) {
    assert_eq!(rt; read_with(&[]), Ok(HEADER));
    // weights, and the greatest counts
    assert_eq!(rt;
        read_with(&[
            (12, 1),
            (16, 0),
            (19, 1),
            (24, 0),
            (27, 4),
            (32, 0),
            (35, 4)
        ]),
        Ok(Header {
            flags: 1,
            n: 16_777_216,
            out_entries: 67_108_864,
            in_entries: 67_108_864,
            ..HEADER
        })
    );
}

#[test]
fn a_bad_header_is_refused(rt: HostRuntime) {
    // the mark comes before the version, and the version before the rest
    assert_eq!(rt; read_with(&[(0, 71), (8, 3)]), Err(Refusal::BadHeader));
    assert_eq!(rt; read_with(&[(8, 3), (12, 2)]), Err(Refusal::BadVersion(3)));
    // a mark at its end, the flags, a count at its low and its high byte, the first and the last byte behind
    let places = [
        (7, 1),
        (12, 2),
        (19, 1),
        (31, 1),
        (39, 128),
        (76, 1),
        (4095, 128),
    ];
    for change in places {
        assert_eq!(rt; read_with(&[change]), Err(Refusal::BadHeader));
    }
}

#[test]
fn sections_stand_one_behind_the_other(rt: HostRuntime) {
    let layout = Layout {
        drives: 1,
        unit: 1,
        pages: 4,
        out_first: 1,
        in_first: 2,
    };
    assert_eq!(rt; HEADER.sections(4), Ok(layout));
    assert_eq!(rt; HEADER.sections(5), Err(Refusal::BadSections));
    // entries of 8 bytes fill more, and a sum that doesn't fit into 64 bits is none
    let weighted = Header { flags: 1, ..HEADER };
    assert_eq!(rt; weighted.sections(4), Err(Refusal::BadSections));
    let endless = Header {
        index_bytes: u64::MAX,
        ..HEADER
    };
    assert_eq!(rt; endless.sections(4), Err(Refusal::BadSections));
}

/// The image with these flags and bytes of a section, and with these sections.
fn image_with(
    alloc: Global,
    flags: u8,
    bytes: u8,
    outs: &[u8; 40],
    ins: &[u8; 40],
) -> Result<Vec<u8>, AllocError> {
    let mut image = vec![in alloc; 0u8; 4 * PAGE_BYTES]?;
    image[..76].copy_from_slice(&FRONT);
    image[12] = flags;
    image[40] = bytes;
    image[48] = bytes;
    image[4096..4136].copy_from_slice(outs);
    image[8192..8232].copy_from_slice(ins);
    image[12288..12306].copy_from_slice(&[2, 1, 1, 1, 0, 0, 0, 0, 0, 0, 1, 1, 2, 1, 0, 0, 0, 0]);
    Ok(image)
}

/// The graph of the bytes, where they are an image of four pages.
fn graph_in(alloc: Global, image: &Vec<u8>) -> Option<Graph> {
    if image.len() != 4 * PAGE_BYTES {
        return None;
    }
    match read_parts(alloc, image, 4) {
        Ok(_) => graph_of(alloc, image).ok(),
        Err(_) => None,
    }
}

fn entry(target: u32, weight: u32) -> Entry {
    Entry { target, weight }
}

/// Whether the vertices have these lists.
fn are_rows(rows: &Items<Items<Entry>>, wanted: &[&[Entry]]) -> bool {
    let rows = rows.as_slice();
    rows.len() == wanted.len()
        && rows
            .iter()
            .zip(wanted)
            .all(|(row, list)| row.as_slice() == *list)
}

#[test]
fn an_unweighted_graph_is_cut_out(rt: HostRuntime) -> Result<(), Fail> {
    let image = image_with(rt.alloc(), 0, 20, &OUTS, &INS)?;
    let ins: [&[Entry]; 5] = [
        &[],
        &[entry(0, 1)],
        &[entry(0, 1)],
        &[entry(1, 1), entry(2, 1)],
        &[entry(3, 1)],
    ];
    match graph_in(rt.alloc(), &image) {
        Some(graph) => assert!(rt; !graph.weighted && are_rows(&graph.ins, &ins)),
        None => assert!(rt; false),
    }
    Ok(())
}

#[test]
fn a_weighted_graph_is_cut_out(rt: HostRuntime) -> Result<(), Fail> {
    let image = image_with(rt.alloc(), 1, 40, &WEIGHTED_OUTS, &INS)?;
    let outs: [&[Entry]; 5] = [
        &[entry(1, 7), entry(2, 0)],
        &[entry(3, u32::MAX)],
        &[entry(3, 256)],
        &[entry(2_147_483_652, 1)],
        &[],
    ];
    match graph_in(rt.alloc(), &image) {
        Some(graph) => assert!(rt; graph.weighted && are_rows(&graph.outs, &outs)),
        None => assert!(rt; false),
    }
    Ok(())
}

/// The edges of that graph.
fn edges(alloc: Global) -> Result<Edges, AllocError> {
    let pairs = Vec::from_slice(
        alloc,
        &[
            Pair {
                source: 0,
                target: 1,
                weight: 1,
            },
            Pair {
                source: 0,
                target: 2,
                weight: 1,
            },
            Pair {
                source: 1,
                target: 3,
                weight: 1,
            },
            Pair {
                source: 2,
                target: 3,
                weight: 1,
            },
            Pair {
                source: 3,
                target: 4,
                weight: 1,
            },
        ],
    )?;
    Ok(Edges::new(5, false, pairs))
}

#[test]
fn edges_make_their_image(rt: HostRuntime) -> Result<(), Fail> {
    let edges = edges(rt.alloc())?;
    let image = image_with(rt.alloc(), 0, 20, &OUTS, &INS)?;
    assert_eq!(rt; image_pages(rt.alloc(), &edges), Ok(4));
    assert!(rt; make_image(rt.alloc(), &edges).ok() == Some(image));
    Ok(())
}

/// What the check of the bytes answers, where they are an image of four pages.
fn checked(alloc: Global, image: &Vec<u8>) -> Option<Result<(), Refusal>> {
    if image.len() != 4 * PAGE_BYTES {
        return None;
    }
    match read_parts(alloc, image, 4) {
        Ok(_) => Some(check_image(alloc, image)),
        Err(_) => None,
    }
}

/// What the check of the image answers, with these bytes of it changed.
fn check_with(
    alloc: Global,
    changes: &[(usize, u8)],
) -> Result<Option<Result<(), Refusal>>, AllocError> {
    let mut image = image_with(alloc, 0, 20, &OUTS, &INS)?;
    for (place, byte) in changes {
        if *place < image.len() {
            image[*place] = *byte;
        }
    }
    Ok(checked(alloc, &image))
}

/// The refusal of an entry that leads to no vertex.
fn bad_edge(v: u32, dir: Dir, place: u32, found: u32) -> Refusal {
    Refusal::BadEdge(BadEdge {
        v,
        dir,
        place,
        found,
    })
}

#[test]
fn an_image_is_checked(rt: HostRuntime) -> Result<(), Fail> {
    // the in-list of vertex 3 in another order
    assert_eq!(rt;
        check_with(rt.alloc(), &[(8200, 2), (8204, 1)])?,
        Some(Ok(()))
    );
    Ok(())
}

#[test]
fn the_first_fault_is_found(rt: HostRuntime) -> Result<(), Fail> {
    // where fewer than three bytes are changed, the mark's first one is put anew
    let rows = [
        ([(8204, 5), (0, 70), (0, 70)], bad_edge(3, Dir::In, 1, 5)),
        // the out-list first, the lower vertex first, and either before padding
        (
            [(8200, 5), (4112, 6), (8191, 1)],
            bad_edge(3, Dir::Out, 0, 6),
        ),
        ([(8196, 5), (4112, 6), (0, 70)], bad_edge(2, Dir::In, 0, 5)),
        // the last byte of a section's padding, and the first
        ([(8191, 1), (0, 70), (0, 70)], Refusal::BadPadding(1)),
        ([(12306, 128), (0, 70), (0, 70)], Refusal::BadPadding(3)),
        // padding comes before a list that isn't mirrored
        ([(4108, 4), (16383, 1), (12287, 1)], Refusal::BadPadding(2)),
        ([(4108, 4), (0, 70), (0, 70)], Refusal::NotMirror(3)),
        // as many entries, and the same sources, but one of them twice
        ([(8204, 1), (0, 70), (0, 70)], Refusal::NotMirror(3)),
    ];
    for (changes, fault) in rows {
        assert_eq!(rt; check_with(rt.alloc(), &changes)?, Some(Err(fault)));
    }
    Ok(())
}

#[test]
fn weights_are_checked(rt: HostRuntime) -> Result<(), Fail> {
    let mut outs = WEIGHTED_OUTS;
    outs[35] = 0;
    let mut ins = [
        0, 0, 0, 0, 7, 0, 0, 0, 0, 0, 0, 0, 0, 0, 0, 0, 2, 0, 0, 0, 0, 1, 0, 0, 1, 0, 0, 0, 255,
        255, 255, 255, 3, 0, 0, 0, 1, 0, 0, 0,
    ];
    let image = image_with(rt.alloc(), 1, 40, &outs, &ins)?;
    assert_eq!(rt; checked(rt.alloc(), &image), Some(Ok(())));
    ins[4] = 6;
    let image = image_with(rt.alloc(), 1, 40, &outs, &ins)?;
    assert_eq!(rt;
        checked(rt.alloc(), &image),
        Some(Err(Refusal::NotMirror(1)))
    );
    Ok(())
}
