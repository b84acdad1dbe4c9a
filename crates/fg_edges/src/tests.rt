//! A list of 1025 entries, which begins at a page's start and ends with one entry on the next, and entries on a page.

use crate::{Segment, entries, segments};
use fg_base::{Dir, Entry};
use fg_index::Index;
use fg_stripe::Layout;
use std::alloc::{AllocError, Global};
use std::test::Fail;

/// The index of 1025 vertices, of which vertex 0 points at all.
fn index_bytes(alloc: Global) -> Result<Vec<u8>, AllocError> {
    let mut bytes = Vec::from_slice(alloc, &[255])?;
    for _ in 1..1025 {
        bytes.push(0)?;
    }
    bytes.extend_from_slice(&[1, 0, 0, 0, 0, 0, 0, 0, 1, 4, 0, 0])?;
    for _ in 0..1025 {
        bytes.push(1)?;
    }
    bytes.extend_from_slice(&[0, 0, 0, 0])?;
    Ok(bytes)
}

#[test]
fn a_list_is_cut_at_its_pages(rt: HostRuntime) -> Result<(), Fail> {
    let layout = Layout {
        drives: 1,
        unit: 1,
        pages: 6,
        out_first: 1,
        in_first: 3,
    };
    let first = Segment {
        page: 1,
        from: 0,
        to: 4096,
        place: 0,
    };
    let bytes = index_bytes(rt.alloc())?;
    match Index::read(rt.alloc(), &bytes, 1025, false, 1025, 1025) {
        Ok(index) => {
            let mut parts = segments(&index, &layout, Dir::Out, 0);
            assert_eq!(rt; parts.next(), Some(first));
            let last = Segment {
                page: 2,
                to: 4,
                place: 1024,
                ..first
            };
            assert_eq!(rt; parts.next(), Some(last));
            assert_eq!(rt; parts.next(), None);
            assert_eq!(rt; segments(&index, &layout, Dir::Out, 1).next(), None);
            let own = Segment {
                page: 4,
                to: 4,
                ..first
            };
            assert_eq!(rt; segments(&index, &layout, Dir::In, 1024).next(), Some(own));
        }
        Err(_) => assert!(rt; false),
    }
    Ok(())
}

#[test]
fn entries_of_a_segment_come_in_order(rt: HostRuntime) {
    let mut bytes = [0; 4096];
    bytes[8] = 7;
    bytes[12] = 1;
    bytes[16] = 9;
    let segment = Segment {
        page: 1,
        from: 8,
        to: 16,
        place: 2,
    };
    let mut weighted = entries(&bytes, segment, true);
    assert_eq!(rt;
        weighted.next(),
        Some(Entry {
            target: 7,
            weight: 1
        })
    );
    assert_eq!(rt; weighted.next(), None);
    let mut plain = entries(&bytes, segment, false);
    assert_eq!(rt;
        plain.next(),
        Some(Entry {
            target: 7,
            weight: 1
        })
    );
    assert_eq!(rt;
        plain.next(),
        Some(Entry {
            target: 1,
            weight: 1
        })
    );
    assert_eq!(rt; plain.next(), None);
}
