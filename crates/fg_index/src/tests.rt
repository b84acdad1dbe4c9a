//! Indexes written by hand: whole ones, and each fault in both directions.

use crate::{Index, Span};
use fg_base::{Dir, Refusal};
use std::alloc::{AllocError, Global};
use std::test::Fail;

/// The index of two vertices: vertex 0 has 256 out-entries, and each has one out-entry or in-entry more.
const WHOLE: [u8; 21] = [
    255, 1, 1, 0, 0, 0, 0, 0, 0, 0, 0, 1, 0, 0, 1, 0, 0, 0, 0, 0, 0,
];

/// How many of the bytes are the index.
const LEN: usize = 20;

/// The fault with one byte changed, where so many bytes are given.
fn fault_with(alloc: Global, len: usize, place: usize, byte: u8) -> Option<Refusal> {
    let mut bytes = WHOLE;
    if place < bytes.len() {
        bytes[place] = byte;
    }
    let len = len.min(bytes.len());
    match Index::read(alloc, &bytes[..len], 2, false, 257, 1) {
        Ok(_) => None,
        Err(fault) => Some(fault),
    }
}

#[test]
fn faults_have_their_places(rt: HostRuntime) {
    let cases = [
        // cut short, or a byte too long
        (1, 0, 255, Dir::Out, 0),
        (5, 0, 255, Dir::Out, 2),
        (13, 0, 255, Dir::Out, 6),
        (15, 0, 255, Dir::In, 14),
        (19, 0, 255, Dir::In, 16),
        (21, 0, 255, Dir::In, 20),
        // a wrong count, a pair for vertex 1, a pair of degree 0, a wrong sum
        (LEN, 2, 2, Dir::Out, 2),
        (LEN, 0, 254, Dir::Out, 2),
        (LEN, 6, 1, Dir::Out, 6),
        (LEN, 11, 0, Dir::Out, 6),
        (LEN, 1, 2, Dir::Out, 0),
        (LEN, 16, 1, Dir::In, 16),
        (LEN, 14, 255, Dir::In, 16),
        (LEN, 14, 2, Dir::In, 14),
    ];
    assert_eq!(rt; fault_with(rt.alloc(), LEN, 0, 255), None);
    for (len, place, byte, dir, fault) in cases {
        assert_eq!(rt;
            fault_with(rt.alloc(), len, place, byte),
            Some(Refusal::BadIndex(dir, fault))
        );
    }
}

/// The index of 256 vertices, of which vertex 0 points at 1 to 254, vertex 1 at 0 to 254 and vertex 2 at all.
fn long_lists(alloc: Global) -> Result<Vec<u8>, AllocError> {
    let mut bytes = Vec::from_slice(alloc, &[254, 255, 255])?;
    for _ in 3..256 {
        bytes.push(0)?;
    }
    bytes.extend_from_slice(&[2, 0, 0, 0, 1, 0, 0, 0, 255, 0, 0, 0, 2, 0, 0, 0, 0, 1, 0, 0])?;
    bytes.push(2)?;
    for _ in 1..255 {
        bytes.push(3)?;
    }
    bytes.extend_from_slice(&[1, 0, 0, 0, 0])?;
    Ok(bytes)
}

#[test]
fn long_lists_are_placed(rt: HostRuntime) -> Result<(), Fail> {
    let bytes = long_lists(rt.alloc())?;
    assert_eq!(rt; bytes.len(), 536);
    match Index::read(rt.alloc(), &bytes, 256, true, 765, 765) {
        Ok(index) => {
            assert!(rt; index.n() == 256 && index.weighted());
            assert_eq!(rt; index.degree(Dir::Out, 2), 256);
            assert_eq!(rt;
                index.span(Dir::Out, 2),
                Span {
                    start: 4072,
                    len: 2048
                }
            );
            assert_eq!(rt;
                index.span(Dir::Out, 255),
                Span {
                    start: 6120,
                    len: 0
                }
            );
            assert_eq!(rt;
                index.span(Dir::In, 255),
                Span {
                    start: 6112,
                    len: 8
                }
            );
        }
        Err(_) => assert!(rt; false),
    }
    Ok(())
}
