//! The image of a small graph by its bytes, on which this crate and those above are tried.

/// The numbers of 4 bytes of an image that aren't 0, each with its place.
pub type Numbers = &'static [(usize, u32)];

/// The edges 0 1, 0 2, 1 3, 2 3 and 3 4: five vertices with the out-lists 1 2, 3, 3, 4 and none on page 1, the in-lists none, 0, 0,
/// 1 2 and 3 on page 2, and the index on page 3.
pub const DIAMOND: Numbers = &[
    // `FGIM`, `AGE`, version 1, 5 vertices, 4 pages
    (0, 0x4d49_4746),
    (4, 0x0045_4741),
    (8, 1),
    (16, 5),
    (20, 4),
    // 5 entries both ways in 20 bytes each, an index of 18 bytes, and the first pages
    (24, 5),
    (32, 5),
    (40, 20),
    (48, 20),
    (56, 18),
    (64, 1),
    (68, 2),
    (72, 3),
    // the out-entries 1, 2, 3, 3, 4 and the in-entries 0, 0, 1, 2, 3
    (4096, 1),
    (4100, 2),
    (4104, 3),
    (4108, 3),
    (4112, 4),
    (8200, 1),
    (8204, 2),
    (8208, 3),
    // the degrees 2, 1, 1, 1, 0 and 0, 1, 1, 2, 1, and no degree that stands apart
    (12_288, 0x0101_0102),
    (12_296, 0x0101_0000),
    (12_300, 0x0000_0102),
];
