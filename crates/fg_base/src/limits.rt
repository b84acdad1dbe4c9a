//! The limits within which the engine works. What stands beyond one is refused, or is ruled out by a condition.

/// Bytes of a page.
pub const PAGE_BYTES: usize = 4096;
/// The most vertices of a graph, 2^24.
pub const MAX_VERTICES: u32 = 16_777_216;
/// The most entries of a graph per direction, and the most pairs of an edge text with repeats, 2^26.
pub const MAX_ENTRIES: u32 = 67_108_864;
/// The most bytes of an edge text, 2^32.
pub const MAX_TEXT_BYTES: u64 = 4_294_967_296;
/// The fewest pages of an image: its header and its index.
pub const MIN_IMAGE_PAGES: u32 = 2;
/// The most pages of an image, 2^19.
pub const MAX_IMAGE_PAGES: u32 = 524_288;
/// The most drives over which an image is striped.
pub const MAX_DRIVES: u32 = 16;
/// The most pages of a striping unit.
pub const MAX_UNIT: u32 = 256;
/// The most ways of a page set.
pub const MAX_WAYS: u32 = 16;
/// The most page sets of a cache, 2^18.
pub const MAX_SETS: u32 = 262_144;
/// The most frames of a cache: its sets times its ways, 2^18.
pub const MAX_FRAMES: u32 = 262_144;
/// The most workers of a run, and so the most parts of its vertices.
pub const MAX_WORKERS: u32 = 64;
/// The greatest shift from a vertex to its block.
pub const MAX_SHIFT: u32 = 16;
/// The most loads that a drive's queue holds.
pub const MAX_DEPTH: u32 = 1024;
/// The most pages of one read of a drive.
pub const MAX_RUN_PAGES: u32 = 32;
/// The page number of a frame that holds no page.
pub const NO_PAGE: u32 = u32::MAX;
