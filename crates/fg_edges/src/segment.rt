//! The part of a list on one page.

/// A stretch of a page: the bytes `from` to before `to` of image page `page`. Its first entry is number `place` of the list.
#[derive(Clone, Copy, PartialEq, Eq, Debug)]
pub struct Segment {
    pub page: u32,
    pub from: u32,
    pub to: u32,
    pub place: u32,
}
