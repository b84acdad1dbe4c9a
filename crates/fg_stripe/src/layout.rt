//! An image over drives, and the place of a page.

/// How an image stands on its drives, and where its sections begin.
#[derive(Clone, Copy, PartialEq, Eq, Debug)]
pub struct Layout {
    /// The number of drives, 1 to 16.
    pub drives: u32,
    /// The pages of a striping unit, 1 to 256.
    pub unit: u32,
    /// The pages of the image, its header among them.
    pub pages: u32,
    /// The image page at which the out-lists begin.
    pub out_first: u32,
    /// The image page at which the in-lists begin.
    pub in_first: u32,
}

/// A page of a drive.
#[derive(Clone, Copy, PartialEq, Eq, Debug)]
pub struct Place {
    /// The drive, from 0 on.
    pub drive: u32,
    /// The page on that drive, whose page 0 is its label.
    pub local: u32,
}
