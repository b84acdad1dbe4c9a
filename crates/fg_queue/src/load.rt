//! A load that waits.

/// A page that is to be read into a frame, and its local page on the drive.
#[derive(Clone, Copy, PartialEq, Eq, Debug, Default)]
pub struct Load {
    pub page: u32,
    pub local: u32,
    pub frame: u32,
}
