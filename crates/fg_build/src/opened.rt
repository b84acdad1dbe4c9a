//! What opening found.

use fg_image::Header;
use fg_index::Index;
use fg_stripe::Layout;

/// An image on its drives: how it stands on them, its header, and its index.
#[derive(Drop)]
pub struct Opened {
    pub layout: Layout,
    pub header: Header,
    pub index: Index,
}
