//! The label of a drive, its page 0.

ghost use Rattle.std.specs.Prelude.{◌≡◌, Some, None, if◌then◌else◌, length};
ghost use Rattle.fg_base.specs.declared.limits.TheConstants.{PAGE_BYTES};
ghost use Rattle.fg_stripe.specs.Label.{label_bytes, label_of, fields_of, is_accepted};

use crate::bytes::{is_blank, number_at, put_number, put_wide_number, wide_number_at};
use fg_base::limits::{MAX_DRIVES, MAX_IMAGE_PAGES, MAX_UNIT, MIN_IMAGE_PAGES, PAGE_BYTES};

/// What each label begins with.
const MAGIC: [u8; 8] = *b"FGDRIVE\0";

/// What a drive of an image says of itself and of the image.
#[derive(Clone, Copy, PartialEq, Eq, Debug)]
pub struct Label {
    /// Which drive of the image it is, below `drives`.
    pub drive: u32,
    /// The number of drives, 1 to 16.
    pub drives: u32,
    /// The pages of a striping unit, 1 to 256.
    pub unit: u32,
    /// The pages of the image, 2 to 524,288.
    pub pages: u32,
    /// The image's number, any. Drives of one image have the same.
    pub number: u64,
}

impl Label {
    /// Writes the label over the bytes of one page. It is read back where its fields are within their ranges, and
    /// leaves no label otherwise.
    pub fn write(&self, into: &mut [u8])
        requires { length into.old ≡ PAGE_BYTES }
        ensures bytes { into.new ≡ label_bytes self.now }
        ensures reads_back { label_of into.new ≡ (if is_accepted self.now then Some self.now else None) }
    {
        let Label {
            drive,
            drives,
            unit,
            pages,
            number,
        } = *self;
        into.fill(0);
        into[..8].copy_from_slice(&MAGIC);
        put_number(into, 8, drive);
        put_number(into, 12, drives);
        put_number(into, 16, unit);
        put_number(into, 20, pages);
        put_wide_number(into, 24, number);
    }

    /// The label that the bytes of one page are, or `None` where it isn't one: where it doesn't begin with the mark of
    /// labels, a field is out of its range, or a byte behind the fields isn't zero.
    pub fn read(page: &[u8]) -> Option<Label>
        requires { length page.now ≡ PAGE_BYTES }
        ensures { result ≡ label_of page.now }
    {
        if !page.starts_with(&MAGIC) {
            return None;
        }
        let label = fields_of(page);
        if label.is_accepted() && is_blank(&page[32..]) {
            Some(label)
        } else {
            None
        }
    }

    /// Whether the fields are within their ranges.
    fn is_accepted(&self) -> bool
        ensures { result ≡ is_accepted self.now }
    {
        self.drive < self.drives
            && self.drives <= MAX_DRIVES
            && 1 <= self.unit
            && self.unit <= MAX_UNIT
            && MIN_IMAGE_PAGES <= self.pages
            && self.pages <= MAX_IMAGE_PAGES
    }
}

/// The fields of a label's page, whatever they are.
fn fields_of(page: &[u8]) -> Label
    requires { length page.now ≡ PAGE_BYTES }
    ensures { result ≡ fields_of page.now }
{
    Label {
        drive: number_at(page, 8),
        drives: number_at(page, 12),
        unit: number_at(page, 16),
        pages: number_at(page, 20),
        number: wide_number_at(page, 24),
    }
}
