//! The entries of a segment.

ghost use Rattle.std.specs.Prelude.{◌≡◌};

use crate::segment::Segment;
use fg_base::Entry;
use fg_image::{entry_at, entry_bytes};
use std::marker::Model;

/// The entries of a segment in list order, read out of the page that it borrows. Contracts see the list of those that are left.
#[derive(Drop)]
pub struct Entries<'a> {
    bytes: &'a [u8],
    weighted: bool,
    at: usize,
    count: u32,
}

impl<'a> Model for Entries<'a> {
    ghost use Rattle.std.specs.Prelude.{◌+◌, ◌*◌, ◌≤◌, List, length};
    ghost use Rattle.fg_base.specs.declared.plain.Entry.{Entry};
    ghost use Rattle.fg_image.specs.Lists.{entries_at};
    ghost use Rattle.fg_index.specs.ImageIndex.{entry_bytes};

    ghost Value = { List Entry };

    ghost view = { λ inside. entries_at inside.weighted inside.bytes.now inside.at inside.count };

    ghost invariant = { λ inside. inside.at + inside.count * entry_bytes inside.weighted ≤ length inside.bytes.now };
}

impl<'a> Entries<'a> {
    ghost use Rattle.std.specs.Prelude.{◌≤◌, length};
    ghost use Rattle.fg_base.specs.declared.limits.TheConstants.{PAGE_BYTES};
    ghost use Rattle.fg_edges.specs.Segment.{IsInside, segment_entries};

    /// The entries of this segment of the page.
    pub(crate) fn of_segment(bytes: &'a [u8], segment: Segment, weighted: bool) -> Entries<'a>
        requires page { length bytes.now ≡ PAGE_BYTES }
        requires inside { IsInside weighted segment }
        ensures { result ≡ segment_entries weighted bytes.now segment }
    {
        let count = (segment.to - segment.from) / entry_bytes(weighted) as u32;
        Entries {
            bytes,
            weighted,
            at: segment.from as usize,
            count,
        }
    }
}

impl<'a> Iterator for Entries<'a> {
    ghost use Rattle.std.specs.Iterator.{YieldsFirst, item_count};

    type Item = Entry;

    ghost next_gives = { YieldsFirst (λ rest. rest) };

    ghost remaining = { item_count (λ rest. rest) };

    fn next(&mut self) -> Option<Entry> {
        if self.count == 0 {
            return None;
        }
        let entry = entry_at(self.weighted, self.bytes, self.at);
        self.at += entry_bytes(self.weighted);
        self.count -= 1;
        Some(entry)
    }
}
