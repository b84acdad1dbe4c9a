//! A list page by page.

ghost use Rattle.std.specs.Prelude.{◌≡◌};

use crate::segment::Segment;
use fg_base::limits::PAGE_BYTES;
use fg_image::entry_bytes;
use std::marker::Model;

/// The segments of a list, by ascending page. Contracts see what is left of the list.
#[derive(Drop)]
pub struct Segments {
    weighted: bool,
    at: usize,
    place: u32,
    count: u32,
}

impl Model for Segments {
    ghost use Rattle.fg_edges.specs.Segments.{ListRest, IsOnPages};

    ghost Value = { ListRest };

    ghost view = { λ inside. record { weighted = inside.weighted; at = inside.at; place = inside.place; count = inside.count } };

    ghost invariant = { λ inside. IsOnPages (record { weighted = inside.weighted; at = inside.at; place = inside.place; count = inside.count }) };
}

impl Segments {
    ghost use Rattle.fg_edges.specs.Segments.{whole_list, IsOnPages};

    /// The segments of the list of `count` entries that begins at this byte of the image.
    pub fn of_list(weighted: bool, at: usize, count: u32) -> Segments
        requires { IsOnPages (whole_list weighted at count) }
        ensures { result ≡ whole_list weighted at count }
    {
        Segments {
            weighted,
            at,
            place: 0,
            count,
        }
    }
}

impl Iterator for Segments {
    ghost use Rattle.std.specs.Iterator.{at_most};
    ghost use Rattle.fg_edges.specs.Segments.{Gives};

    type Item = Segment;

    ghost next_gives = { Gives };

    ghost remaining = { λ rest. at_most rest.count };

    fn next(&mut self) -> Option<Segment> {
        if self.count == 0 {
            return None;
        }
        let size = entry_bytes(self.weighted);
        let from = self.at % PAGE_BYTES;
        let count = (self.count as usize).min((PAGE_BYTES - from) / size);
        let segment = Segment {
            page: (self.at / PAGE_BYTES) as u32,
            from: from as u32,
            to: (from + count * size) as u32,
            place: self.place,
        };
        self.at += count * size;
        self.place += count as u32;
        self.count -= count as u32;
        Some(segment)
    }
}
