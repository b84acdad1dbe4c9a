//! One page that many threads may be shown, and one may swap while none is.
ghost use Rattle.std.specs.Prelude.{◌≡◌};
ghost use Rattle.fg_cell.specs.Pages.{FitsImage};

use crate::image::ImageName;
use crate::page::PageBuf;
use counted_slot::{Claim, Counted, FREE, Fits, MOST_READERS, ONE_READER, PRESENT, TAKEN};
use std::marker::Model;
use std::sync::Wait;
use std::thread;

impl Fits for PageBuf {
    ghost use Rattle.fg_cell.specs.Pages.{FitsImage};

    type Tag = ImageName;

    ghost fits = { λ name buf. FitsImage name.pages buf };
}

/// A page in place. Contracts see the frame as the pages of its image, where they are told.
///
/// The word of the slot says that a page is present and counts those that are shown it. A swap takes the place only
/// where that count is 0.
#[derive(Drop)]
pub struct Frame {
    slot: Counted<Option<PageBuf>>,
}

impl Model for Frame {
    ghost use Rattle.std.specs.Prelude.{List, Option, ℕ};

    ghost Value = { Option (List (List ℕ)) };

    ghost view = { λ f. f.slot.pages };
}

/// The page of a frame, as it is shown. It is no `Drop`, so it has to be given back by `leave`.
pub struct Shown<'a> {
    claim: Claim<'a, Option<PageBuf>>,
}

impl<'a> Model for Shown<'a> {
    ghost use Rattle.std.specs.Prelude.{◌≡◌, true};
    ghost use Rattle.fg_cell.specs.Pages.{View, page_in, is_there};

    ghost Value = { View };

    ghost view = { λ s. record { image = s.claim.tag.pages; page = page_in s.claim.value } };

    ghost invariant = { λ s. (s.claim.right ≡ 1) × (is_there s.claim.value ≡ true) };
}

impl Frame {
    pub fn new(buf: PageBuf, name: ImageName) -> Frame
        requires { FitsImage name.pages buf }
        ensures { result ≡ name.pages }
    {
        let slot = Counted::new(None, &name);
        // Nobody else has the slot yet, so the place is free.
        let (found, claim) = slot.turn(FREE, TAKEN);
        if found == FREE {
            claim.put(Some(buf), PRESENT);
        } else {
            claim.done();
        }
        Frame { slot }
    }

    /// Shows the page, as soon as no swap is under way.
    pub fn pin<R: Wait>(&self, rt: &R) -> Shown<'_>
        ensures image { result.image ≡ self.now }
        ensures fits { FitsImage self.now result.page }
    {
        for _ in rt.forever() {
            let seen = self.slot.load();
            if seen % ONE_READER == PRESENT && seen < ONE_READER * MOST_READERS {
                let (found, claim) = self.slot.turn(seen, seen + ONE_READER);
                if found != seen {
                    claim.done();
                } else if claim.get().is_some() {
                    return Shown { claim };
                } else {
                    claim.leave();
                }
            }
            thread::yield_now();
        }
        unreachable!()
    }

    /// Ends what `pin` began. What is handed in was shown by this frame.
    pub fn leave(&self, shown: Shown<'_>)
        requires { shown.image ≡ self.now }
    {
        let Shown { claim } = shown;
        claim.leave();
    }

    /// Puts another page in place, as soon as the frame shows its own to nobody, and gives back the one that was there.
    pub fn swap<R: Wait>(&self, rt: &R, buf: PageBuf) -> PageBuf
        requires { FitsImage self.now buf }
        ensures { FitsImage self.now result }
    {
        for _ in rt.forever() {
            let (found, claim) = self.slot.turn(PRESENT, TAKEN);
            if found == PRESENT {
                if let Some(old) = claim.put(Some(buf), PRESENT) {
                    return old;
                }
                break;
            }
            claim.done();
            thread::yield_now();
        }
        // Where a page is present, one is there. No clause of the slot says so: with none there the call never returns.
        for _ in rt.forever() {
            thread::yield_now();
        }
        unreachable!()
    }
}

impl<'a> Shown<'a> {
    /// The page, for as long as it is shown.
    pub fn page(&self) -> &PageBuf
        ensures page { result.now ≡ self.now.page }
        ensures fits { FitsImage self.now.image result.now }
    {
        match self.claim.get() {
            Some(buf) => buf,
            None => unreachable!(),
        }
    }
}
