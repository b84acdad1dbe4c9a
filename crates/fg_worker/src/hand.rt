//! What a worker keeps.

ghost use Rattle.std.specs.Prelude.{◌≡◌, ◌+◌, ◌<◌, ◌^◌, Some};
ghost use Rattle.fg_batch.specs.Outbox.{IsUnsent};
ghost use Rattle.fg_cache.specs.Pass.{IsPassOf};
ghost use Rattle.fg_cache.specs.Site.{Site};
ghost use Rattle.fg_worker.specs.Hand.{IsHand, IsPassHeld};

use fg_base::Tally;
use fg_batch::Outbox;
use fg_cache::Pass;
use std::mem;

/// What a worker keeps through all its blocks: its pass at the cache, an outbox whose room stays, and a tally. While it holds a pinned
/// page the pass is in the pin.
pub struct Hand<T: Tally> {
    pub(crate) pass: Option<Pass>,
    pub(crate) outbox: Outbox,
    pub(crate) tally: T,
}

impl<T: Tally> Hand<T> {
    /// A worker with this pass, which has sent nothing.
    pub fn new(pass: Pass, outbox: Outbox, tally: T) -> Hand<T>
        requires unsent { IsUnsent outbox }
        ensures is_hand { (site : Site) → IsPassOf site pass → IsHand site outbox.map result }
        ensures pass { result.pass ≡ Some pass }
        ensures tally { result.tally ≡ tally }
    {
        Hand {
            pass: Some(pass),
            outbox,
            tally,
        }
    }

    /// Moves what it counted into this tally. Nothing is counted in its own then.
    pub fn settle(&mut self, tally: &mut T)
        requires room_of_runs { T.runs tally.old + T.runs self.old.tally < 2 ^ 64 }
        requires room_of_entries { T.entries tally.old + T.entries self.old.tally < 2 ^ 64 }
        ensures runs { T.runs tally.new ≡ T.runs tally.old + T.runs self.old.tally }
        ensures entries { T.entries tally.new ≡ T.entries tally.old + T.entries self.old.tally }
        ensures no_runs { T.runs self.new.tally ≡ 0 }
        ensures no_entries { T.entries self.new.tally ≡ 0 }
        ensures pass { self.new.pass ≡ self.old.pass }
        ensures outbox { self.new.outbox ≡ self.old.outbox }
    {
        let none = tally.split();
        tally.join(mem::replace(&mut self.tally, none));
    }

    /// The pass and the tally; the outbox is let go.
    pub fn into_parts(self) -> (Pass, T)
        requires pass { (site : Site) × IsPassHeld site self.pass }
        ensures pass { self.pass ≡ Some result.0 }
        ensures tally { result.1 ≡ self.tally }
    {
        let Hand {
            pass,
            outbox: _,
            tally,
        } = self;
        match pass {
            Some(pass) => (pass, tally),
            None => unreachable!(),
        }
    }
}
