//! How a cache is asked for a page, and how a pin is given back.

ghost use Rattle.std.specs.Prelude.{◌≡◌, ◌<◌, ◌%◌, ◌+ℤ◌, pos};
ghost use Rattle.std.specs.List.{Contains};
ghost use Rattle.fg_cache.specs.Cache.{WantedTells};
ghost use Rattle.fg_cache.specs.Pass.{IsPassOf, IsPinOf, share_of, token_of, with_entry};
ghost use Rattle.fg_cache.specs.Site.{asked_pages, frames_of};

use crate::cache::Cache;
use crate::counts::{Counts, one_hit, one_queued, one_stale};
use crate::pass::Pass;
use crate::pin::Pin;
use crate::share::Share;
use crate::wanted::Wanted;
use fg_outside::Drive;
use fg_queue::Load;
use fg_set::Want;
use fg_stripe::striping::place;
use std::snapshot::Snapshot;
use std::sync::Wait;

impl<D: Drive> Cache<D> {
    /// A worker wants a page. It gets the page pinned, or its pass back with what stands in the way: then some call of `serve` or
    /// `unpin` may help, and it asks again. One lock of the page's set is taken, and one of its drive's queue where a load begins.
    pub fn want<R: Wait>(&self, rt: &R, pass: Pass, page: u32) -> Wanted<'_>
        requires pass { IsPassOf self.now.site pass }
        requires page { Contains (asked_pages self.now.site) page }
        ensures tells { WantedTells self.now.site page pass result }
    {
        let set = page % self.shape().sets;
        let Pass {
            worker,
            mut share,
            counts,
        } = pass;
        let lock = self.set(set);
        let mut held = lock.take(rt);
        let answer = held.get().want(self.ledgers(), worker, page, &mut share);
        lock.give(rt, held);
        match answer {
            Want::Hit(way) => self.look(rt, worker, share, counts, page, self.frame_at(set, way)),
            Want::Start(way) => self.start(
                rt,
                worker,
                share,
                counts,
                page,
                self.frame_at(set, way),
            ),
            Want::Loading(slip) => Wanted::Loading(Pass::of(worker, share, counts), slip),
            Want::Again(slip) => Wanted::Again(Pass::of(worker, share, counts), slip),
        }
    }

    // The directory lists the page for this frame, and has it pinned: whether it is the page that the frame shows.
    fn look<R: Wait>(
        &self,
        rt: &R,
        worker: u32,
        share: Share,
        counts: Snapshot<Counts>,
        page: u32,
        frame: u32,
    ) -> Wanted<'_>
        requires pass { IsPassOf self.now.site (token_of share.books worker counts.value) }
        requires share { share ≡ share_of (token_of share.books worker counts.value) }
        requires page { Contains (asked_pages self.now.site) page }
        requires frame { frame < frames_of self.now.site }
        ensures tells { WantedTells self.now.site page (token_of share.books worker counts.value) result }
    {
        let place = self.frame(frame);
        let shown = place.pin(rt);
        let found = shown.page().number();
        if found == page {
            let pass = Pass::of(worker, share, one_hit(&counts));
            return Wanted::Hit(Pin { pass, frame, shown });
        }
        place.leave(shown);
        let mut share = share;
        let lock = self.set_of(frame);
        let mut held = lock.take(rt);
        held.get()
            .repair(self.ledgers(), worker, self.way_of(frame), &mut share);
        lock.give(rt, held);
        Wanted::Stale(Pass::of(worker, share, one_stale(&counts)), found)
    }

    // A load into this frame begins: it waits in the queue of the page's drive, or is given up where that is full.
    fn start<R: Wait>(
        &self,
        rt: &R,
        worker: u32,
        share: Share,
        counts: Snapshot<Counts>,
        page: u32,
        frame: u32,
    ) -> Wanted<'_>
        requires pass { IsPassOf self.now.site (token_of share.books worker counts.value) }
        requires share { share ≡ with_entry (share_of (token_of share.books worker counts.value)) }
        requires page { Contains (asked_pages self.now.site) page }
        requires frame { frame < frames_of self.now.site }
        ensures tells { WantedTells self.now.site page (token_of share.books worker counts.value) result }
    {
        let at = place(page, self.layout().drives, self.layout().unit);
        let load = Load {
            page,
            local: at.local,
            frame,
        };
        let mut share = share;
        let lock = self.queue(at.drive);
        let mut held = lock.take(rt);
        let answer = held.get().push(self.ledgers(), load, &mut share);
        lock.give(rt, held);
        let Err(slip) = answer else {
            return Wanted::Queued(Pass::of(worker, share, one_queued(&counts)));
        };
        let lock = self.set_of(frame);
        let mut held = lock.take(rt);
        held.get()
            .fail(self.ledgers(), self.way_of(frame), page, &mut share);
        lock.give(rt, held);
        Wanted::Full(Pass::of(worker, share, counts), slip)
    }

    /// Gives a pin back, and the pass with it.
    pub fn unpin<R: Wait>(&self, rt: &R, pin: Pin<'_>) -> Pass
        requires { IsPinOf self.now.site pin }
        ensures { result ≡ pin.entry.pass }
    {
        let Pin { pass, frame, shown } = pin;
        self.frame(frame).leave(shown);
        let lock = self.set_of(frame);
        let mut held = lock.take(rt);
        held.get().unpin(pass.worker(), self.way_of(frame));
        lock.give(rt, held);
        pass
    }
}
