//! One page of a block's list.

ghost use Rattle.std.specs.Prelude.{◌≡◌, ◌+◌, ◌++◌, ◌∷◌, ℕ, List, IfOk, OnOk, Some, filter, length};
ghost use Rattle.std.specs.List.{Contains};
ghost use Rattle.fg_base.specs.declared.limits.TheConstants.{PAGE_BYTES};
ghost use Rattle.fg_cache.specs.Site.{asked_pages};
ghost use Rattle.fg_task.specs.Book.{jobs_of};
ghost use Rattle.fg_task.specs.Jobs.{is_elsewhere};
ghost use Rattle.fg_worker.specs.Hand.{IsPassHeld, hits_of};
ghost use Rattle.fg_worker.specs.Visiting.{HasGoneOn, MayGoOn, StillCover, WentOnPage, left_of, moment_of};

use crate::block_run::BlockRun;
use crate::hand::Hand;
use fg_base::{Memory, Tally};
use fg_cache::{Cache, Pass, Wanted};
use fg_outside::Drive;
use fg_task::{SegmentRun, lesser};
use std::sync::Wait;

/// What became of a page that was wanted.
#[derive(Clone, Copy)]
pub(crate) enum Seen {
    /// It was there, and its jobs were run.
    Ran,
    /// It is on its way, or will be.
    Waits,
    /// Its load can't begin before others have ended.
    Held,
}

impl<T: Tally> Hand<T> {
    /// Takes the pass back, and hands on what became of the page.
    fn take_back(&mut self, pass: Pass, seen: Seen) -> Seen
        ensures hand { self.new ≡ record self.old { pass = Some pass } }
        ensures seen { result ≡ seen }
    {
        self.pass = Some(pass);
        seen
    }
}

/// Runs the jobs that wait for a page on its bytes.
fn run_page<F: SegmentRun, T: Tally>(
    page: u32,
    bytes: &[u8],
    run: &mut BlockRun<F>,
    hand: &mut Hand<T>,
) -> Result<(), Memory>
    requires whole { length bytes.now ≡ PAGE_BYTES }
    requires may { MayGoOn (F.work run.old.book.function) (moment_of T.entries run.old hand.old) }
    ensures function { run.new.book.function ≡ run.old.book.function }
    ensures pass { hand.new.pass ≡ hand.old.pass }
    ensures runs { T.runs hand.new.tally ≡ T.runs hand.old.tally }
    ensures went { WentOnPage page bytes.now (F.work run.old.book.function)
        (moment_of T.entries run.old hand.old) (moment_of T.entries run.new hand.new) }
    ensures left { OnOk result (jobs_of run.new.book ≡ filter (is_elsewhere page) (jobs_of run.old.book)) }
{
    run.book.make_room(page, &mut hand.outbox)?;
    let bad = run
        .book
        .run_on(page, bytes, &mut hand.outbox, &mut hand.tally);
    run.least = lesser(run.least, bad);
    Ok(())
}

/// Wants a page, and runs the jobs that wait for it where it is there.
pub(crate) fn visit_page<D: Drive, F: SegmentRun, T: Tally, R: Wait>(
    rt: &R,
    cache: &Cache<D>,
    page: u32,
    run: &mut BlockRun<F>,
    hand: &mut Hand<T>,
) -> Result<Seen, Memory>
    requires pass { IsPassHeld cache.now.site hand.old.pass }
    requires asked { Contains (asked_pages cache.now.site) page }
    requires may { MayGoOn (F.work run.old.book.function) (moment_of T.entries run.old hand.old) }
    ensures pass { IsPassHeld cache.now.site hand.new.pass }
    ensures function { run.new.book.function ≡ run.old.book.function }
    ensures runs { T.runs hand.new.tally ≡ T.runs hand.old.tally }
    ensures went { HasGoneOn cache.now.site (F.work run.old.book.function) T.entries run.old hand.old run.new hand.new }
    ensures covers { IfOk result (λ seen. (rest : List ℕ) → StillCover (page ∷ rest) (jobs_of run.old.book)
        (left_of page seen ++ rest) (jobs_of run.new.book)) }
    ensures hits { IfOk result (λ seen. hits_of hand.new.pass + length (left_of page seen) ≡ hits_of hand.old.pass + 1) }
{
    let Some(pass) = hand.pass.take() else {
        unreachable!()
    };
    match cache.want(rt, pass, page) {
        Wanted::Hit(pin) => {
            let ran = run_page(page, pin.bytes(), run, hand);
            hand.pass = Some(cache.unpin(rt, pin));
            ran?;
            Ok(Seen::Ran)
        }
        Wanted::Queued(pass) => Ok(hand.take_back(pass, Seen::Waits)),
        Wanted::Loading(pass, _slip) => Ok(hand.take_back(pass, Seen::Waits)),
        Wanted::Stale(pass, _found) => Ok(hand.take_back(pass, Seen::Waits)),
        Wanted::Again(pass, _slip) => Ok(hand.take_back(pass, Seen::Held)),
        Wanted::Full(pass, _slip) => Ok(hand.take_back(pass, Seen::Held)),
    }
}
