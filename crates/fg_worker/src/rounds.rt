//! The rounds in which a block visits its pages.

ghost use Rattle.std.specs.Prelude.{◌≡◌, ◌++◌, [], IfErr, OnOk};
ghost use Rattle.fg_cache.specs.Site.{IsLayout, asked_pages};
ghost use Rattle.fg_cache.specs.Slips.{FaultOf};
ghost use Rattle.fg_task.specs.Blocks.{HasCause};
ghost use Rattle.fg_task.specs.Book.{jobs_of};
ghost use Rattle.fg_worker.specs.Hand.{IsPassHeld};
ghost use Rattle.fg_worker.specs.Visiting.{AreAsked, Covers, HasGoneOn, MayGoOn, StillCover, VisitedAll, found_and_left, moment_of};

use crate::block_run::BlockRun;
use crate::hand::Hand;
use crate::serving::serve_for;
use crate::visiting::{Seen, visit_page};
use fg_base::{Memory, Tally};
use fg_cache::{Cache, FaultShare};
use fg_outside::Drive;
use fg_stripe::Layout;
use fg_task::{SegmentRun, WorkFault};
use std::alloc::Global;
use std::sync::Wait;

/// The most pages that a round wants.
const ROUND_PAGES: usize = 32;

/// Wants the first pages of a list, which stands last page first, until one is held up; whether one was. What still waits comes into
/// `kept`, the first page first.
fn want_first<D: Drive, F: SegmentRun, T: Tally, R: Wait>(
    rt: &R,
    cache: &Cache<D>,
    pages: &mut Vec<u32>,
    kept: &mut Vec<u32>,
    run: &mut BlockRun<F>,
    hand: &mut Hand<T>,
) -> Result<bool, Memory>
    requires pass { IsPassHeld cache.now.site hand.old.pass }
    requires asked { AreAsked cache.now.site pages.old.items × AreAsked cache.now.site kept.old.items }
    requires may { MayGoOn (F.work run.old.book.function) (moment_of T.entries run.old hand.old) }
    ensures pass { IsPassHeld cache.now.site hand.new.pass }
    ensures function { run.new.book.function ≡ run.old.book.function }
    ensures runs { T.runs hand.new.tally ≡ T.runs hand.old.tally }
    ensures went { HasGoneOn cache.now.site (F.work run.old.book.function) T.entries run.old hand.old run.new hand.new }
    ensures asked { OnOk result (AreAsked cache.now.site pages.new.items × AreAsked cache.now.site kept.new.items) }
    ensures covers { OnOk result (StillCover (pages.old.items ++ kept.old.items) (jobs_of run.old.book)
        (pages.new.items ++ kept.new.items) (jobs_of run.new.book)) }
    ensures hits { OnOk result (found_and_left hand.new.pass (pages.new.items ++ kept.new.items)
        ≡ found_and_left hand.old.pass (pages.old.items ++ kept.old.items)) }
{
    for _ in 0..ROUND_PAGES {
        let Some(page) = pages.pop() else {
            return Ok(false);
        };
        match visit_page(rt, cache, page, run, hand)? {
            Seen::Ran => {}
            Seen::Waits => kept.push(page)?,
            Seen::Held => {
                kept.push(page)?;
                return Ok(true);
            }
        }
    }
    Ok(false)
}

/// One round over a list, which stands last page first; whether a page was held up. `kept` is empty before and after it.
fn go_round<D: Drive, F: SegmentRun, T: Tally, R: Wait>(
    rt: &R,
    cache: &Cache<D>,
    pages: &mut Vec<u32>,
    kept: &mut Vec<u32>,
    run: &mut BlockRun<F>,
    hand: &mut Hand<T>,
) -> Result<bool, Memory>
    requires pass { IsPassHeld cache.now.site hand.old.pass }
    requires asked { AreAsked cache.now.site pages.old.items }
    requires none { kept.old.items ≡ [] }
    requires may { MayGoOn (F.work run.old.book.function) (moment_of T.entries run.old hand.old) }
    ensures pass { IsPassHeld cache.now.site hand.new.pass }
    ensures function { run.new.book.function ≡ run.old.book.function }
    ensures runs { T.runs hand.new.tally ≡ T.runs hand.old.tally }
    ensures went { HasGoneOn cache.now.site (F.work run.old.book.function) T.entries run.old hand.old run.new hand.new }
    ensures asked { OnOk result (AreAsked cache.now.site pages.new.items) }
    ensures none { OnOk result (kept.new.items ≡ []) }
    ensures covers { OnOk result (StillCover pages.old.items (jobs_of run.old.book) pages.new.items (jobs_of run.new.book)) }
    ensures hits { OnOk result (found_and_left hand.new.pass pages.new.items ≡ found_and_left hand.old.pass pages.old.items) }
{
    let held = want_first(rt, cache, pages, kept, run, hand)?;
    kept.reverse();
    pages.append(kept)?;
    Ok(held)
}

/// Visits each page that the jobs wait for, until none is left: in rounds, between which the drive of the first page is served.
pub(crate) fn visit_all<D: Drive, F: SegmentRun, T: Tally, R: Wait>(
    rt: &R,
    alloc: Global,
    cache: &Cache<D>,
    layout: Layout,
    run: &mut BlockRun<F>,
    hand: &mut Hand<T>,
) -> Result<(), WorkFault<FaultShare>>
    requires layout { layout ≡ cache.now.site.layout }
    requires striped { IsLayout layout }
    requires pass { IsPassHeld cache.now.site hand.old.pass }
    requires asked { Covers (asked_pages cache.now.site) (jobs_of run.old.book) }
    requires may { MayGoOn (F.work run.old.book.function) (moment_of T.entries run.old hand.old) }
    ensures pass { IsPassHeld cache.now.site hand.new.pass }
    ensures function { run.new.book.function ≡ run.old.book.function }
    ensures runs { T.runs hand.new.tally ≡ T.runs hand.old.tally }
    ensures went { HasGoneOn cache.now.site (F.work run.old.book.function) T.entries run.old hand.old run.new hand.new }
    ensures done { OnOk result (jobs_of run.new.book ≡ []) }
    ensures visits { OnOk result (VisitedAll (jobs_of run.old.book) hand.old hand.new) }
    ensures fault { IfErr result (λ fault. HasCause (λ (share : FaultOf). share.books ≡ cache.now.site.books) fault) }
{
    let mut pages = run.book.pages(alloc)?;
    pages.reverse();
    let mut kept = Vec::new(alloc);
    for _ in rt.forever() {
        let held = go_round(rt, cache, &mut pages, &mut kept, run, hand)?;
        let Some(first) = pages.last() else {
            return Ok(());
        };
        match serve_for(rt, cache, layout, *first, held) {
            Ok(()) => {}
            Err(share) => return Err(WorkFault::Fault(share)),
        }
    }
    unreachable!()
}
