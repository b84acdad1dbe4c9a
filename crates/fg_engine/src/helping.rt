//! Loops that serve the drives beside the workers.
//!
//! A worker serves for itself where it waits for a page. Beside the workers a helper may serve each drive, so that a drive reads on while
//! the workers compute. A helper ends when the workers' run has ended, or at the first fault of its drive.

ghost use denote.Param.Send.{IsSend, IsSync};
ghost use Rattle.std.specs.Prelude.{◌≡◌, ◌<◌, ◌≤◌, ◌^◌, ◌++◌, None, [], IfErr, IfOk, length, reverse, vec_capacity};
ghost use Rattle.fg_engine.specs.Helping.{AreEnds, EndOf, HasDone, HasDoneAll, IsEndOf, MayDo, MayDoAll, as_list, share_in, shares_in};

use crate::stopping::{Going, Stop, Stopped};
use fg_base::Memory;
use fg_cache::{Cache, FaultShare, Served};
use fg_outside::Drive;
use std::alloc::Global;
use std::sync::Wait;
use std::thread;
use std::thread::{Threads, join_mut};

/// How a helper ended: it found the flag set, or its drive failed.
#[derive(Drop)]
pub(crate) enum LoopEnd {
    Stopped(Stopped),
    Fault(FaultShare),
}

/// One round of a helper, which goes on only where it found the flag clear. Where no load waits for the drive the thread yields.
fn round<D: Drive, R: Wait>(
    rt: &R,
    cache: &Cache<D>,
    drive: u32,
    stop: &Stop,
) -> Result<Going, LoopEnd>
    requires { drive < cache.now.site.layout.drives }
    ensures { IfErr result (IsEndOf cache.now.site.books drive) }
{
    let going = match stop.look() {
        Ok(going) => going,
        Err(slip) => return Err(LoopEnd::Stopped(slip)),
    };
    match cache.serve(rt, drive) {
        Served::Pages(_read) => {}
        Served::Idle(_slip) => thread::yield_now(),
        Served::Fault(share) => return Err(LoopEnd::Fault(share)),
    }
    Ok(going)
}

/// Serves the drive until the flag is set or the drive fails.
pub(crate) fn drive_loop<D: Drive, R: Wait>(
    rt: &R,
    cache: &Cache<D>,
    drive: u32,
    stop: &Stop,
) -> LoopEnd
    requires { drive < cache.now.site.layout.drives }
    ensures { IsEndOf cache.now.site.books drive result }
{
    for _ in rt.forever() {
        match round(rt, cache, drive, stop) {
            Ok(_going) => {}
            Err(end) => return end,
        }
    }
    unreachable!()
}

/// How a helper of a drive ended; at first it hasn't.
pub(crate) type HelperEnd = Option<LoopEnd>;

/// A helper for each of the first drives, in a thread of its own where one can be made.
fn all_serve<D: Drive + Send, R: Threads + Wait + Sync>(
    rt: &R,
    cache: &Cache<D>,
    stop: &Stop,
    ends: &mut [HelperEnd],
)
    requires some { 0 < length ends.old }
    requires drives { length ends.old ≤ cache.now.site.layout.drives }
    requires few { length ends.old < 2 ^ 32 }
    ensures { AreEnds cache.now.site.books (length ends.old) ends.new }
{
    thread::for_each_mut(
        rt,
        ends,
        ends.len(),
        &|own: usize, end: &mut HelperEnd|
            requires { (own < cache.now.site.layout.drives) × (own < 2 ^ 32) }
            ensures { EndOf cache.entry.now.site.books own end.exit.now }
        {
            *end = Some(drive_loop(rt, cache, own as u32, stop));
        },
    );
}

/// Does the work on what is given, and on two things that it changes, while a helper serves each of the first drives, one for each place of
/// `ends`. The helpers end when the work is done.
pub(crate) fn beside<
    D: Drive + Send,
    G,
    A,
    B,
    X,
    F: FnOnce(G, &mut A, &mut B) -> X,
    R: Threads + Wait + Sync,
>(
    rt: &R,
    cache: &Cache<D>,
    ends: &mut [HelperEnd],
    given: G,
    one: &mut A,
    two: &mut B,
    work: F,
) -> X
    requires may { MayDo F.FnOnce work given one.old two.old }
    requires drives { length ends.old ≤ cache.now.site.layout.drives }
    requires few { length ends.old < 2 ^ 32 }
    ensures done { HasDone F.FnOnce work given one.old two.old result one.new two.new }
    ensures ends { AreEnds cache.now.site.books (length ends.old) ends.new }
{
    if ends.is_empty() {
        return work(given, one, two);
    }
    let stop = Stop::new();
    let mut work = Some(work);
    let mut given = Some(given);
    // The helpers stand first: where no thread can be made the first closure is called last, and then it finds the flag set.
    let (_, done) = join_mut(
        rt,
        &mut ||
            requires { IsSend D.row × IsSync R.row × (0 < length ends.now) × (length ends.now ≤ cache.now.site.layout.drives) × (length ends.now < 2 ^ 32) }
            ensures { AreEnds cache.entry.now.site.books (length ends.entry.now) ends.exit.now }
        { all_serve(rt, cache, &stop, ends) },
        &mut || -> X
            requires { MayDoAll F.FnOnce work given one.now two.now }
            ensures { HasDoneAll F.FnOnce work.entry given.entry one.entry.now two.entry.now result one.exit.now two.exit.now × (given.exit ≡ None) }
        { do_once(&mut work, &mut given, &stop, one, two) },
    );
    let None = given else {
        unreachable!();
    };
    done
}

/// Does the work on what is given, if both are there, and sets the flag when it is done.
fn do_once<G, A, B, X, F: FnOnce(G, &mut A, &mut B) -> X>(
    work: &mut Option<F>,
    given: &mut Option<G>,
    stop: &Stop,
    one: &mut A,
    two: &mut B,
) -> X
    requires { MayDoAll F.FnOnce work.old given.old one.old two.old }
    ensures done { HasDoneAll F.FnOnce work.old given.old one.old two.old result one.new two.new }
    ensures taken { given.new ≡ None }
{
    let Some(work) = work.take() else {
        unreachable!();
    };
    let Some(given) = given.take() else {
        unreachable!();
    };
    let done = work(given, one, two);
    stop.set();
    done
}

/// Places for the ends of so many helpers, which haven't begun.
pub(crate) fn helper_ends(alloc: Global, count: u32) -> Result<Vec<HelperEnd>, Memory>
    ensures { IfOk result (λ ends. length ends.items ≡ count) }
{
    let mut ends = Vec::with_capacity(alloc, count as usize)?;
    for _drive in 0..count {
        ends.push_reserved(None);
    }
    Ok(ends)
}

/// The share of a helper whose drive failed.
fn share_of(end: HelperEnd) -> Option<FaultShare>
    ensures { result ≡ share_in end }
{
    match end {
        Some(LoopEnd::Fault(share)) => Some(share),
        Some(LoopEnd::Stopped(_)) | None => None,
    }
}

/// Adds the share, if there is one. There is room for it.
fn add_share(shares: &mut Vec<FaultShare>, share: Option<FaultShare>)
    requires { length shares.old.items < vec_capacity shares.old }
    ensures items { shares.new.items ≡ shares.old.items ++ as_list share }
    ensures room { vec_capacity shares.new ≡ vec_capacity shares.old }
{
    if let Some(share) = share {
        shares.push_reserved(share);
    }
}

/// The share of the fault that ended the work, if one did, and those of the helpers, the last one's first. The room for them is `shares`.
pub(crate) fn shares_of(
    fault: Option<FaultShare>,
    ends: Vec<HelperEnd>,
    shares: Vec<FaultShare>,
) -> Vec<FaultShare>
    requires room { (shares.items ≡ []) × (length ends.items < vec_capacity shares) }
    ensures { result.items ≡ as_list fault ++ shares_in (reverse ends.items) }
{
    let mut ends = ends;
    let mut shares = shares;
    add_share(&mut shares, fault);
    while let Some(end) = ends.pop() {
        add_share(&mut shares, share_of(end));
    }
    shares
}
