//! How the shares of passes, sets and queues come together when a cache is closed.

ghost use Rattle.std.specs.Prelude.{◌≡◌, ◌+◌, All, length, pos, ◌+ℤ◌, ◌-ℤ◌, ◌≤ℤ◌};
ghost use Rattle.fg_cache.specs.Closing.{all_queued, all_stale};
ghost use Rattle.fg_cache.specs.Joining.{AreOf, BeginsFew};
ghost use Rattle.fg_cache.specs.Pass.{Token};

use crate::ledgers::Ledgers;
use crate::pass::Pass;
use crate::queue_desk::QueueDesk;
use crate::set_desk::SetDesk;
use crate::share::Share;
use fg_cell::Named;
use std::sync::Wait;

pub(crate) fn join_passes(ledgers: &Ledgers, share: Share, passes: Vec<Pass>) -> Share
    requires own { (share.books ≡ ledgers.now) × All (λ (pass : Token). pass.books ≡ ledgers.now) passes.items }
    ensures books { result.books ≡ ledgers.now }
    ensures parts { result.parts ≡ share.parts + length passes.items }
    ensures pushes { result.pushes ≡ share.pushes -ℤ pos (all_queued passes.items) }
    ensures others { (result.takes ≡ share.takes) × (result.entries ≡ share.entries) }
    ensures repairs { result.repairs ≡ share.repairs -ℤ pos (all_stale passes.items) }
{
    let mut all = share;
    let mut passes = passes;
    while let Some(pass) = passes.pop() {
        let Pass { share, .. } = pass;
        all = ledgers.join(all, share);
    }
    all
}

pub(crate) fn join_sets<R: Wait>(
    rt: &R,
    ledgers: &Ledgers,
    share: Share,
    sets: Vec<Named<SetDesk>>,
) -> Share
    requires own { (share.books ≡ ledgers.now) × AreOf ledgers.now sets.items }
    ensures books { result.books ≡ ledgers.now }
    ensures parts { result.parts ≡ share.parts + length sets.items }
    ensures others { (result.pushes ≡ share.pushes) × (result.takes ≡ share.takes) }
    ensures few { BeginsFew share result sets.items }
{
    let mut all = share;
    let mut sets = sets;
    while let Some(lock) = sets.pop() {
        let SetDesk { share, .. } = lock.into_inner(rt);
        all = ledgers.join(all, share);
    }
    all
}

pub(crate) fn join_queues<R: Wait>(
    rt: &R,
    ledgers: &Ledgers,
    share: Share,
    queues: Vec<Named<QueueDesk>>,
) -> Share
    requires own { (share.books ≡ ledgers.now) × AreOf ledgers.now queues.items }
    ensures books { result.books ≡ ledgers.now }
    ensures parts { result.parts ≡ share.parts + length queues.items }
    ensures waits { (share.pushes +ℤ share.takes) ≤ℤ (result.pushes +ℤ result.takes) }
    ensures begun { result.entries -ℤ share.entries ≡ result.pushes -ℤ share.pushes }
    ensures repairs { result.repairs ≡ share.repairs }
{
    let mut all = share;
    let mut queues = queues;
    while let Some(lock) = queues.pop() {
        let QueueDesk { share, .. } = lock.into_inner(rt);
        all = ledgers.join(all, share);
    }
    all
}
