//! The counts of a pass, as contracts see them.

ghost use Rattle.std.specs.Prelude.{◌≡◌, ℕ, ◌+◌};
ghost use base.Fml.{ftrue};
ghost use base.Stored.{coded_ℕ};

use std::marker::{Brand, Model, PhantomData};
use std::snapshot::Snapshot;

/// Three numbers that the proof of a call picks.
pub(crate) trait Numbers {
    ghost use Rattle.std.specs.Prelude.{ℕ};

    ghost queued: { ℕ };

    ghost stale: { ℕ };

    ghost hits: { ℕ };
}

impl Numbers for Brand {
    ghost queued = { 0 };

    ghost stale = { 0 };

    ghost hits = { 0 };
}

/// How often a pass was answered `Queued`, `Stale` and `Hit`. It has no bytes.
pub(crate) struct Counts {
    marker: PhantomData<()>,
    pub(crate) ghost queued: { ℕ } by { coded_ℕ },
    pub(crate) ghost stale: { ℕ } by { coded_ℕ },
    pub(crate) ghost hits: { ℕ } by { coded_ℕ },
}

impl Model for Counts {
    ghost also_owns = { λ _. ftrue };
}

impl Counts {
    pub(crate) fn of<N: Numbers>() -> Counts
        ensures { (result.queued ≡ N.queued) × (result.stale ≡ N.stale) × (result.hits ≡ N.hits) }
    {
        Counts {
            marker: PhantomData,
        }
    }
}

impl Drop for Counts {
    fn drop(self) {
        let Self { marker: _ } = self;
    }
}

pub(crate) fn picked<N: Numbers>() -> Snapshot<Counts>
    ensures { (result.value.queued ≡ N.queued) × (result.value.stale ≡ N.stale) × (result.value.hits ≡ N.hits) }
{
    let counts = Counts::of::<N>();
    Snapshot::of(&counts)
}

// The numbers are picked from the counts that are passed, for that alone.
fn picked_from<N: Numbers>(_counts: &Snapshot<Counts>) -> Snapshot<Counts>
    ensures { (result.value.queued ≡ N.queued) × (result.value.stale ≡ N.stale) × (result.value.hits ≡ N.hits) }
{
    picked::<N>()
}

pub(crate) fn none() -> Snapshot<Counts>
    ensures { (result.value.queued ≡ 0) × (result.value.stale ≡ 0) × (result.value.hits ≡ 0) }
{
    picked::<Brand>()
}

pub(crate) fn one_queued(counts: &Snapshot<Counts>) -> Snapshot<Counts>
    ensures queued { result.value.queued ≡ counts.now.value.queued + 1 }
    ensures others { (result.value.stale ≡ counts.now.value.stale) × (result.value.hits ≡ counts.now.value.hits) }
{
    picked_from::<Brand>(counts)
}

pub(crate) fn one_stale(counts: &Snapshot<Counts>) -> Snapshot<Counts>
    ensures stale { result.value.stale ≡ counts.now.value.stale + 1 }
    ensures others { (result.value.queued ≡ counts.now.value.queued) × (result.value.hits ≡ counts.now.value.hits) }
{
    picked_from::<Brand>(counts)
}

pub(crate) fn one_hit(counts: &Snapshot<Counts>) -> Snapshot<Counts>
    ensures hits { result.value.hits ≡ counts.now.value.hits + 1 }
    ensures others { (result.value.queued ≡ counts.now.value.queued) × (result.value.stale ≡ counts.now.value.stale) }
{
    picked_from::<Brand>(counts)
}
