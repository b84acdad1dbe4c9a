//! How a cache was used.

ghost use Rattle.std.specs.Prelude.{◌≡◌};
ghost use Rattle.fg_cache.specs.Closing.{all_hits};

use crate::counts::{Counts, Numbers, picked};
use crate::pass::Pass;
use std::marker::{Brand, Model};
use std::snapshot::Snapshot;

/// A slip of `Cache::close`. Contracts see on it how often all passes together were answered `Hit`.
#[derive(Drop)]
pub struct Usage {
    counts: Snapshot<Counts>,
}

impl Model for Usage {
    ghost use Rattle.fg_cache.specs.Used.{Used};

    ghost Value = { Used };

    ghost view = { λ u. record { hits = u.counts.value.hits } };
}

impl Usage {
    pub(crate) fn of(passes: &Vec<Pass>) -> Usage
        ensures { result.hits ≡ all_hits passes.now.items }
    {
        Usage {
            counts: picked_by::<Brand>(passes),
        }
    }
}

// The numbers are picked from the passes that are passed, for that alone.
fn picked_by<N: Numbers>(_passes: &Vec<Pass>) -> Snapshot<Counts>
    ensures { (result.value.queued ≡ N.queued) × (result.value.stale ≡ N.stale) × (result.value.hits ≡ N.hits) }
{
    picked::<N>()
}
