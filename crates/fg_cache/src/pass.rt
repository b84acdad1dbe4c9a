//! A worker's token.

ghost use Rattle.std.specs.Prelude.{◌≡◌};
ghost use Rattle.fg_cache.specs.Pass.{share_of, token_of};

use crate::counts::Counts;
use crate::share::Share;
use std::marker::Model;
use std::snapshot::Snapshot;

/// A worker's token, by which it asks a cache for pages. It holds no pin. Contracts see on it how often it was answered
/// `Queued`, `Stale` and `Hit`; the three numbers take no room.
#[derive(Drop)]
pub struct Pass {
    pub(crate) worker: u32,
    pub(crate) share: Share,
    pub(crate) counts: Snapshot<Counts>,
}

impl Model for Pass {
    ghost use Rattle.std.specs.Prelude.{◌≡◌};
    ghost use Rattle.fg_cache.specs.Pass.{Token, token_of, share_of};

    ghost Value = { Token };

    ghost view = { λ p. token_of p.share.books p.worker p.counts.value };

    ghost invariant = { λ p. p.share ≡ share_of (token_of p.share.books p.worker p.counts.value) };
}

impl Pass {
    pub(crate) fn of(worker: u32, share: Share, counts: Snapshot<Counts>) -> Pass
        requires { share ≡ share_of (token_of share.books worker counts.value) }
        ensures { result ≡ token_of share.books worker counts.value }
    {
        Pass {
            worker,
            share,
            counts,
        }
    }

    /// The number of its worker.
    pub fn worker(&self) -> u32
        ensures { result ≡ self.now.worker }
    {
        self.worker
    }
}
