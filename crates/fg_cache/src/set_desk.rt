//! What stands behind the lock of a page set: its directory, and a share of the ledgers.

ghost use Rattle.std.specs.Prelude.{◌≡◌, ◌<◌, ◌≤◌, pos, ◌+ℤ◌, ◌-ℤ◌};
ghost use Rattle.std.specs.List.{Contains};
ghost use Rattle.fg_set.specs.DirectoryStep.{wanted, made_ready, failed, unpinned, repaired};
ghost use Rattle.fg_set.specs.PageSet.{ways_of};
ghost use Rattle.fg_set.specs.Want.{seen_of, is_start, SlipNames};
ghost use Rattle.fg_cache.specs.Names.{LockOf};
ghost use Rattle.fg_cache.specs.SetDesk.{IsSetDesk, AskTells};
ghost use Rattle.fg_cache.specs.Share.{idle};
ghost use Rattle.fg_cache.specs.Site.{own_pages};

use crate::home::LockName;
use crate::ledgers::Ledgers;
use crate::share::Share;
use fg_cell::Fit;
use fg_set::{Directory, Want};

/// A page set's directory, and its share.
#[derive(Drop)]
pub(crate) struct SetDesk {
    pub(crate) directory: Directory,
    pub(crate) share: Share,
}

impl Fit for SetDesk {
    ghost use Rattle.fg_cache.specs.SetDesk.{IsSetDesk};

    type Name = LockName;

    ghost fits = { IsSetDesk };
}

impl SetDesk {
    /// A worker asks for a page. Where a load begins, it gets the entry's part in the ledgers.
    pub(crate) fn want(
        &mut self,
        ledgers: &Ledgers,
        worker: u32,
        page: u32,
        share: &mut Share,
    ) -> Want
        requires worker { worker < self.old.directory.workers }
        requires own { (self.old.share.books ≡ ledgers.now) × (share.old.books ≡ ledgers.now) }
        requires parts { (1 ≤ self.old.share.parts) × (1 ≤ share.old.parts) }
        ensures answer { seen_of result ≡ (wanted worker page self.old.directory).answer }
        ensures step { self.new.directory ≡ (wanted worker page self.old.directory).after }
        ensures slip { SlipNames self.old.directory page result }
        ensures tells { AskTells page self.old.directory share.old share.new (seen_of result) }
        ensures keeps { (name : LockOf) → IsSetDesk name self.old → Contains (own_pages name.site name.number) page → IsSetDesk name self.new }
    {
        let answer = self.directory.want(worker, page);
        if !begins(&answer) {
            return answer;
        }
        ledgers.pay_entry(&mut self.share, share);
        answer
    }

    /// The page's bytes came.
    pub(crate) fn ready(&mut self, way: u32, page: u32)
        requires { way < ways_of self.old.directory }
        ensures step { self.new.directory ≡ (made_ready way page self.old.directory).after }
        ensures keeps { (name : LockOf) → IsSetDesk name self.old → IsSetDesk name self.new }
    {
        self.directory.ready(way, page);
    }

    /// They didn't, or couldn't be asked for. Who gives the load up gives the entry's part back.
    pub(crate) fn fail(&mut self, ledgers: &Ledgers, way: u32, page: u32, share: &mut Share)
        requires way { way < ways_of self.old.directory }
        requires own { (self.old.share.books ≡ ledgers.now) × (share.old.books ≡ ledgers.now) }
        requires parts { (1 ≤ self.old.share.parts) × (1 ≤ share.old.parts) }
        ensures step { self.new.directory ≡ (failed way page self.old.directory).after }
        ensures paid { share.new ≡ record share.old { entries = share.old.entries -ℤ pos 1 } }
        ensures keeps { (name : LockOf) → IsSetDesk name self.old → IsSetDesk name self.new }
    {
        self.directory.fail(way, page);
        ledgers.pay_entry(share, &mut self.share);
    }

    /// A worker gives its pin back.
    pub(crate) fn unpin(&mut self, worker: u32, way: u32)
        requires worker { worker < self.old.directory.workers }
        requires way { way < ways_of self.old.directory }
        ensures step { self.new.directory ≡ unpinned worker way self.old.directory }
        ensures keeps { (name : LockOf) → IsSetDesk name self.old → IsSetDesk name self.new }
    {
        self.directory.unpin(worker, way);
    }

    /// A worker gives its pin back that found another page in the frame, and pays for the repair.
    pub(crate) fn repair(&mut self, ledgers: &Ledgers, worker: u32, way: u32, share: &mut Share)
        requires worker { worker < self.old.directory.workers }
        requires way { way < ways_of self.old.directory }
        requires own { (self.old.share.books ≡ ledgers.now) × (share.old.books ≡ ledgers.now) }
        requires parts { (1 ≤ self.old.share.parts) × (1 ≤ share.old.parts) }
        ensures step { self.new.directory ≡ repaired worker way self.old.directory }
        ensures paid { share.new ≡ record share.old { repairs = share.old.repairs -ℤ pos 1 } }
        ensures keeps { (name : LockOf) → IsSetDesk name self.old → IsSetDesk name self.new }
    {
        self.directory.repair(worker, way);
        ledgers.pay_repair(share, &mut self.share);
    }
}

// Whether a load begins.
fn begins(answer: &Want) -> bool
    ensures { result ≡ is_start (seen_of answer.now) }
{
    match answer {
        Want::Start(_) => true,
        _ => false,
    }
}
