//! The steps of a directory on its entries.

ghost use Rattle.std.specs.Prelude.{◌≡◌, ℕ, ◌*◌, ◌<◌, ◌≤◌, length, slice_set, position, IfSome};
ghost use Rattle.std.specs.List.{list_any};
ghost use Rattle.fg_set.specs.Entry.{is_empty, is_free, is_loading, is_ready};
ghost use Rattle.fg_set.specs.Clock.{turn, hand_after};
ghost use Rattle.fg_set.specs.DirectoryStep.{wanted, made_ready, failed, unpinned, repaired};

use crate::answers::{Placed, WantSeen};
use crate::entry::Entry;

/// The place after `hand`, and after the last one the first.
fn hand_after(ways: usize, hand: usize) -> usize
    requires { hand < ways }
    ensures next { result ≡ hand_after ways hand }
    ensures within { result < ways }
{
    if hand + 1 < ways { hand + 1 } else { 0 }
}

/// A turn of the clock: at most twice round. Answers the entry that it took, and the hand.
fn turn(entries: &mut [Entry], hand: usize, page: u32) -> (Option<usize>, usize)
    requires hand { hand < length entries.old }
    requires few { length entries.old ≤ 16 }
    ensures taken { IfSome result.0 (λ frame. frame < length entries.old) }
    ensures end { turn (2 * length entries.old) page entries.old hand
        ≡ record { taken = result.0; entries = entries.new; hand = result.1 } }
{
    let mut at = hand;
    for _look in 0..2 * entries.len() {
        let looked = at;
        at = hand_after(entries.len(), looked);
        if entries[looked].is_taken() {
            entries[looked].start(page);
            return (Some(looked), at);
        }
        entries[looked].pass();
    }
    (None, at)
}

/// The entry in which the page stands.
fn find_ready(entries: &[Entry], page: u32) -> Option<usize>
    ensures { result ≡ position (is_ready page) entries.now }
{
    entries.iter().position(|entry| entry.is_ready(page))
}

/// The entry that is loading the page.
fn find_loading(entries: &[Entry], page: u32) -> Option<usize>
    ensures { result ≡ position (is_loading page) entries.now }
{
    entries.iter().position(|entry| entry.is_loading(page))
}

/// The lowest empty entry.
fn find_empty(entries: &[Entry]) -> Option<usize>
    ensures { result ≡ position is_empty entries.now }
{
    entries.iter().position(|entry| entry.is_empty())
}

fn is_any_free(entries: &[Entry]) -> bool
    ensures { result ≡ list_any is_free entries.now }
{
    entries.iter().any(|entry| entry.is_free())
}

/// A worker wants a page: answers what it gets, and where the hand is then.
pub(crate) fn look_up(
    entries: &mut [Entry],
    hand: usize,
    worker: u32,
    page: u32,
) -> (WantSeen, usize)
    requires hand { hand < length entries.old }
    requires few { length entries.old ≤ 16 }
    requires worker { worker < 64 }
    ensures { (workers : ℕ) → wanted worker page (record { entries = entries.old; hand = hand; workers = workers })
        ≡ record { answer = result.0; after = record { entries = entries.new; hand = result.1; workers = workers } } }
{
    if let Some(frame) = find_ready(entries, page) {
        entries[frame].use_by(worker);
        return (WantSeen::Hit(frame as u32), hand);
    }
    if find_loading(entries, page).is_some() {
        return (WantSeen::Loading, hand);
    }
    if let Some(frame) = find_empty(entries) {
        entries[frame].start(page);
        return (WantSeen::Start(frame as u32), hand);
    }
    if !is_any_free(entries) {
        return (WantSeen::Again, hand);
    }
    let (taken, next) = turn(entries, hand, page);
    match taken {
        Some(frame) => (WantSeen::Start(frame as u32), next),
        None => (WantSeen::Again, next),
    }
}

/// The load of the page into this frame ended well.
pub(crate) fn finish(entries: &mut [Entry], frame: usize, page: u32) -> Placed
    requires { frame < length entries.old }
    ensures { (hand workers : ℕ) → made_ready frame page (record { entries = entries.old; hand = hand; workers = workers })
        ≡ record { answer = result; after = record { entries = entries.new; hand = hand; workers = workers } } }
{
    if !entries[frame].is_loading(page) {
        return Placed::Other(entries[frame].state);
    }
    entries[frame].finish(page);
    Placed::Done
}

/// The load of the page into this frame failed.
pub(crate) fn give_up(entries: &mut [Entry], frame: usize, page: u32) -> Placed
    requires { frame < length entries.old }
    ensures { (hand workers : ℕ) → failed frame page (record { entries = entries.old; hand = hand; workers = workers })
        ≡ record { answer = result; after = record { entries = entries.new; hand = hand; workers = workers } } }
{
    if !entries[frame].is_loading(page) {
        return Placed::Other(entries[frame].state);
    }
    entries[frame].empty();
    Placed::Done
}

/// A worker gives its pin back.
pub(crate) fn unpin(entries: &mut [Entry], worker: u32, frame: usize)
    requires worker { worker < 64 }
    requires frame { frame < length entries.old }
    ensures { (hand workers : ℕ) → unpinned worker frame (record { entries = entries.old; hand = hand; workers = workers })
        ≡ record { entries = entries.new; hand = hand; workers = workers } }
{
    entries[frame].unpin(worker);
}

/// A worker gives its pin back that found another page in the frame.
pub(crate) fn repair(entries: &mut [Entry], worker: u32, frame: usize)
    requires worker { worker < 64 }
    requires frame { frame < length entries.old }
    ensures { (hand workers : ℕ) → repaired worker frame (record { entries = entries.old; hand = hand; workers = workers })
        ≡ record { entries = entries.new; hand = hand; workers = workers } }
{
    entries[frame].repair(worker);
}
