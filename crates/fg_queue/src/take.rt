//! How a run is taken out of a queue: one pass finds the oldest load of each local page of the window, one closes the gaps.

ghost use Rattle.std.specs.Prelude.{◌≡◌, ℕ, ◌+◌, ◌-◌, ◌<◌, ◌≤◌, ◌↔◌, IsTrue, true, false, Some, None, if◌then◌else◌};
ghost use Rattle.std.specs.Prelude.{length, slice_index_or, find, vec_len, vec_capacity};
ghost use Rattle.std.specs.Option.{option_or};
ghost use Rattle.fg_queue.specs.QueueStep.{is_of, run_from, rest_after};

use crate::load::Load;
use arrayvec::ArrayVec;

/// Notes a load where it is the first of its local page that comes.
fn note(oldest: &mut [Option<Load>], first: u32, load: Load)
    requires { length oldest.old ≡ 32 }
    ensures { (k : ℕ) → k < 32 → slice_index_or oldest.new k None
        ≡ option_or (slice_index_or oldest.old k None) (if is_of (first + k) load then Some load else None) }
{
    if load.local < first || load.local - first >= 32 {
        return;
    }
    let place = (load.local - first) as usize;
    if oldest[place].is_none() {
        oldest[place] = Some(load);
    }
}

/// Of each of the 32 local pages from `first` on the oldest load.
fn oldest_loads(loads: &[Load], first: u32) -> [Option<Load>; 32]
    ensures { (k : ℕ) → k < 32 → slice_index_or result k None ≡ find (is_of (first + k)) loads.now }
{
    let mut oldest = [None; 32];
    for load in loads {
        note(&mut oldest, first, *load);
    }
    oldest
}

/// The run that begins with the local page `first`.
pub(crate) fn collect_run(loads: &[Load], first: u32) -> ArrayVec<Load, 32>
    ensures { result.items ≡ run_from 32 first loads.now }
{
    let oldest = oldest_loads(loads, first);
    let mut run = ArrayVec::new();
    for place in 0..32 {
        match oldest[place] {
            Some(load) => run.push(load),
            None => break,
        }
    }
    run
}

/// Whether the oldest load of this local page is still to be taken out.
fn is_due(due: &[bool; 32], first: u32, local: u32) -> bool
    ensures due { IsTrue result ↔ ((first ≤ local) × (slice_index_or due.now (local - first) false ≡ true)) }
    ensures within { IsTrue result → local - first < 32 }
{
    local >= first && local - first < 32 && due[(local - first) as usize]
}

/// Takes the run of `count` loads out that begins with the local page `first`.
pub(crate) fn remove_run(loads: &mut Vec<Load>, first: u32, count: usize)
    requires run { count ≡ length (run_from 32 first loads.old.items) }
    requires few { count ≤ 32 }
    ensures items { loads.new.items ≡ rest_after (run_from 32 first loads.old.items) loads.old.items }
    ensures len { vec_len loads.new ≤ vec_len loads.old }
    ensures capacity { vec_capacity loads.new ≡ vec_capacity loads.old }
{
    let mut due = [false; 32];
    for place in (0..count).rev() {
        due[place] = true;
    }
    let mut kept = 0;
    for next in 0..loads.len() {
        let load = loads[next];
        if is_due(&due, first, load.local) {
            due[(load.local - first) as usize] = false;
        } else {
            loads[kept] = load;
            kept += 1;
        }
    }
    loads.truncate(kept);
}
