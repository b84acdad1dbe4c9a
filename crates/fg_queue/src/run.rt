//! A run of loads, which one read of the drive serves.

ghost use Rattle.std.specs.Prelude.{◌≡◌, ◌<◌, length, slice_index_or};

use crate::load::Load;
use crate::queue::Queue;
use arrayvec::ArrayVec;
use std::marker::Model;
use std::snapshot::Snapshot;

/// At most 32 loads of consecutive local pages, which `Queue::take_run` took. Contracts see the loads and the queue that gave them,
/// as it was before.
#[derive(Drop)]
pub struct LoadRun {
    loads: ArrayVec<Load, 32>,
    queue: Snapshot<Queue>,
}

impl Model for LoadRun {
    ghost use Rattle.fg_queue.specs.Slips.{RunTaken};
    ghost use Rattle.fg_queue.specs.LoadRun.{IsRun};

    ghost Value = { RunTaken };

    ghost view = { λ run. record { loads = run.loads.items; queue = run.queue.value } };

    ghost invariant = { λ run. IsRun (record { loads = run.loads.items; queue = run.queue.value }) };
}

impl LoadRun {
    ghost use Rattle.fg_queue.specs.LoadRun.{IsRun, first_of};

    pub(crate) fn of(loads: ArrayVec<Load, 32>, queue: Snapshot<Queue>) -> LoadRun
        requires { IsRun (record { loads = loads.items; queue = queue.value }) }
        ensures { result ≡ record { loads = loads.items; queue = queue.value } }
    {
        LoadRun { loads, queue }
    }

    /// The local page with which the run begins.
    pub fn first(&self) -> u32
        ensures first { result ≡ first_of self.now.loads }
        ensures run { IsRun self.now }
    {
        self.loads[0].local
    }

    /// How many loads the run has, from 1 to 32.
    pub fn count(&self) -> u32
        ensures count { result ≡ length self.now.loads }
        ensures run { IsRun self.now }
    {
        self.loads.len() as u32
    }

    /// The load of the local page `first() + k`.
    pub fn load(&self, k: u32) -> Load
        requires { k < length self.now.loads }
        ensures load { result ≡ slice_index_or self.now.loads k result }
        ensures run { IsRun self.now }
    {
        self.loads[k as usize]
    }
}
