//! The queue of a drive.

ghost use Rattle.std.specs.Prelude.{◌≡◌, ◌++◌, ◌∷◌, [], ◌<◌, ◌≤◌, ◌↔◌, length, IfOk, IfErr, OnOk, OnErr, IsErr, IsPermutation};

use crate::load::Load;
use crate::run::LoadRun;
use crate::slips::{QueueEmpty, QueueFull};
use crate::take::{collect_run, remove_run};
use fg_base::Memory;
use std::alloc::Global;
use std::marker::Model;
use std::snapshot::Snapshot;

/// The loads that wait for one drive, the oldest first. Contracts see the list of the loads, and how many may wait. Only `new` takes
/// memory.
#[derive(Drop)]
pub struct Queue {
    loads: Vec<Load>,
    depth: u32,
}

impl Model for Queue {
    ghost use Rattle.std.specs.Prelude.{◌≤◌, length, vec_capacity, vec_len};
    ghost use Rattle.fg_queue.specs.LoadQueue.{LoadQueue};

    ghost Value = { LoadQueue };

    ghost view = { λ queue. record { depth = queue.depth; loads = queue.loads.items } };

    ghost invariant = { λ queue. (vec_len queue.loads ≤ queue.depth) × (queue.depth ≤ vec_capacity queue.loads) };
}

impl Queue {
    ghost use Rattle.fg_queue.specs.QueueStep.{pushed, run_of, after_run};
    ghost use Rattle.fg_queue.specs.LoadRun.{IsRun};

    /// An empty queue in which `depth` loads may wait.
    pub fn new(alloc: Global, depth: u32) -> Result<Queue, Memory>
        ensures { IfOk result (λ queue. queue ≡ record { depth = depth; loads = [] }) }
    {
        Ok(Queue {
            loads: Vec::with_capacity(alloc, depth as usize)?,
            depth,
        })
    }

    /// How many loads may wait.
    pub fn depth(&self) -> u32
        ensures depth { result ≡ self.now.depth }
        ensures within { length self.now.loads ≤ self.now.depth }
    {
        self.depth
    }

    /// Puts a load behind all others. Where as many wait as may, the slip gives the load back and the queue stays as it was. The cost
    /// is constant.
    pub fn push(&mut self, load: Load) -> Result<(), QueueFull>
        ensures after { self.new ≡ pushed load self.old }
        ensures ok { OnOk result (self.new ≡ record self.old { loads = self.old.loads ++ load ∷ [] }) }
        ensures full_exactly { IsErr result ↔ (length self.old.loads ≡ self.old.depth) }
        ensures slip { IfErr result (λ slip. slip ≡ record { load = load; queue = self.old }) }
        ensures err { OnErr result (self.new ≡ self.old) }
        ensures within { length self.new.loads ≤ self.new.depth }
    {
        if self.loads.len() == self.depth as usize {
            return Err(QueueFull::of(load, Snapshot::of(self)));
        }
        self.loads.push_reserved(load);
        Ok(())
    }

    /// Takes the oldest load, and of each next local page the oldest load, as long as there is one, and 32 loads at most. The rest
    /// keeps its order. The cost is that of two passes over the queue and one over the run.
    pub fn take_run(&mut self) -> Result<LoadRun, QueueEmpty>
        ensures after { self.new ≡ after_run self.old }
        ensures run { IfOk result (λ run. run ≡ record { loads = run_of self.old.loads; queue = self.old }) }
        ensures is_run { IfOk result IsRun }
        ensures all { IfOk result (λ run. IsPermutation self.old.loads (run.loads ++ self.new.loads)) }
        ensures empty_exactly { IsErr result ↔ (self.old.loads ≡ []) }
        ensures slip { IfErr result (λ slip. slip ≡ self.old) }
        ensures err { OnErr result (self.new ≡ self.old) }
        ensures within { length self.new.loads ≤ self.new.depth }
    {
        let queue = Snapshot::of(self);
        let Some(oldest) = self.loads.first() else {
            return Err(QueueEmpty::of(queue));
        };
        let first = oldest.local;
        let run = collect_run(&self.loads, first);
        remove_run(&mut self.loads, first, run.len());
        Ok(LoadRun::of(run, queue))
    }
}
