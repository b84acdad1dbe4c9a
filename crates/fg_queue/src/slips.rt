//! The slips that a queue answers where it takes or gives nothing. Only its calls make them.

ghost use Rattle.std.specs.Prelude.{◌≡◌, ◌≤◌, [], length};

use crate::load::Load;
use crate::queue::Queue;
use std::marker::Model;
use std::snapshot::Snapshot;

/// The queue was full. Contracts see the load that it turned away and the queue, which stayed as it was.
#[derive(Drop)]
pub struct QueueFull {
    load: Load,
    queue: Snapshot<Queue>,
}

impl Model for QueueFull {
    ghost use Rattle.std.specs.Prelude.{◌≡◌, length};
    ghost use Rattle.fg_queue.specs.Slips.{TurnedAway};

    ghost Value = { TurnedAway };

    ghost view = { λ slip. record { load = slip.load; queue = slip.queue.value } };

    ghost invariant = { λ slip. length slip.queue.value.loads ≡ slip.queue.value.depth };
}

impl QueueFull {
    pub(crate) fn of(load: Load, queue: Snapshot<Queue>) -> QueueFull
        requires { length queue.value.loads ≡ queue.value.depth }
        ensures load { result.load ≡ load }
        ensures queue { result.queue ≡ queue.value }
    {
        QueueFull { load, queue }
    }

    /// The load that was turned away.
    pub fn load(self) -> Load
        ensures load { result ≡ self.load }
        ensures full { length self.queue.loads ≡ self.queue.depth }
    {
        self.load
    }
}

/// The queue was empty. Contracts see the queue.
#[derive(Drop)]
pub struct QueueEmpty {
    queue: Snapshot<Queue>,
}

impl Model for QueueEmpty {
    ghost use Rattle.std.specs.Prelude.{◌≡◌, []};
    ghost use Rattle.fg_queue.specs.LoadQueue.{LoadQueue};

    ghost Value = { LoadQueue };

    ghost view = { λ slip. slip.queue.value };

    ghost invariant = { λ slip. slip.queue.value.loads ≡ [] };
}

impl QueueEmpty {
    pub(crate) fn of(queue: Snapshot<Queue>) -> QueueEmpty
        requires { queue.value.loads ≡ [] }
        ensures { result ≡ queue.value }
    {
        QueueEmpty { queue }
    }
}
