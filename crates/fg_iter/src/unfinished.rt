//! Why an iteration wasn't finished.

use fg_base::BadEdge;
use fg_task::WorkFault;

/// Why an iteration wasn't finished.
#[derive(Drop)]
pub(crate) enum Unfinished<F: Drop> {
    Memory,
    /// What runs blocks failed.
    Fault(F),
    /// A needed entry leads to no vertex: the first such.
    BadEdge(BadEdge),
}

impl<F: Drop> From<WorkFault<F>> for Unfinished<F> {
    ghost use Rattle.std.specs.Prelude.{◌≡◌};
    ghost use Rattle.fg_iter.specs.Start.{unfinished_of};

    ghost from_gives = { λ of unfinished. unfinished ≡ unfinished_of of };

    fn from(of: WorkFault<F>) -> Unfinished<F> {
        match of {
            WorkFault::Memory => Unfinished::Memory,
            WorkFault::Fault(fault) => Unfinished::Fault(fault),
        }
    }
}
