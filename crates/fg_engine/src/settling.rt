//! The answer of a run, when the drives are back.

ghost use Rattle.std.specs.Prelude.{◌≡◌, Err};
ghost use Rattle.fg_engine.specs.Settled.{failed_by, settled, unfailed};

use fg_model::{End, RunFault};

/// The answer of a run whose workers answered this, where this is the least drive that failed. A fault of a drive is what the drives'
/// counts say, and nothing else; but once the watch failed it stays, since nothing more can be told of the run.
pub(crate) fn settle(answer: Result<End, RunFault>, failed: Option<u32>) -> Result<End, RunFault>
    ensures { result ≡ settled answer failed }
{
    match failed {
        None => settle_unfailed(answer),
        Some(drive) => Err(settle_failed(answer, drive)),
    }
}

/// Where no drive failed.
fn settle_unfailed(answer: Result<End, RunFault>) -> Result<End, RunFault>
    ensures { result ≡ unfailed answer }
{
    match answer {
        Ok(end) => Ok(end),
        Err(fault) => match fault {
            RunFault::Memory | RunFault::Drive(_) => Err(RunFault::Memory),
            RunFault::BadEdge(bad) => Err(RunFault::BadEdge(bad)),
            RunFault::Watch => Err(RunFault::Watch),
        },
    }
}

/// Where this drive failed.
fn settle_failed(answer: Result<End, RunFault>, drive: u32) -> RunFault
    ensures { Err result ≡ failed_by answer drive }
{
    match answer {
        Ok(_) => RunFault::Drive(drive),
        Err(fault) => match fault {
            RunFault::Memory | RunFault::Drive(_) | RunFault::BadEdge(_) => RunFault::Drive(drive),
            RunFault::Watch => RunFault::Watch,
        },
    }
}
