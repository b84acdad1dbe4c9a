//! What a cache answers who serves a drive.

use crate::slips::{FaultShare, RunRead};
use fg_queue::QueueEmpty;

/// The answer of `Cache::serve`.
#[derive(Drop)]
pub enum Served {
    /// A run of loads was read, and their pages stand in their frames.
    Pages(RunRead),
    /// No load waited for the drive.
    Idle(QueueEmpty),
    /// The drive failed, and the loads were given up.
    Fault(FaultShare),
}
