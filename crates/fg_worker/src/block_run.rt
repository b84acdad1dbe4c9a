//! A block while it is run.

use fg_base::BadEdge;
use fg_task::{SegmentRun, TaskBook};

/// The jobs of a block that still wait for their pages, and the least bad edge of those that were run.
#[derive(Drop)]
pub(crate) struct BlockRun<F: SegmentRun> {
    pub book: TaskBook<F>,
    pub least: Option<BadEdge>,
}
