//! What a worker has to do for a block, and what comes of it.
//!
//! A [`Job`] is a segment of an active vertex's list, with the carry that the vertex's messages are made from. A [`TaskBook`] keeps
//! the jobs of a block by the pages that they wait for, and the function that runs them, which is stored with it. Whoever has the
//! bytes of a page gives them to [`TaskBook::run_on`], once for each page that [`TaskBook::pages`] names. A [`BlockResult`] is what
//! comes of all of it, and [`RunsBlock`] is whatever runs a block so for a worker.
//!
//! Below stand `fg_edges`, which says what a segment and its entries are, and `fg_batch`, into whose outbox the messages go.
#![tactic(auto)]

mod along;
mod block_result;
mod book;
mod counting;
mod group;
mod job;
mod least;
mod page_jobs;
mod running;
mod runs_block;
mod segment_run;
mod spent;
#[cfg(test)]
mod tests;

pub use along::Along;
pub use block_result::{BlockResult, WorkFault};
pub use book::TaskBook;
pub use job::{Job, Step};
pub use least::lesser;
pub use runs_block::RunsBlock;
pub use segment_run::SegmentRun;
pub use spent::Spent;
