//! What a worker does for a block of an iteration, over the page cache.
//!
//! A [`Desk`] is what all workers of an iteration share: the program, the cache of the image and where its lists stand, the blocks, and
//! the states. A [`Hand`] is what one of them keeps: its pass at the cache, its outbox and its tally. A desk runs a block (`RunsBlock`)
//! in two halves: the block's active vertices begin, which leaves a job for each stretch of their needed lists, and then the pages that
//! the jobs wait for are visited, up to 32 of them outstanding at once, in whatever order they come.
//!
//! Below stand `fg_task`, which says what a block's result is, `fg_cache`, which has the pages, and `fg_edges`, which says where a list
//! stands on them. Above, `fg_crew` has many workers run the blocks of a wave.
#![tactic(auto)]

mod adding;
mod beginning;
mod block_run;
mod desk;
mod hand;
mod result;
mod rounds;
mod serving;
#[cfg(test)]
mod tests;
mod visiting;

pub use desk::Desk;
pub use hand::Hand;
