//! A cache of an image's pages over its drives, which threads share.
//!
//! A worker asks for a page with its pass: it gets the page pinned, or learns that its load waits, and somebody serves
//! the page's drive. A page stands in the set of its number modulo the sets; each set has a lock round a directory,
//! each drive one round the queue of its loads and one round itself, and each frame a slot that shows its page to many
//! or takes another. What stands apart under these locks is tied by ledgers: what was pushed, taken, begun and repaired
//! sums to nothing over all of them, so that a closed cache knows how its reads are bounded.
//!
//! Below stand `fg_set` and `fg_queue` for each step of a set and a queue, `fg_cell` for locks and frames, `fg_books` for
//! the ledgers and `fg_stripe` for the places of pages. The crates above ask, serve and unpin from any number of threads.
#![tactic(auto)]

mod asked;
mod asking;
mod buffer;
mod cache;
mod closing;
mod counts;
mod gathering;
mod home;
mod joining;
mod ledgers;
mod opening;
mod pass;
mod pin;
mod queue_desk;
mod room;
mod served;
mod serving;
mod set_desk;
mod shape;
mod share;
mod shelf;
mod slips;
mod stock;
#[cfg(test)]
mod tests;
mod usage;
mod wanted;

pub use asked::{Asked, AskedPages, CacheName};
pub use cache::Cache;
pub use closing::Closed;
pub use pass::Pass;
pub use pin::Pin;
pub use served::Served;
pub use shape::Shape;
pub use slips::{FaultShare, RunRead};
pub use usage::Usage;
pub use wanted::Wanted;
