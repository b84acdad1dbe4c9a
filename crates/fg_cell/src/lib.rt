//! Locks and page frames that carry a name: what comes out of one fits the name that was fixed when it was made.
//!
//! A name is data that contracts see beside a value that threads share, as the pages of an image beside a frame. It
//! takes no room and no time. Whoever puts a value in shows that it fits the name, and whoever takes it out knows so;
//! nothing else is known of a value that other threads may change.
//!
//! Below stands `counted_slot`: one word and one value in place. `Named` is a lock round one value. What it lends,
//! `Held`, can't be dropped, so it has to be given back. `Frame` holds one page that many threads may be shown while
//! none swaps it; what it shows, `Shown`, has to be given back too. The crates above put a ledger's lot beside a
//! locked value where one lock has to agree with another.
#![tactic(auto)]

mod fit;
mod frame;
mod held;
mod image;
mod named;
mod page;
#[cfg(test)]
mod tests;
mod veiled;

pub use fit::Fit;
pub use frame::{Frame, Shown};
pub use held::Held;
pub use image::{Image, ImageName};
pub use named::Named;
pub use page::PageBuf;
