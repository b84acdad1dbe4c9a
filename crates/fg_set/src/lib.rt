//! One page set of the cache: which pages its frames hold, and who has them pinned. Pure: no lock, no thread and no page is here.
//!
//! A `Directory` has an entry for each frame of the set. A worker that wants a page gets the frame, pinned (`Hit`), or is to load the
//! page into a frame (`Start`), or learns that the page is under way or that all frames are held; then it comes again. A clock picks
//! the frame that a new page takes. `specs/DirectoryStep` says what each call answers and makes of the directory, `specs/PageSet`
//! what holds at every moment, `specs/Change` and `specs/Slips` what an answer tells.
//!
//! It stands on `fg_base` alone. The crates above put a `Directory` behind the set's lock, and take a slip (`UnderWay`, `AllHeld`)
//! for what the call that made it saw: nobody else can make one.
#![tactic(auto)]

mod answers;
mod directory;
mod entry;
mod lookup;
mod pins;
mod slips;
#[cfg(test)]
mod tests;

pub use answers::{Placed, Want, WantSeen};
pub use directory::Directory;
pub use entry::{Entry, EntryState};
pub use pins::PinBits;
pub use slips::{AllHeld, UnderWay};
