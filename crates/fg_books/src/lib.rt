//! Ledgers whose number is known at run time: what stands apart under several locks is tied by amounts that sum to 0.
//!
//! A ledger is a set of shares, each with some of the ledger's parts and an amount, a whole number that may be
//! negative. All shares of a ledger together have its parts, and their amounts sum to 0. A `Lot` is a token that holds
//! at most one share of each ledger; contracts see it by `parts_of` and `amount_of`. It has no bytes, so its
//! numbers have no bound and take no room. A lot may be dropped: what it held is then never joined again.
//!
//! Below stands `atomic_table`: each call but `Books::new` is one or more loads of one word that never changes, so
//! none takes memory and none waits. The crates above keep a lot beside a value under its lock, pay between two
//! lots when a value changes, and learn from `known`, with all parts in hand, that two values agree.
#![tactic(auto)]

mod account;
mod books;
mod lot;
mod steps;
#[cfg(test)]
mod tests;

pub use account::Plan;
pub use books::Books;
pub use lot::Lot;
