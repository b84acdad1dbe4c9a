//! The program that ranks vertices, by the definition in `specs/`.
//!
//! Below stand `fg_base` and `fg_model`. Above, a run of `Rank` gives each vertex its rank and what it hasn't sent on yet.
#![tactic(auto)]

mod rank;

pub use rank::Rank;
