//! A program of one's own: for each vertex the greatest one from which a walk leads to it, by the definitions in `specs/`.
//!
//! `Greatest` stands on `fg_base`, `fg_model` and the walks of `fg_walks` alone, and whatever runs a `Program` runs it. `run_greatest`
//! runs it over drives, through `fg_engine`. What its values mean is said over walks alone, in `Reaching`.
#![tactic(auto)]

mod greatest;
mod running;
#[cfg(test)]
mod tests;

pub use greatest::Greatest;
pub use running::run_greatest;
