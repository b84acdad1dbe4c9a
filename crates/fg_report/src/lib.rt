//! The printed text: the lines of a run, of values, of their sum and of refusals, exact to the byte.
//!
//! It stands on the base, the outside and the model. Above, a run and every refusal write their text through these calls alone.
#![tactic(auto)]

mod line;
mod lines;
mod refusals;
mod report_watch;
mod sum;
#[cfg(test)]
mod tests;
mod values;

pub use lines::{write_end, write_head, write_stats};
pub use refusals::write_refusal;
pub use report_watch::ReportWatch;
pub use sum::write_sum;
pub use values::write_values;
