//! Drives that hold an image together: building it over them, opening them, and reading the image.
//!
//! Below stand the drives of the outside, their labels and striping, and the image with its header and index. What builds
//! an image looks first whether its drives are empty; what runs on one opens its drives here, and knows them by what opening
//! answered.
#![tactic(auto)]

mod appending;
mod building;
mod front;
mod labels;
mod opened;
mod opening;
mod pages;
mod reading;
pub mod sample;
#[cfg(test)]
mod tests;

pub use building::{build, empty};
pub use opened::Opened;
pub use opening::open;
pub use reading::read_all;
