//! The words of the command line: the job that they ask for, or what is wrong with them, the drives that they name, and
//! the file that they name as the input.
//!
//! Below stand `fg_base`, for the options and the faults, and `clap`, which reads the words by one stated command. What
//! `clap` finds for that command is the definition of what words say (`specs/Grammar.antt`, `specs/Reading.antt`); which
//! options a command takes and needs, their ranges, and in which order faults are looked for stands in
//! `specs/CommandLine.antt`, and what the words ask for in `specs/Words.antt`. Above, the top call asks for the job and
//! the program for the drives and the input.
#![tactic(auto)]

mod command;
mod command_line;
mod grammar;
mod jobs;
mod number;
mod options;
mod reading;
mod said;
#[cfg(test)]
mod tests;
mod words;

pub use jobs::{Job, JobFault, Pick, Recipe};
pub use words::{drive_names, input_name, job};
