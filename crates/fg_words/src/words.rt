//! The calls of the words: the job, the drives, and the input.

ghost use Rattle.std.specs.Prelude.{◌≡◌, IfOk, length, map, option_map, string_bytes};
ghost use Rattle.fg_words.specs.Jobs.{HasDrives, JobFits};
ghost use Rattle.fg_words.specs.Reading.{rows_in};
ghost use Rattle.fg_words.specs.Words.{AreAccepted, IsJobOf, answer_of, input_of, names_of};

use crate::command::Command;
use crate::command_line::CommandLine;
use crate::jobs::{Job, JobFault};
use crate::reading::{command_in, drives_in, read, value_of};
use clap::ArgMatches;
use fg_base::{Memory, Opt, WordFault};
use std::alloc::Global;

/// What words ask for in which this stands, or what is wrong with them.
fn judge(found: &ArgMatches<'_>) -> Result<Job, WordFault>
    ensures { result ≡ answer_of (rows_in found.now) }
{
    let line = CommandLine::read(found);
    let Some(word) = command_in(found) else {
        return Err(WordFault::Command);
    };
    let Some(command) = Command::named(word) else {
        return Err(WordFault::Command);
    };
    if let Some(fault) = line.fault(command) {
        return Err(fault);
    }
    match line.job(command) {
        Some(job) => Ok(job),
        None => Err(WordFault::Range(Opt::Program)),
    }
}

/// What the words behind the program's name ask for. They are refused as `Parse` where they have no reading, as `Command`
/// where the command isn't known, and else by the first option that isn't taken, or that is missing, or whose value isn't
/// in its range.
pub fn job(alloc: Global, words: &Vec<String>) -> Result<Job, JobFault>
    ensures job { IsJobOf (map string_bytes words.now.items) result }
    ensures fits { IfOk result JobFits }
    ensures drives { IfOk result (λ job.
        HasDrives job (length (names_of (map string_bytes words.now.items)))) }
{
    let found = match read(alloc, words.as_slice()) {
        Ok(found) => found,
        Err(fault) => return Err(fault),
    };
    match judge(&found) {
        Ok(job) => Ok(job),
        Err(fault) => Err(JobFault::Words(fault)),
    }
}

/// What stands in the words, where they are accepted.
fn accepted<'a>(alloc: Global, words: &'a [String]) -> Result<Option<ArgMatches<'a>>, Memory>
    ensures { IfOk result (AreAccepted (map string_bytes words.now)) }
{
    let found = match read(alloc, words) {
        Ok(found) => found,
        Err(JobFault::Memory) => return Err(Memory),
        Err(JobFault::Words(_)) => return Ok(None),
    };
    match judge(&found) {
        Ok(_) => Ok(Some(found)),
        Err(_) => Ok(None),
    }
}

/// The names of the drives that an accepted job works on, from 1 to 16, and none where it names none or where the words are
/// refused.
pub fn drive_names(alloc: Global, words: &Vec<String>) -> Result<Vec<String>, Memory>
    ensures { IfOk result (λ names.
        map string_bytes names.items ≡ names_of (map string_bytes words.now.items)) }
{
    match accepted(alloc, words.as_slice())? {
        Some(found) => drives_in(alloc, &found),
        None => Ok(Vec::new(alloc)),
    }
}

/// The name of the file that an accepted job reads in place of the program's input: `None` where it names none, and where
/// the words are refused.
pub fn input_name(alloc: Global, words: &Vec<String>) -> Result<Option<String>, Memory>
    ensures { IfOk result (λ name.
        option_map string_bytes name ≡ input_of (map string_bytes words.now.items)) }
{
    let Some(found) = accepted(alloc, words.as_slice())? else {
        return Ok(None);
    };
    match value_of(&found, Opt::Input) {
        Some(name) => Ok(Some(String::from_str(alloc, name)?)),
        None => Ok(None),
    }
}
