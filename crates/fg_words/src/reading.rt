//! The words as `clap` reads them: COMMAND, the value of each option, and the drives.

ghost use Rattle.std.specs.Prelude.{◌≡◌, IfOk, length, map, option_map, string_bytes};
ghost use Rattle.clap.specs.Takes.{is_given};
ghost use Rattle.clap.specs.Words.{kind_of};
ghost use Rattle.fg_words.specs.Reading.{IsReading, command_in, drives_in, refusal_by, rows_in, value_of};

use crate::grammar::grammar;
use crate::jobs::JobFault;
use clap::error::ErrorKind;
use clap::parser::ValueSource;
use clap::{ArgMatches, Error};
use fg_base::{Memory, Opt, WordFault};
use std::alloc::Global;

/// Why the words aren't read: for want of memory, or since they have no reading.
fn refusal(error: &Error) -> JobFault
    ensures { result ≡ refusal_by (kind_of error.now) }
{
    match error.kind() {
        ErrorKind::OutOfMemory => JobFault::Memory,
        _ => JobFault::Words(WordFault::Parse),
    }
}

/// What stands in the words.
pub(crate) fn read<'a>(alloc: Global, words: &'a [String]) -> Result<ArgMatches<'a>, JobFault>
    ensures { IsReading (map string_bytes words.now) result }
{
    let command = grammar(alloc)?;
    match command.try_get_matches_from(words) {
        Ok(found) => Ok(found),
        Err(error) => Err(refusal(&error)),
    }
}

/// The word that stands in COMMAND's place.
pub(crate) fn command_in<'a>(found: &ArgMatches<'a>) -> Option<&'a str>
    ensures { option_map (λ word. word.now) result ≡ command_in (rows_in found.now) }
{
    found.get_str("command")
}

/// Whether the words have the option; a flag that they don't have is found with a default.
fn has_option(found: &ArgMatches<'_>, name: &str) -> bool
    ensures { result ≡ is_given name.now (rows_in found.now) }
{
    match found.value_source(name) {
        Some(ValueSource::CommandLine) => true,
        Some(ValueSource::DefaultValue) => false,
        None => found.contains_id(name),
    }
}

/// The option's value where it is there: some text for a flag, too.
pub(crate) fn value_of<'a>(found: &ArgMatches<'a>, option: Opt) -> Option<&'a str>
    ensures { option_map (λ value. value.now) result ≡ value_of option (rows_in found.now) }
{
    let name = option.name();
    if has_option(found, name) {
        found.get_str(name)
    } else {
        None
    }
}

/// How many drives are named.
pub(crate) fn count_drives(found: &ArgMatches<'_>) -> usize
    ensures { result ≡ length (drives_in (rows_in found.now)) }
{
    match found.get_strs("drive") {
        Some(names) => names.len(),
        None => 0,
    }
}

/// Copies of the texts.
fn copies(alloc: Global, texts: &[&str]) -> Result<Vec<String>, Memory>
    ensures { IfOk result (λ copies. map string_bytes copies.items
        ≡ map (λ text. text.now) texts.now) }
{
    let mut copies = Vec::new(alloc);
    for text in texts {
        copies.push(String::from_str(alloc, text)?)?;
    }
    Ok(copies)
}

/// The names of the drives, in their order.
pub(crate) fn drives_in(alloc: Global, found: &ArgMatches<'_>) -> Result<Vec<String>, Memory>
    ensures { IfOk result (λ names. map string_bytes names.items ≡ drives_in (rows_in found.now)) }
{
    match found.get_strs("drive") {
        Some(names) => copies(alloc, names),
        None => Ok(Vec::new(alloc)),
    }
}
