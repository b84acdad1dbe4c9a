//! The one command by which `clap` reads the words: COMMAND, the options, and the drives.

ghost use Rattle.std.specs.Prelude.{◌≡◌, IfOk, false, fold};
ghost use Rattle.clap.specs.Words.{app_of, rule_of, with_rule};
ghost use Rattle.fg_words.specs.Grammar.{bare, command_rule, drive_rule, grammar, option_rule, with_option};

use crate::options::{is_flag, named_options};
use clap::{Arg, ArgAction, Command};
use fg_base::Opt;
use std::alloc::{AllocError, Global};

/// The command without an argument, whose words begin behind the program's name, and which has no flag of its own for
/// help or for a version.
fn bare<'a>(alloc: Global) -> Command<'a>
    ensures { app_of result ≡ bare }
{
    Command::new(alloc, "fg")
        .no_binary_name(true)
        .disable_help_flag(true)
        .disable_version_flag(true)
}

/// COMMAND, which is required.
fn command_argument<'a>(alloc: Global) -> Arg<'a>
    ensures rule { rule_of result ≡ command_rule }
    ensures local { result.global ≡ false }
{
    Arg::new(alloc, "command")
        .required(true)
        .action(ArgAction::Set)
}

/// The option as an argument: a flag, or one with a value, that isn't looked at yet.
fn option_argument<'a>(alloc: Global, option: Opt) -> Arg<'a>
    ensures rule { rule_of result ≡ option_rule option }
    ensures local { result.global ≡ false }
{
    let name: &'a str = option.name();
    let action = if is_flag(option) {
        ArgAction::SetTrue
    } else {
        ArgAction::Set
    };
    Arg::new(alloc, name).long(name).action(action)
}

/// The drives, of which there may be any number, on either side of an option.
fn drive_argument<'a>(alloc: Global) -> Arg<'a>
    ensures rule { rule_of result ≡ drive_rule }
    ensures local { result.global ≡ false }
{
    Arg::new(alloc, "drive")
        .num_args(0..)
        .action(ArgAction::Append)
}

/// The command with one more argument.
fn with<'a>(command: Command<'a>, argument: Arg<'a>) -> Result<Command<'a>, AllocError>
    requires { argument.global ≡ false }
    ensures { IfOk result (λ r.
        app_of r ≡ with_rule (app_of command.entry) (rule_of argument.entry)) }
{
    command.arg(argument)
}

/// The command with these options behind its arguments.
fn with_options<'a>(
    alloc: Global,
    command: Command<'a>,
    options: &[Opt],
) -> Result<Command<'a>, AllocError>
    ensures { IfOk result (λ r. app_of r ≡ fold with_option (app_of command.entry) options.now) }
{
    let mut command = command;
    for option in options {
        command = with(command, option_argument(alloc, *option))?;
    }
    Ok(command)
}

/// The command by which the words are read.
pub(crate) fn grammar<'a>(alloc: Global) -> Result<Command<'a>, AllocError>
    ensures { IfOk result (λ command. app_of command ≡ grammar) }
{
    let command = with(bare(alloc), command_argument(alloc))?;
    let command = with_options(alloc, command, named_options())?;
    with(command, drive_argument(alloc))
}
