//! The program `fg`: it does the job that its words ask for, on files, and ends with the job's status.
#![tactic(auto)]

ghost use Rattle.std.specs.Prelude.{◌≡◌, IfOk, length, vec_len};

use fg_base::{Count, Memory};
use fg_outside::{FileDrive, StdSink, StdSource};
use fg_top::{Job, JobFault, drive_names, flash, input_name, job};
use std::alloc::Global;
use std::fs::File;
use std::io::{Input, StdinLock};
use std::process::ExitCode;
use std::rt::Files;
use std::{env, io};

/// The status for want of memory before the job began; nothing is printed then.
const NO_MEMORY: u8 = 1;

fn main(rt: HostRuntime) -> ExitCode {
    let alloc = rt.alloc();
    let Ok(words) = read_words(&rt, alloc) else {
        return ExitCode::from(NO_MEMORY);
    };
    let Ok(names) = drive_names(alloc, &words) else {
        return ExitCode::from(NO_MEMORY);
    };
    let Ok(input) = input_name(alloc, &words) else {
        return ExitCode::from(NO_MEMORY);
    };
    let builds = match job(alloc, &words) {
        Err(JobFault::Memory) => return ExitCode::from(NO_MEMORY),
        asked => matches!(asked, Ok(Job::Build { .. })),
    };
    let Ok(mut drives) = open_drives(&rt, alloc, &names, builds) else {
        return ExitCode::from(NO_MEMORY);
    };
    let Ok(mut out) = StdSink::stdout(&rt, alloc) else {
        return ExitCode::from(NO_MEMORY);
    };
    let mut input = open_input(&rt, input);
    let mut tally = Count::new();
    let status = flash(
        &rt,
        alloc,
        &words,
        &mut input,
        &mut drives,
        &mut out,
        &mut tally,
    );
    ExitCode::from(status)
}

/// The words after the program's name. A word that isn't UTF-8 makes them unreadable as a whole: no words then.
fn read_words(rt: &HostRuntime, alloc: Global) -> Result<Vec<String>, Memory> {
    let mut words = Vec::new(alloc);
    match env::args(rt) {
        Ok(args) => {
            for word in args.skip(1) {
                words.push(word)?;
            }
            Ok(words)
        }
        Err(error) if error.kind() == io::ErrorKind::OutOfMemory => Err(Memory),
        Err(_) => Ok(words),
    }
}

/// The drives of these names, opened for reading alone, or made where they are absent and opened for appending too.
fn open_drives<R: Files<File = File>>(
    rt: &R,
    alloc: Global,
    names: &Vec<String>,
    create: bool,
) -> Result<Vec<FileDrive>, Memory>
    ensures { IfOk result (λ drives. vec_len drives ≡ vec_len names.now) }
{
    let mut drives = Vec::new(alloc);
    for name in names {
        drives.push(FileDrive::named(rt, name.as_str(), create))?;
    }
    Ok(drives)
}

/// The file of this name as the input, or standard input where there is no name.
fn open_input<R: Files<File = File> + Input<Reader = StdinLock<'static>>>(
    rt: &R,
    name: Option<String>,
) -> StdSource {
    match name {
        Some(name) => StdSource::file(rt, name.as_str()),
        None => StdSource::stdin(rt),
    }
}
