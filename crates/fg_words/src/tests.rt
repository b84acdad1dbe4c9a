//! The built calls on words: what is computed from the definition is what they answer.

use crate::{Job, JobFault, Pick, drive_names, input_name, job};
use fg_base::{Opt, WordFault};
use std::alloc::{AllocError, Global};
use std::test::Fail;

/// The words of a line, between single spaces.
fn words(alloc: Global, line: &str) -> Result<Vec<String>, AllocError> {
    let mut words = Vec::new(alloc);
    for word in line.split(' ') {
        words.push(String::from_str(alloc, word)?)?;
    }
    Ok(words)
}

const RUN: Job = Job::Run {
    pick: Pick::Bfs(0),
    max: u32::MAX,
    each: false,
    quiet: false,
    workers: 4,
    sets: 64,
    ways: 8,
    depth: 64,
    shift: 10,
    helpers: false,
    stats: false,
};

#[test]
fn takes_both_forms_of_an_option_on_either_side_of_a_drive(rt: HostRuntime) -> Result<(), Fail> {
    let line = words(rt.alloc(), "run --source=0 D0 --program bfs -- -D1")?;
    assert_eq!(rt; job(rt.alloc(), &line), Ok(RUN));
    let names = drive_names(rt.alloc(), &line)?;
    assert_eq!(rt; names.len(), 2);
    assert_eq!(rt; names[0].as_str(), "D0");
    assert_eq!(rt; names[1].as_str(), "-D1");
    assert_eq!(rt; input_name(rt.alloc(), &line)?.is_none(), true);
    Ok(())
}

#[test]
fn takes_what_is_said_of_the_engine(rt: HostRuntime) -> Result<(), Fail> {
    let words_of_run =
        "run --shift 2 --depth=3 --helpers --ways 5 --stats --program wcc --sets=7 --workers 11 D";
    let line = words(rt.alloc(), words_of_run)?;
    let asked = Job::Run {
        pick: Pick::Wcc,
        max: u32::MAX,
        each: false,
        quiet: false,
        workers: 11,
        sets: 7,
        ways: 5,
        depth: 3,
        shift: 2,
        helpers: true,
        stats: true,
    };
    assert_eq!(rt; job(rt.alloc(), &line), Ok(asked));
    Ok(())
}

#[test]
fn names_the_input_of_an_accepted_build(rt: HostRuntime) -> Result<(), Fail> {
    let line = words(rt.alloc(), "build D --input=--unit --undirected")?;
    let asked = Job::Build {
        unit: 16,
        number: 0,
        undirected: true,
    };
    assert_eq!(rt; job(rt.alloc(), &line), Ok(asked));
    assert_eq!(rt; input_name(rt.alloc(), &line)?.as_deref(), Some("--unit"));
    Ok(())
}

#[test]
fn refuses_with_the_cause(rt: HostRuntime) -> Result<(), Fail> {
    let rows = [
        ("run --each --each D", WordFault::Parse),
        ("walk D", WordFault::Command),
        (
            "run --program wcc --source 0 D0",
            WordFault::Extra(Opt::Source),
        ),
        ("check", WordFault::Missing(Opt::Drive)),
        ("build --unit 257 D", WordFault::Range(Opt::Unit)),
        ("check --helpers D", WordFault::Extra(Opt::Helpers)),
        ("ref --stats --program wcc D", WordFault::Extra(Opt::Stats)),
        (
            "run --program wcc --sets 262144 --ways 17 D",
            WordFault::Range(Opt::Sets),
        ),
        (
            "run --program wcc --sets 1 --ways 99999999999999999999 D",
            WordFault::Range(Opt::Sets),
        ),
        ("run --program wcc --ways 17 D", WordFault::Range(Opt::Ways)),
    ];
    for (line, fault) in rows {
        let line = words(rt.alloc(), line)?;
        assert_eq!(rt; job(rt.alloc(), &line), Err(JobFault::Words(fault)));
        assert_eq!(rt; drive_names(rt.alloc(), &line)?.len(), 0);
        assert_eq!(rt; input_name(rt.alloc(), &line)?.is_none(), true);
    }
    Ok(())
}

/// With an allocation that fails the answer is want of memory, and never that the words are wrong.
#[test]
fn is_never_wrong_for_want_of_memory(rt: HostRuntime) -> Result<(), Fail> {
    let line = words(rt.alloc(), "check D0 D1 D2")?;
    let asked = job(rt.alloc(), &line);
    assert!(rt; matches!(asked, Ok(Job::Check) | Err(JobFault::Memory)));
    Ok(())
}
