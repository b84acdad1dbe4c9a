//! Runs into a sink whose flush fails, each in turn.

ghost use Rattle.std.specs.Prelude.{◌+◌, false};

use crate::test_calls::{EDGES, LEVELS, NO_DRIVE_FAILS, NONE, call, drive, is_text, words};
use crate::{drive_names, flash};
use fg_base::{Count, Failed};
use fg_outside::{MemDrive, MemSink, MemSource, Sink};
use std::alloc::Global;
use std::process::Abort;
use std::sync::Wait;
use std::test::Fail;
use std::thread::Threads;

/// A sink whose flushes put a byte into a sink of their own, some put of which fails.
#[derive(Drop)]
struct Flushed {
    text: MemSink,
    flushes: MemSink,
}

impl Sink for Flushed {
    ghost written = { λ sink. ⟦<MemSink as Sink>⟧.written sink.text };

    ghost keeps_back = { λ _. false };

    ghost faults = { λ sink. ⟦<MemSink as Sink>⟧.faults sink.text + ⟦<MemSink as Sink>⟧.faults sink.flushes };

    fn put(&mut self, bytes: &[u8]) -> Result<usize, Failed> {
        self.text.put(bytes)
    }

    fn flush(&mut self) -> Result<(), Failed> {
        match self.flushes.put(b".") {
            Ok(_) => Ok(()),
            Err(failed) => Err(failed),
        }
    }
}

/// Levels of the diamond.
fn built<R: Wait + Threads + Sync + Abort>(rt: &R, alloc: Global) -> Result<Vec<MemDrive>, Fail> {
    let mut empty = Vec::new(alloc);
    empty.push(drive(alloc, 0, 0, NO_DRIVE_FAILS)?)?;
    Ok(call(rt, alloc, "build D0", EDGES, empty, NONE)?.drives)
}

/// Does what the words of the line ask for, into a sink whose flush of this number fails, from 1. The answer is the status.
fn does<R: Wait + Threads + Sync + Abort>(
    rt: &R,
    alloc: Global,
    line: &str,
    fails: u32,
) -> Result<(u8, Flushed), Fail> {
    let words = words(alloc, line)?;
    let mut drives = built(rt, alloc)?;
    let names = drive_names(alloc, &words)?;
    assert!(rt; names.len() == drives.len(), "{line}");
    let mut source = MemSource::new(alloc, Vec::new(alloc), 1, Vec::new(alloc));
    let mut out = Flushed {
        text: MemSink::new(alloc, Vec::new(alloc)),
        flushes: MemSink::new(alloc, [fails].to_vec(alloc)?),
    };
    let mut tally = Count::new();
    let status = flash(
        rt,
        alloc,
        &words,
        &mut source,
        &mut drives,
        &mut out,
        &mut tally,
    );
    Ok((status, out))
}

/// How many iterations levels take. Behind each line the sink is flushed, and once more behind the last text.
const ITERATIONS: usize = 4;

#[test]
fn each_flush_fails(rt: HostRuntime) -> Result<(), Fail> {
    for line in [
        "run --program bfs --source 0 D0",
        "ref --program bfs --source 0 D0",
    ] {
        for fails in 1..=ITERATIONS {
            let (status, out) = does(&rt, rt.alloc(), line, fails as u32)?;
            assert_eq!(rt; status, 4, "{line}, flush {fails}");
            assert!(rt;
                is_text(out.text.written(), &LEVELS[..=fails]),
                "{line}, flush {fails}"
            );
        }
        let (status, out) = does(&rt, rt.alloc(), line, 5)?;
        assert_eq!(rt; status, 4, "{line}, the last flush");
        assert!(rt;
            is_text(out.text.written(), LEVELS),
            "{line}, the last flush"
        );
        let (status, out) = does(&rt, rt.alloc(), line, 6)?;
        assert_eq!(rt; status, 0, "{line}, no flush");
        assert!(rt; is_text(out.text.written(), LEVELS), "{line}, no flush");
    }
    Ok(())
}
