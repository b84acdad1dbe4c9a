//! How the tests call `flash`: by a line of words, over drives, a source and a sink in memory, of which some call fails.

use crate::{drive_names, flash};
use fg_base::Count;
use fg_outside::{Drive, DriveOp, MemDrive, MemSink, MemSource, Read};
use std::alloc::{AllocError, Global};
use std::process::Abort;
use std::sync::Wait;
use std::test::Fail;
use std::thread::Threads;

/// The lines of a text, each with its end.
pub(crate) type Lines = &'static [&'static str];

/// The reads of a drive in order: the first page of each, and how many.
pub(crate) type Log = &'static [(u32, u32)];

/// A call of a drive that fails: the drive's number, the call, and which of these calls, from 1; 0 is none.
pub(crate) type DriveFails = (usize, DriveOp, u32);

pub(crate) const NO_DRIVE_FAILS: DriveFails = (0, DriveOp::Pages, 0);

/// The calls of the source and of the sink that fail, from 1; 0 is none.
#[derive(Clone, Copy)]
pub(crate) struct Fails {
    pub(crate) take: u32,
    pub(crate) put: u32,
}

pub(crate) const NONE: Fails = Fails { take: 0, put: 0 };

/// What a job left: how many bytes of its input, and the runs and the entries of its tally, among others.
#[derive(Drop)]
pub(crate) struct Left<D: Drive> {
    pub(crate) status: u8,
    pub(crate) text: MemSink,
    pub(crate) input: usize,
    pub(crate) drives: Vec<D>,
    pub(crate) tally: (u64, u64),
}

/// The edges of the diamond, whose five vertices are so: 0 leads to 1 and 2, both lead to 3, and 3 leads to 4.
pub(crate) const EDGES: &str = "0 1\n0 2\n1 3\n2 3\n3 4\n";

/// The first lines of levels from vertex 0, on these edges.
pub(crate) const LEVELS_HEAD: &str = "program bfs vertices 5 out 5 in 5\n";

pub(crate) const LEVELS_FIRST: &str = "iteration 0 phase 0 active 1 messages 2\n";

/// Their whole text.
pub(crate) const LEVELS: Lines = &[
    LEVELS_HEAD,
    LEVELS_FIRST,
    "iteration 1 phase 0 active 2 messages 2\n",
    "iteration 2 phase 0 active 1 messages 1\n",
    "iteration 3 phase 0 active 1 messages 0\n",
    "settled 4\n",
    "0 0\n",
    "1 1\n",
    "2 1\n",
    "3 2\n",
    "4 3\n",
];

/// The first lines of components.
pub(crate) const COMPONENTS_HEAD: &str = "program wcc vertices 5 out 5 in 5\n";

pub(crate) const COMPONENTS_FIRST: &str = "iteration 0 phase 0 active 5 messages 10\n";

pub(crate) const COMPONENTS_SECOND: &str = "iteration 1 phase 0 active 4 messages 8\n";

/// Their whole text.
pub(crate) const COMPONENTS: Lines = &[
    COMPONENTS_HEAD,
    COMPONENTS_FIRST,
    COMPONENTS_SECOND,
    "iteration 2 phase 0 active 2 messages 4\n",
    "iteration 3 phase 0 active 1 messages 1\n",
    "settled 4\n",
    "0 0\n1 0\n2 0\n3 0\n4 0\n",
];

/// The words of a line, between single spaces.
pub(crate) fn words(alloc: Global, line: &str) -> Result<Vec<String>, AllocError> {
    let mut words = Vec::new(alloc);
    for word in line.split(' ') {
        words.push(String::from_str(alloc, word)?)?;
    }
    Ok(words)
}

/// The drive of this number, which holds so many bytes.
pub(crate) fn drive(
    alloc: Global,
    number: usize,
    bytes: u16,
    fails: DriveFails,
) -> Result<MemDrive, Fail> {
    let (failing, op, call) = fails;
    let call = if number == failing { call } else { 0 };
    let bytes = vec![in alloc; 7; bytes as usize]?;
    Ok(MemDrive::new(alloc, bytes, [(op, call)].to_vec(alloc)?))
}

/// Does what the words of the line ask for. The input comes byte by byte.
pub(crate) fn call<R: Wait + Threads + Sync + Abort, D: Drive + Send>(
    rt: &R,
    alloc: Global,
    line: &str,
    input: &str,
    drives: Vec<D>,
    fails: Fails,
) -> Result<Left<D>, Fail> {
    let words = words(alloc, line)?;
    let mut drives = drives;
    let names = drive_names(alloc, &words)?;
    assert!(rt; names.len() == drives.len(), "{line}");
    let bytes = input.as_bytes().to_vec(alloc)?;
    let mut source = MemSource::new(alloc, bytes, 1, [fails.take].to_vec(alloc)?);
    let mut text = MemSink::new(alloc, [fails.put].to_vec(alloc)?);
    let mut tally = Count::new();
    let status = flash(
        rt,
        alloc,
        &words,
        &mut source,
        &mut drives,
        &mut text,
        &mut tally,
    );
    Ok(Left {
        status,
        text,
        input: source.left().len(),
        drives,
        tally: (tally.runs(), tally.entries()),
    })
}

/// Whether these lines are the text, one behind the other.
pub(crate) fn is_text(text: &[u8], lines: &[&str]) -> bool {
    let mut rest = text;
    for line in lines {
        let Some(behind) = rest.strip_prefix(line.as_bytes()) else {
            return false;
        };
        rest = behind;
    }
    rest.is_empty()
}

/// The job of the line left this status and this text.
pub(crate) fn ends<R: Abort, D: Drive>(
    rt: &R,
    line: &str,
    left: &Left<D>,
    status: u8,
    lines: &[&str],
) {
    assert_eq!(rt; left.status, status, "{line}");
    assert!(rt; is_text(left.text.written(), lines), "{line}");
}

/// Whether these are the reads of the log.
pub(crate) fn is_log(log: &[Read], want: &[(u32, u32)]) -> bool {
    let mut rest = want;
    for read in log {
        let Some(((first, count), behind)) = rest.split_first() else {
            return false;
        };
        if read.first != *first || read.count != *count {
            return false;
        }
        rest = behind;
    }
    rest.is_empty()
}
