//! Blocks of a small graph, run over caches of few frames and of many.

ghost use Rattle.std.specs.Prelude.{◌≡◌, ℕ, ◌<◌, None, IfOk, false, length, sum};
ghost use Rattle.std.specs.List.{Contains, range_with_len};
ghost use Rattle.fg_cache.specs.Pass.{IsPassOf};
ghost use Rattle.fg_cache.specs.Site.{asked_pages};
ghost use Rattle.fg_model.specs.Iteration.{AreStates};

use crate::{Desk, Hand};
use fg_base::limits::PAGE_BYTES;
use fg_base::{BadEdge, Count, Dir, VState};
use fg_batch::Outbox;
use fg_cache::{AskedPages, Cache, CacheName, Pass, Shape};
use fg_cell::ImageName;
use fg_comps::Wcc;
use fg_index::Index;
use fg_outside::{Drive, DriveOp, MemDrive};
use fg_part::PartMap;
use fg_stripe::Layout;
use fg_task::{BlockResult, RunsBlock, WorkFault};
use std::alloc::{AllocError, Global};
use std::marker::Brand;
use std::sync::Wait;
use std::test::Fail;

/// The edges of the graph, of five vertices, but for those that lead from vertex 4.
const EDGES: [(u32, u32); 5] = [(0, 1), (0, 2), (1, 3), (2, 3), (3, 4)];

/// The targets of the out-lists of the vertices below 4, one behind the other, and of the in-lists.
const OUTS: [u8; 5] = [1, 2, 3, 3, 4];

const INS: [u8; 5] = [0, 0, 1, 2, 3];

/// So many edges lead from vertex 4 to vertex 0, which has none of them on its in-list. They fill 36 pages.
const LONG: u32 = 36_864;

/// The index: the out-degrees 2, 1, 1, 1 and a long one, which stands behind them, and the in-degrees 0, 1, 1, 2 and 1.
const INDEX: [u8; 26] = [
    2, 1, 1, 1, 255, 1, 0, 0, 0, 4, 0, 0, 0, 0, 144, 0, 0, 0, 1, 1, 2, 1, 0, 0, 0, 0,
];

/// The bytes of the drive: its label, the header, 37 pages of out-lists, one of in-lists and one of the index.
const DRIVE_BYTES: usize = 41 * PAGE_BYTES;

/// One drive. The label stands before the pages.
fn layout() -> Layout
    ensures { result ≡ record { drives = 1; unit = 1; pages = 40; out_first = 1; in_first = 38 } }
{
    Layout {
        drives: 1,
        unit: 1,
        pages: 40,
        out_first: 1,
        in_first: 38,
    }
}

/// Writes these numbers from a page of the drive on, in four bytes each.
fn put(bytes: &mut [u8], page: usize, numbers: &[u8; 5]) {
    let first = page.saturating_mul(PAGE_BYTES);
    for (place, number) in numbers.iter().enumerate() {
        if let Some(byte) = bytes.get_mut(first.saturating_add(place.saturating_mul(4))) {
            *byte = *number;
        }
    }
}

/// The drive of the image, of which these are the first targets of the out-lists; its first read may fail.
fn drive(alloc: Global, outs: &[u8; 5], fails: bool) -> Result<MemDrive, Fail>
    ensures { IfOk result (λ drive. 40 < ⟦<MemDrive as Drive>⟧.told drive) }
{
    let mut bytes = vec![in alloc; 0u8; DRIVE_BYTES]?;
    put(&mut bytes, 2, outs);
    put(&mut bytes, 39, &INS);
    let mut calls = Vec::new(alloc);
    if fails {
        calls.push((DriveOp::Read, 1))?;
    }
    let mut drive = MemDrive::new(alloc, bytes, calls);
    if drive.pages()? <= 40 {
        return Err(Fail::new("a page is missing"));
    }
    Ok(drive)
}

/// Every page may be asked for, and of the image nothing is told.
fn all_pages() -> CacheName
    ensures image { result.image.pages ≡ None }
    ensures asked { result.asked.pages ≡ range_with_len 0 40 }
{
    CacheName {
        image: ImageName::of::<Brand>(),
        asked: AskedPages::of::<Brand>(),
    }
}

/// In what cache the graph stands and on what drive, and how its vertices are.
#[derive(Clone, Copy)]
struct Setting {
    /// The ways of each of three page sets.
    ways: u32,
    /// The first targets of the out-lists.
    outs: [u8; 5],
    /// The first read of the drive fails.
    fails: bool,
    /// Each vertex is active, or else none.
    awake: bool,
}

/// All are awake, and nothing fails.
const PLAIN: Setting = Setting {
    ways: 16,
    outs: OUTS,
    fails: false,
    awake: true,
};

/// The cache, and its one pass.
fn opened(alloc: Global, setting: Setting) -> Result<(Cache<MemDrive>, Pass), Fail>
    ensures layout { IfOk result (λ r. r.0.site.layout ≡ record { drives = 1; unit = 1; pages = 40; out_first = 1; in_first = 38 }) }
    ensures image { IfOk result (λ r. r.0.site.image ≡ None) }
    ensures asked { IfOk result (λ r. (page : ℕ) → page < 40 → Contains (asked_pages r.0.site) page) }
    ensures pass { IfOk result (λ r. IsPassOf r.0.site r.1) }
    ensures alone { IfOk result (λ r. r.0.site.shape.passes ≡ 1) }
{
    if setting.ways == 0 || setting.ways > 16 {
        return Err(Fail::new("no such cache"));
    }
    let shape = Shape {
        sets: 3,
        ways: setting.ways,
        depth: 32,
        passes: 1,
    };
    let drives = vec![in alloc; drive(alloc, &setting.outs, setting.fails)?]?;
    match Cache::open(alloc, drives, layout(), shape, all_pages()) {
        Ok((cache, mut passes)) => match passes.pop() {
            Some(pass) => Ok((cache, pass)),
            None => Err(Fail::new("no pass")),
        },
        Err((_drives, memory)) => Err(memory.into()),
    }
}

fn index(alloc: Global) -> Result<Index, Fail>
    ensures weighted { IfOk result (λ index. index.weighted ≡ false) }
    ensures each { IfOk result (λ index. (length index.outs ≡ 5) × (length index.ins ≡ 5)) }
    ensures sums { IfOk result (λ index. (sum index.outs ≡ 36869) × (sum index.ins ≡ 5)) }
{
    match Index::read(alloc, &INDEX, 5, false, 36_869, 5) {
        Ok(index) => Ok(index),
        Err(_refusal) => Err(Fail::new("no index")),
    }
}

/// The states, in which each vertex has its own number, and last sent a greater one where it is awake.
fn states(awake: bool) -> [VState; 5]
    ensures { AreStates 5 result }
{
    let state = |number: u64| VState {
        a: number,
        b: if awake { 9 } else { 0 },
        c: 0,
    };
    [state(0), state(1), state(2), state(3), state(4)]
}

/// What came of a block: its messages by their targets, its counts, its bad edge, what the worker counted, and the reads of the drive,
/// each by its first page and how many.
#[derive(Drop)]
struct Came {
    mails: Vec<(u32, u64)>,
    active: u32,
    sent: u64,
    bad: Option<BadEdge>,
    runs: u64,
    entries: u64,
    reads: Vec<(u32, u32)>,
}

fn mails_of(alloc: Global, done: &BlockResult) -> Result<Vec<(u32, u64)>, AllocError> {
    let mut mails = Vec::new(alloc);
    for batch in &done.batches {
        for mail in batch.mails.iter() {
            mails.push((mail.target, mail.message))?;
        }
    }
    mails.sort_unstable();
    Ok(mails)
}

fn came_of(
    alloc: Global,
    done: &BlockResult,
    tally: &Count,
    reads: Vec<(u32, u32)>,
) -> Result<Came, AllocError> {
    Ok(Came {
        mails: mails_of(alloc, done)?,
        active: done.active,
        sent: done.sent,
        bad: done.bad,
        runs: tally.runs(),
        entries: tally.entries(),
        reads,
    })
}

/// Closes the cache; the reads of its drive.
fn reads_of<R: Wait>(
    rt: &R,
    alloc: Global,
    cache: Cache<MemDrive>,
    pass: Pass,
) -> Result<Vec<(u32, u32)>, AllocError>
    requires alone { cache.site.shape.passes ≡ 1 }
    requires pass { pass.books ≡ cache.site.books }
{
    let closed = cache.close(rt, vec![in alloc; pass]?, Vec::new(alloc));
    let mut reads = Vec::new(alloc);
    for drive in &closed.drives {
        for read in drive.log() {
            reads.push((read.first, read.count))?;
        }
    }
    Ok(reads)
}

fn is_shared<T: Sync>(_shared: &T) {}

fn is_sent<T: Send>(_kept: &T) {}

/// Threads may share the desk, and a hand may go to one.
fn are_for_threads(desk: &Desk<'_, Wcc, MemDrive>, hand: &Hand<Count>) {
    is_shared(desk);
    is_sent(hand);
}

/// Runs a block of two vertices; none where the drive fails.
fn run<R: Wait>(rt: &R, alloc: Global, setting: Setting, block: u32) -> Result<Option<Came>, Fail>
    requires { block < 3 }
{
    let (cache, pass) = opened(alloc, setting)?;
    let index = index(alloc)?;
    let states = states(setting.awake);
    let map = PartMap::new(5, 1, 2);
    let desk = Desk {
        program: &Wcc,
        cache: &cache,
        index: &index,
        layout: layout(),
        map,
        states: &states,
        phase: 0,
    };
    let mut hand = Hand::new(pass, Outbox::new(alloc, map)?, Count::new());
    are_for_threads(&desk, &hand);
    let answer = desk.run(rt, alloc, block, &mut hand);
    let mut tally = Count::new();
    hand.settle(&mut tally);
    let (pass, _none) = hand.into_parts();
    match answer {
        Ok(result) => {
            let reads = reads_of(rt, alloc, cache, pass)?;
            Ok(Some(came_of(alloc, &result, &tally, reads)?))
        }
        Err(WorkFault::Fault(_share)) => Ok(None),
        Err(WorkFault::Memory) => Err(Fail::new("want of memory")),
    }
}

/// The messages of the block, edge by edge: each vertex sends its own number both ways.
fn plain_mails(alloc: Global, block: u32) -> Result<Vec<(u32, u64)>, AllocError> {
    let mut mails = Vec::new(alloc);
    for (from, to) in &EDGES {
        if *from / 2 == block {
            mails.push((*to, u64::from(*from)))?;
        }
        if *to / 2 == block {
            mails.push((*from, u64::from(*to)))?;
        }
    }
    if block == 2 {
        for _ in 0..LONG {
            mails.push((0, 4))?;
        }
    }
    mails.sort_unstable();
    Ok(mails)
}

#[test]
fn a_block_sends_its_mail(rt: HostRuntime) -> Result<(), Fail> {
    for ways in [1, 2, 16] {
        for block in 0..3 {
            let Some(came) = run(&rt, rt.alloc(), Setting { ways, ..PLAIN }, block)? else {
                return Err(Fail::new("a fault"));
            };
            let mails = plain_mails(rt.alloc(), block)?;
            let count = mails.len() as u64;
            let active = if block == 2 { 1 } else { 2 };
            assert!(rt; came.mails.as_slice() == mails.as_slice());
            assert_eq!(rt; (came.active, came.runs), (active, u64::from(active)));
            assert_eq!(rt; (came.sent, came.entries), (count, count));
            assert_eq!(rt; came.bad, None);
        }
    }
    Ok(())
}

#[test]
fn pages_are_read_in_rounds_of_32(rt: HostRuntime) -> Result<(), Fail> {
    let Some(came) = run(&rt, rt.alloc(), PLAIN, 2)? else {
        return Err(Fail::new("a fault"));
    };
    assert_eq!(rt; came.reads.as_slice(), [(2, 32), (34, 6)].as_slice());
    Ok(())
}

#[test]
fn a_block_of_sleepers_reads_nothing(rt: HostRuntime) -> Result<(), Fail> {
    let setting = Setting {
        awake: false,
        ..PLAIN
    };
    let Some(came) = run(&rt, rt.alloc(), setting, 0)? else {
        return Err(Fail::new("a fault"));
    };
    assert_eq!(rt;
        (came.active, came.sent, came.runs, came.entries),
        (0, 0, 0, 0)
    );
    assert_eq!(rt; (came.mails.len(), came.reads.len()), (0, 0));
    Ok(())
}

#[test]
fn a_bad_edge_is_told(rt: HostRuntime) -> Result<(), Fail> {
    let setting = Setting {
        outs: [1, 9, 3, 7, 4],
        ..PLAIN
    };
    let Some(came) = run(&rt, rt.alloc(), setting, 0)? else {
        return Err(Fail::new("a fault"));
    };
    let bad = BadEdge {
        v: 0,
        dir: Dir::Out,
        place: 1,
        found: 9,
    };
    assert_eq!(rt; came.bad, Some(bad));
    assert_eq!(rt; came.mails.as_slice(), [(0, 1), (1, 0), (3, 1)].as_slice());
    assert_eq!(rt; (came.sent, came.entries, came.runs), (3, 3, 2));
    Ok(())
}

#[test]
fn a_drives_fault_ends_a_block(rt: HostRuntime) -> Result<(), Fail> {
    let setting = Setting {
        fails: true,
        ..PLAIN
    };
    assert!(rt; run(&rt, rt.alloc(), setting, 0)?.is_none());
    Ok(())
}
