//! A small block, run page by page, whose messages come to the states.

ghost use Rattle.std.specs.Prelude.{◌≡◌, ◌+◌, ◌^◌, ◌<◌, ◌≤◌, [], All, false, OnOk, length};
ghost use Rattle.fg_base.specs.declared.limits.TheConstants.{PAGE_BYTES};
ghost use Rattle.fg_batch.specs.Outbox.{IsForItsPart};
ghost use Rattle.fg_edges.specs.Segment.{IsSegment, count_of};
ghost use Rattle.fg_task.specs.Book.{jobs_of};
ghost use Rattle.fg_task.specs.Running.{entries_in};

use crate::*;
use fg_base::{BadEdge, Count, Dir, Memory, VState};
use fg_batch::{Batch, Inbox, Outbox};
use fg_edges::Segment;
use fg_model::Program;
use fg_part::PartMap;
use fg_walks::Bfs;
use std::alloc::Global;
use std::test::Fail;

/// A segment of `count` entries without weights, from entry `from` of the page on.
fn segment_on(page: u32, from: u32, count: u32) -> Segment
    requires { from + count ≤ 1024 }
    ensures inside { IsSegment false result }
    ensures count { count_of false result ≤ 1024 }
{
    Segment {
        page,
        from: from * 4,
        to: (from + count) * 4,
        place: 0,
    }
}

/// Adds a job.
fn add_job<F: SegmentRun>(
    book: &mut TaskBook<F>,
    vertex: u32,
    dir: Dir,
    carry: u64,
    segment: Segment,
) -> Result<(), Memory>
    requires weights { (F.work book.old.function).weighted ≡ false }
    requires inside { IsSegment false segment }
    requires few { count_of false segment ≤ 1024 }
    ensures function { book.new.function ≡ book.old.function }
    ensures more { OnOk result (entries_in F.work book.new ≤ entries_in F.work book.old + 1024) }
{
    book.add(Job {
        vertex,
        dir,
        carry,
        segment,
    })?;
    Ok(())
}

/// Runs the jobs of a page; the bad edge, and how many entries led to a vertex.
fn run_page<F: SegmentRun>(
    book: &mut TaskBook<F>,
    page: u32,
    bytes: &[u8],
    outbox: &mut Outbox,
) -> Result<(Option<BadEdge>, u64), Memory>
    requires page { length bytes.now ≡ PAGE_BYTES }
    requires vertices { outbox.old.map.n ≡ (F.work book.old.function).n }
    requires few { entries_in F.work book.old < 2 ^ 64 }
    ensures function { book.new.function ≡ book.old.function }
    ensures map { outbox.new.map ≡ outbox.old.map }
    ensures fewer { entries_in F.work book.new ≤ entries_in F.work book.old }
{
    let mut tally = Count::new();
    book.make_room(page, outbox)?;
    let bad = book.run_on(page, bytes, outbox, &mut tally);
    Ok((bad, tally.entries()))
}

/// Lets an inbox take in the batches for its part.
fn accept_all<'a, P: Program>(inbox: &mut Inbox<'a, P>, batches: &[Batch])
    requires { All (IsForItsPart inbox.old.map) batches.now }
    ensures { inbox.new.map ≡ inbox.old.map }
{
    for batch in batches {
        if batch.part == inbox.part() {
            inbox.accept(&batch.mails);
        }
    }
}

/// Fills an empty book: vertex 0 leads to 1 and 2 and comes from 0, vertex 1 leads to 2 and to 9, which is none, and vertex 2 to 3.
fn fill_book<F: SegmentRun>(book: &mut TaskBook<F>) -> Result<(), Memory>
    requires weights { (F.work book.old.function).weighted ≡ false }
    requires none { jobs_of book.old ≡ [] }
    ensures function { book.new.function ≡ book.old.function }
    ensures few { OnOk result (entries_in F.work book.new < 2 ^ 64) }
{
    add_job(book, 0, Dir::Out, 0, segment_on(1, 0, 2))?;
    add_job(book, 0, Dir::In, 0, segment_on(2, 0, 1))?;
    add_job(book, 1, Dir::Out, 5, segment_on(1, 2, 2))?;
    add_job(book, 2, Dir::Out, 1, segment_on(2, 1023, 1))
}

/// A page whose entries lead to 0, but for these, each with its place.
fn page_with(entries: &[(usize, u8)]) -> [u8; 4096] {
    let mut bytes = [0; 4096];
    for (place, target) in entries {
        if let Some(byte) = bytes.get_mut(place.saturating_mul(4)) {
            *byte = *target;
        }
    }
    bytes
}

/// What came of running the two pages, and the first once more.
fn run_pages<F: SegmentRun>(
    book: &mut TaskBook<F>,
    outbox: &mut Outbox,
) -> Result<[(Option<BadEdge>, u64); 3], Memory>
    requires vertices { outbox.old.map.n ≡ (F.work book.old.function).n }
    requires few { entries_in F.work book.old < 2 ^ 64 }
    ensures map { outbox.new.map ≡ outbox.old.map }
{
    let first = page_with(&[(0, 1), (1, 2), (2, 2), (3, 9)]);
    let second = page_with(&[(1023, 3)]);
    Ok([
        run_page(book, 2, &second, outbox)?,
        run_page(book, 1, &first, outbox)?,
        run_page(book, 1, &first, outbox)?,
    ])
}

/// The levels of the four vertices once these batches came to vertices that had none.
fn levels_of(
    alloc: Global,
    program: &Bfs,
    map: PartMap,
    batches: &[Batch],
) -> Result<Vec<u64>, Memory>
    requires vertices { map.n ≡ 4 }
    requires one { map.parts ≡ 1 }
    requires own { All (IsForItsPart map) batches.now }
{
    let mut inbox = Inbox::new(alloc, program, map, 0)?;
    accept_all(&mut inbox, batches);
    let none = VState {
        a: u64::MAX,
        b: 0,
        c: 0,
    };
    let mut states = vec![in alloc; none; 4]?;
    inbox.fold_into(&mut states);
    let mut levels = Vec::new(alloc);
    for state in &states {
        levels.push(state.a)?;
    }
    Ok(levels)
}

#[test]
fn a_block_runs_page_by_page(rt: HostRuntime) -> Result<(), Fail> {
    let alloc = rt.alloc();
    let program = Bfs { source: 0 };
    let map = PartMap::new(4, 0, 1);
    let mut outbox = Outbox::new(alloc, map)?;
    let function = Along {
        program: &program,
        n: 4,
        weighted: false,
    };
    let mut book = TaskBook::new(alloc, function);
    fill_book(&mut book)?;
    let pages = book.pages(alloc)?;
    assert_eq!(rt; pages.as_slice(), [1, 2].as_slice());
    let bad = BadEdge {
        v: 1,
        dir: Dir::Out,
        place: 1,
        found: 9,
    };
    let ran = run_pages(&mut book, &mut outbox)?;
    assert_eq!(rt; ran, [(None, 2), (Some(bad), 3), (None, 0)]);
    assert!(rt; book.pages(alloc)?.is_empty());
    book.finish();
    let batches = outbox.into_batches(alloc, 0)?;
    let levels = levels_of(alloc, &program, map, &batches)?;
    assert_eq!(rt; levels.as_slice(), [1, 1, 1, 2].as_slice());
    Ok(())
}
