//! Threads at one lock and at one frame.
ghost use Rattle.std.specs.Prelude.{◌≡◌, ◌≤◌, ◌∷◌, [], IfOk, replicate};
ghost use Rattle.fg_cell.specs.Pages.{FitsImage};

use crate::{Fit, Frame, Image, ImageName, Named, PageBuf};
use fg_base::Memory;
use fg_base::limits::PAGE_BYTES;
use std::alloc::Global;
use std::cell::Cell;
use std::marker::Brand;
use std::mem::size_of;
use std::process::Abort;
use std::sync::Wait;
use std::test::Fail;
use std::thread::{Threads, join};

const TIMES: u32 = 300;

/// A count that may go to another thread, and may not be shared by two.
#[derive(Drop)]
struct Count {
    sum: u64,
    _unshared: Cell<u8>,
}

impl Fit for Count {
    ghost use Rattle.std.specs.Prelude.{◌≤◌};

    type Name = u64;

    ghost fits = { λ least count. least ≤ count.sum };
}

fn count_often<R: Wait>(rt: &R, lock: &Named<Count>) {
    for _ in 0..TIMES {
        let mut held = lock.take(rt);
        let count = held.get();
        count.sum = count.sum.saturating_add(1);
        lock.give(rt, held);
    }
}

fn counted_by_two<R: Threads + Wait + Sync>(rt: &R) -> u64
    ensures { 5 ≤ result }
{
    let lock = Named::new(count_of(5), 5);
    join(rt, || count_often(rt, &lock), || count_often(rt, &lock));
    lock.into_inner(rt).sum
}

#[test]
fn two_threads_count_under_one_lock(rt: HostRuntime) {
    assert_eq!(rt; counted_by_two(&rt), 5 + 2 * u64::from(TIMES));
}

fn count_of(sum: u64) -> Count
    ensures { result.sum ≡ sum }
{
    Count {
        sum,
        _unshared: Cell::new(0),
    }
}

// Two locks of one name: what was taken from the first is given back through the second.
#[test]
fn a_value_goes_back_to_its_own_lock(rt: HostRuntime) {
    let first = Named::new(count_of(6), 5);
    let second = Named::new(count_of(7), 5);
    second.give(&rt, first.take(&rt));
    first.give(&rt, first.take(&rt));
    let sums = (first.into_inner(&rt).sum, second.into_inner(&rt).sum);
    assert_eq!(rt; sums, (6, 7));
}

fn filled(alloc: Global, page: u32, byte: u8) -> Result<PageBuf, Memory>
    ensures { IfOk result (λ b. b.number ≡ page) }
{
    let mut buf = PageBuf::new(alloc)?;
    let bytes = vec![in alloc; byte; PAGE_BYTES]?;
    buf.set(page, bytes.as_slice());
    Ok(buf)
}

// The image whose two pages stand in the two buffers.
fn image_of<I: Image>(_first: &PageBuf, _second: &PageBuf) -> ImageName
    ensures { result.pages ≡ I.pages }
{
    ImageName::of::<I>()
}

fn swap_often<R: Wait>(rt: &R, frame: &Frame, buf: PageBuf) -> PageBuf
    requires { FitsImage frame.now buf }
    ensures { FitsImage frame.now result }
{
    let mut spare = buf;
    for _ in 0..TIMES {
        spare = frame.swap(rt, spare);
    }
    spare
}

// Whether each page shown was a whole one, of sevens or of nines.
fn all_whole<R: Wait>(rt: &R, frame: &Frame) -> bool {
    let mut whole = true;
    for _ in 0..TIMES {
        let shown = frame.pin(rt);
        let page = shown.page();
        let byte = if page.number() == 0 { 7 } else { 9 };
        whole &= page.bytes().iter().all(|b| *b == byte);
        frame.leave(shown);
    }
    whole
}

fn swapped_and_read<R: Threads + Wait + Sync>(
    rt: &R,
    frame: &Frame,
    buf: PageBuf,
) -> (PageBuf, bool, bool)
    requires { FitsImage frame.now buf }
    ensures { FitsImage frame.now result.0 }
{
    let (spare, (first, second)) = join(
        rt,
        || -> PageBuf
            requires { FitsImage frame.now buf }
            ensures { FitsImage frame.entry.now result }
        { swap_often(rt, frame, buf) },
        || join(rt, || all_whole(rt, frame), || all_whole(rt, frame)),
    );
    (spare, first, second)
}

#[test]
fn readers_see_a_whole_page_while_it_is_swapped(rt: HostRuntime) -> Result<(), Fail> {
    let sevens = filled(rt.alloc(), 0, 7)?;
    let nines = filled(rt.alloc(), 1, 9)?;
    let name = image_of::<Brand>(&sevens, &nines);
    let frame = Frame::new(sevens, name.again());
    let (spare, first, second) = swapped_and_read(&rt, &frame, nines);
    assert!(rt; first && second);
    assert_eq!(rt; spare.number(), 1);
    Ok(())
}

#[test]
fn a_swap_gives_back_the_page_that_was_there(rt: HostRuntime) -> Result<(), Fail> {
    let sevens = filled(rt.alloc(), 0, 7)?;
    let nines = filled(rt.alloc(), 1, 9)?;
    let name = image_of::<Brand>(&sevens, &nines);
    let frame = Frame::new(sevens, name);
    let old = frame.swap(&rt, nines);
    assert_eq!(rt; (old.number(), old.bytes()[4095]), (0, 7));
    let shown = frame.pin(&rt);
    let page = shown.page();
    assert_eq!(rt; (page.number(), page.bytes()[4095]), (1, 9));
    frame.leave(shown);
    Ok(())
}

// An image of which nothing is told takes every page.
#[test]
fn a_frame_of_an_untold_image_shows_what_was_put_in(rt: HostRuntime) -> Result<(), Fail> {
    let frame = Frame::new(filled(rt.alloc(), 3, 7)?, ImageName::of::<Brand>());
    let old = frame.swap(&rt, filled(rt.alloc(), 3, 9)?);
    let shown = frame.pin(&rt);
    assert_eq!(rt; (old.bytes()[0], shown.page().bytes()[0]), (7, 9));
    frame.leave(shown);
    Ok(())
}

#[test]
fn a_name_takes_no_room(rt: HostRuntime) {
    assert_eq!(rt; size_of::<ImageName>(), 0);
}
