//! The answers of a small cache, call by call.

ghost use Rattle.std.specs.Prelude.{◌≡◌, ◌<◌, ◌≤◌, ◌∷◌, [], None, All, IfOk, IfSome, length};
ghost use Rattle.std.specs.List.{Contains};
ghost use Rattle.fg_base.specs.declared.limits.TheConstants.{PAGE_BYTES};
ghost use Rattle.fg_cache.specs.Pass.{IsPassOf, IsPinOf};
ghost use Rattle.fg_cache.specs.Site.{IsShape, asked_pages};

use crate::{AskedPages, Cache, CacheName, FaultShare, Pass, Pin, Served, Shape, Wanted};
use fg_cell::ImageName;
use fg_outside::{Drive, DriveOp, MemDrive, Read};
use fg_stripe::Layout;
use std::alloc::{AllocError, Global};
use std::marker::Brand;
use std::process::Abort;
use std::sync::Wait;
use std::test::Fail;

const PAGE: usize = 4096;

/// What `want` answered, and what `serve` did.
#[derive(Clone, Copy, PartialEq, Eq, Debug)]
enum Seen {
    Hit([u8; 8]),
    Queued,
    Loading,
    Again,
    Full,
    Stale,
    Pages(u32),
    Idle,
    Fault(u32),
}

// The head of page 1: its number, and the next one, in four bytes each.
const PAGE_1: Seen = Seen::Hit([1, 0, 0, 0, 2, 0, 0, 0]);

// So many zero bytes.
fn zeros(alloc: Global, count: usize) -> Result<Vec<u8>, AllocError> {
    Ok(vec![in alloc; 0u8; count]?)
}

// A page that begins with this number and the next one, in four bytes each.
fn push_page(alloc: Global, bytes: &mut Vec<u8>, number: u8) -> Result<(), AllocError>
    requires { number < 255 }
{
    bytes.extend_from_slice(&[number, 0, 0, 0, number + 1, 0, 0, 0])?;
    bytes.extend_from_slice(&zeros(alloc, PAGE - 8)?)?;
    Ok(())
}

// A drive with its label and three pages of an image.
fn drive(alloc: Global, fails: Vec<(DriveOp, u32)>) -> Result<MemDrive, Fail>
    ensures { IfOk result (λ drive. 4 ≤ ⟦<MemDrive as Drive>⟧.told drive) }
{
    let mut bytes = zeros(alloc, PAGE)?;
    for number in 0..3u8 {
        push_page(alloc, &mut bytes, number)?;
    }
    if bytes.len() > 4 * PAGE {
        return Err(Fail::new("a page is too long"));
    }
    let mut drive = MemDrive::new(alloc, bytes, fails);
    if drive.pages()? < 4 {
        return Err(Fail::new("a page is missing"));
    }
    Ok(drive)
}

// Pages 1 and 2 may be asked for, and of the image nothing is told.
fn pages_1_and_2() -> CacheName
    ensures image { result.image.pages ≡ None }
    ensures asked { result.asked.pages ≡ 1 ∷ 2 ∷ [] }
{
    CacheName {
        image: ImageName::of::<Brand>(),
        asked: AskedPages::of::<Brand>(),
    }
}

// A cache of one set over that drive.
fn opened(
    alloc: Global,
    ways: u32,
    depth: u32,
    passes: u32,
    fails: Vec<(DriveOp, u32)>,
) -> Result<(Cache<MemDrive>, Vec<Pass>), Fail>
    requires ways { (0 < ways) × (ways ≤ 16) }
    requires depth { depth ≤ 1024 }
    requires passes { (0 < passes) × (passes ≤ 64) }
    ensures drives { IfOk result (λ r. r.0.site.layout.drives ≡ 1) }
    ensures asked { IfOk result (λ r. Contains (asked_pages r.0.site) 1 × Contains (asked_pages r.0.site) 2) }
    ensures count { IfOk result (λ r. (r.0.site.shape.passes ≡ passes) × (length r.1.items ≡ passes)) }
    ensures passes { IfOk result (λ r. All (IsPassOf r.0.site) r.1.items) }
{
    let layout = Layout {
        drives: 1,
        unit: 1,
        pages: 3,
        out_first: 2,
        in_first: 3,
    };
    let shape = Shape {
        sets: 1,
        ways,
        depth,
        passes,
    };
    let drives = vec![in alloc; drive(alloc, fails)?]?;
    match Cache::open(alloc, drives, layout, shape, pages_1_and_2()) {
        Ok(both) => Ok(both),
        Err((_drives, memory)) => Err(memory.into()),
    }
}

// The same with its one pass.
fn with_one(
    alloc: Global,
    ways: u32,
    fails: Vec<(DriveOp, u32)>,
) -> Result<(Cache<MemDrive>, Pass), Fail>
    requires ways { (0 < ways) × (ways ≤ 16) }
    ensures drives { IfOk result (λ r. r.0.site.layout.drives ≡ 1) }
    ensures asked { IfOk result (λ r. Contains (asked_pages r.0.site) 1 × Contains (asked_pages r.0.site) 2) }
    ensures count { IfOk result (λ r. r.0.site.shape.passes ≡ 1) }
    ensures pass { IfOk result (λ r. IsPassOf r.0.site r.1) }
{
    let (cache, mut passes) = opened(alloc, ways, 4, 1, fails)?;
    let Some(pass) = passes.pop() else {
        return Err(Fail::new("no pass"));
    };
    Ok((cache, pass))
}

// The same with its two passes.
fn with_two(alloc: Global, ways: u32, depth: u32) -> Result<(Cache<MemDrive>, Pass, Pass), Fail>
    requires ways { (0 < ways) × (ways ≤ 16) }
    requires depth { depth ≤ 1024 }
    ensures drives { IfOk result (λ r. r.0.site.layout.drives ≡ 1) }
    ensures asked { IfOk result (λ r. Contains (asked_pages r.0.site) 1 × Contains (asked_pages r.0.site) 2) }
    ensures count { IfOk result (λ r. r.0.site.shape.passes ≡ 2) }
    ensures passes { IfOk result (λ r. IsPassOf r.0.site r.1 × IsPassOf r.0.site r.2) }
{
    let (cache, mut passes) = opened(alloc, ways, depth, 2, Vec::new(alloc))?;
    let (Some(second), Some(first)) = (passes.pop(), passes.pop()) else {
        return Err(Fail::new("no pass"));
    };
    Ok((cache, first, second))
}

fn head(bytes: &[u8]) -> [u8; 8]
    requires { length bytes.now ≡ PAGE_BYTES }
{
    [
        bytes[0], bytes[1], bytes[2], bytes[3], bytes[4], bytes[5], bytes[6], bytes[7],
    ]
}

// Asks for a page, and gives a pin back.
fn ask<R: Wait>(rt: &R, cache: &Cache<MemDrive>, pass: Pass, page: u32) -> (Seen, Pass)
    requires pass { IsPassOf cache.now.site pass }
    requires page { Contains (asked_pages cache.now.site) page }
    ensures { IsPassOf cache.now.site result.1 }
{
    match cache.want(rt, pass, page) {
        Wanted::Hit(pin) => {
            let seen = Seen::Hit(head(pin.bytes()));
            (seen, cache.unpin(rt, pin))
        }
        Wanted::Queued(pass) => (Seen::Queued, pass),
        Wanted::Loading(pass, _slip) => (Seen::Loading, pass),
        Wanted::Again(pass, _slip) => (Seen::Again, pass),
        Wanted::Full(pass, _slip) => (Seen::Full, pass),
        Wanted::Stale(pass, _found) => (Seen::Stale, pass),
    }
}

// The page stands in its frame, and may be pinned.
fn pinned<'a, R: Wait + Abort>(rt: &R, cache: &'a Cache<MemDrive>, pass: Pass, page: u32) -> Pin<'a>
    requires pass { IsPassOf cache.now.site pass }
    requires page { Contains (asked_pages cache.now.site) page }
    ensures { IsPinOf cache.now.site result }
{
    match cache.want(rt, pass, page) {
        Wanted::Hit(pin) => pin,
        Wanted::Queued(_pass) => panic!(rt; "queued"),
        Wanted::Loading(_pass, _slip) => panic!(rt; "loading"),
        Wanted::Again(_pass, _slip) => panic!(rt; "again"),
        Wanted::Full(_pass, _slip) => panic!(rt; "full"),
        Wanted::Stale(_pass, _found) => panic!(rt; "stale"),
    }
}

// Serves the drive, and keeps a share of its fault.
fn serve<R: Wait>(rt: &R, cache: &Cache<MemDrive>) -> (Seen, Option<FaultShare>)
    requires { cache.now.site.layout.drives ≡ 1 }
    ensures { IfSome result.1 (λ share. share.books ≡ cache.now.site.books) }
{
    match cache.serve(rt, 0) {
        Served::Pages(read) => (Seen::Pages(read.count()), None),
        Served::Idle(_slip) => (Seen::Idle, None),
        Served::Fault(share) => (Seen::Fault(share.drive()), Some(share)),
    }
}

#[test]
fn one_frame(rt: HostRuntime) -> Result<(), Fail> {
    let alloc = rt.alloc();
    let (cache, p0, p1) = with_two(alloc, 1, 4)?;
    assert_eq!(rt; (p0.worker(), p1.worker()), (0, 1));
    let (first, p0) = ask(&rt, &cache, p0, 1);
    let (second, p1) = ask(&rt, &cache, p1, 1);
    let (third, p1) = ask(&rt, &cache, p1, 2);
    assert_eq!(rt;
        [first, second, third],
        [Seen::Queued, Seen::Loading, Seen::Again]
    );
    let (first, _none) = serve(&rt, &cache);
    let (second, _none) = serve(&rt, &cache);
    assert_eq!(rt; [first, second], [Seen::Pages(1), Seen::Idle]);
    let (first, p0) = ask(&rt, &cache, p0, 1);
    assert_eq!(rt; first, PAGE_1);
    let pin = pinned(&rt, &cache, p0, 1);
    assert_eq!(rt; (pin.page(), Seen::Hit(head(pin.bytes()))), (1, PAGE_1));
    let (first, p1) = ask(&rt, &cache, p1, 2);
    let p0 = cache.unpin(&rt, pin);
    let (second, p1) = ask(&rt, &cache, p1, 2);
    assert_eq!(rt; [first, second], [Seen::Again, Seen::Queued]);
    let (first, _none) = serve(&rt, &cache);
    assert_eq!(rt; first, Seen::Pages(1));
    let closed = cache.close(&rt, vec![in alloc; p0, p1]?, Vec::new(alloc));
    assert_eq!(rt; (closed.failed, closed.reads, closed.pages), (None, 2, 2));
    Ok(())
}

#[test]
fn a_full_queue(rt: HostRuntime) -> Result<(), Fail> {
    let (cache, p0, p1) = with_two(rt.alloc(), 2, 1)?;
    let (first, _p0) = ask(&rt, &cache, p0, 1);
    let (second, p1) = ask(&rt, &cache, p1, 2);
    assert_eq!(rt; [first, second], [Seen::Queued, Seen::Full]);
    let (first, _none) = serve(&rt, &cache);
    let (second, _p1) = ask(&rt, &cache, p1, 2);
    assert_eq!(rt; [first, second], [Seen::Pages(1), Seen::Queued]);
    Ok(())
}

#[test]
fn one_read_for_two_pages(rt: HostRuntime) -> Result<(), Fail> {
    let alloc = rt.alloc();
    let (cache, pass) = with_one(alloc, 4, Vec::new(alloc))?;
    let (first, pass) = ask(&rt, &cache, pass, 1);
    let (second, pass) = ask(&rt, &cache, pass, 2);
    let (third, _none) = serve(&rt, &cache);
    assert_eq!(rt;
        [first, second, third],
        [Seen::Queued, Seen::Queued, Seen::Pages(2)]
    );
    let closed = cache.close(&rt, vec![in alloc; pass]?, Vec::new(alloc));
    let Some(drive) = closed.drives.first() else {
        return Err(Fail::new("no drive"));
    };
    let read = Read { first: 2, count: 2 };
    assert_eq!(rt; drive.log(), [read].as_slice());
    Ok(())
}

#[test]
fn a_drive_that_fails(rt: HostRuntime) -> Result<(), Fail> {
    let alloc = rt.alloc();
    let fails = vec![in alloc; (DriveOp::Read, 1)]?;
    let (cache, pass) = with_one(alloc, 1, fails)?;
    let (first, pass) = ask(&rt, &cache, pass, 1);
    let (second, share) = serve(&rt, &cache);
    let (third, pass) = ask(&rt, &cache, pass, 1);
    let (fourth, _none) = serve(&rt, &cache);
    let wanted = [Seen::Queued, Seen::Fault(0), Seen::Queued, Seen::Pages(1)];
    assert_eq!(rt; [first, second, third, fourth], wanted);
    let Some(share) = share else {
        return Err(Fail::new("no share"));
    };
    let closed = cache.close(&rt, vec![in alloc; pass]?, vec![in alloc; share]?);
    assert_eq!(rt;
        (closed.failed, closed.reads, closed.pages),
        (Some(0), 2, 2)
    );
    Ok(())
}
