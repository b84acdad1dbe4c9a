//! Threads at one cache.

ghost use Rattle.std.specs.Prelude.{◌≡◌, ℕ, ◌<◌, ◌≤◌, None, All, IfOk, length};
ghost use Rattle.std.specs.List.{Contains, range_with_len};
ghost use Rattle.fg_cache.specs.Pass.{IsPassOf};
ghost use Rattle.fg_cache.specs.Site.{asked_pages};

use crate::{AskedPages, Cache, CacheName, Pass, Served, Shape, Wanted};
use fg_cell::ImageName;
use fg_outside::{Drive, MemDrive};
use fg_stripe::Layout;
use std::alloc::{AllocError, Global};
use std::marker::Brand;
use std::sync::Wait;
use std::test::Fail;
use std::thread;
use std::thread::{Threads, join};

const PAGE: usize = 4096;

const PAGES: u32 = 16;

const WORKERS: u32 = 8;

// Each round has two calls, so that there are 100,000 and more in all.
const ROUNDS: u32 = 6_250;

// A page of that byte alone.
fn filled(alloc: Global, length: usize, byte: u8) -> Result<Vec<u8>, AllocError> {
    Ok(vec![in alloc; byte; length]?)
}

fn is_filled(bytes: &[u8], wanted: u8) -> bool {
    for byte in bytes {
        if *byte != wanted {
            return false;
        }
    }
    true
}

// A drive with its label and every second page of the image, from this one on. Page `k` of the image has the byte `k + 1` alone.
fn drive(alloc: Global, first: u8) -> Result<MemDrive, Fail>
    requires { first < 2 }
    ensures { IfOk result (λ drive. 9 ≤ ⟦<MemDrive as Drive>⟧.told drive) }
{
    let mut bytes = filled(alloc, PAGE, 0)?;
    for local in 0..8u8 {
        let page = filled(alloc, PAGE, local * 2 + first + 1)?;
        bytes.extend_from_slice(&page)?;
    }
    if bytes.len() > 9 * PAGE {
        return Err(Fail::new("a page is too long"));
    }
    let mut drive = MemDrive::new(alloc, bytes, Vec::new(alloc));
    if drive.pages()? < 9 {
        return Err(Fail::new("a page is missing"));
    }
    Ok(drive)
}

// Every page may be asked for, and of the image nothing is told.
fn all_pages() -> CacheName
    ensures image { result.image.pages ≡ None }
    ensures asked { result.asked.pages ≡ range_with_len 0 16 }
{
    CacheName {
        image: ImageName::of::<Brand>(),
        asked: AskedPages::of::<Brand>(),
    }
}

// A cache of four frames over two drives with 16 pages.
fn opened(alloc: Global) -> Result<(Cache<MemDrive>, Vec<Pass>), Fail>
    ensures drives { IfOk result (λ r. r.0.site.layout.drives ≡ 2) }
    ensures asked { IfOk result (λ r. (page : ℕ) → page < 16 → Contains (asked_pages r.0.site) page) }
    ensures passes { IfOk result (λ r. (length r.1.items ≡ 8) × All (IsPassOf r.0.site) r.1.items) }
{
    let layout = Layout {
        drives: 2,
        unit: 1,
        pages: PAGES,
        out_first: 2,
        in_first: 9,
    };
    let shape = Shape {
        sets: 2,
        ways: 2,
        depth: 3,
        passes: WORKERS,
    };
    let drives = vec![in alloc; drive(alloc, 0)?, drive(alloc, 1)?]?;
    match Cache::open(alloc, drives, layout, shape, all_pages()) {
        Ok(both) => Ok(both),
        Err((_drives, memory)) => Err(memory.into()),
    }
}

/// What a worker saw.
#[derive(Clone, Copy, PartialEq, Eq, Debug, Default)]
struct Tally {
    hits: u32,
    wrong: u32,
    faults: u32,
}

fn next(random: u64) -> u64 {
    random
        .wrapping_mul(6_364_136_223_846_793_005)
        .wrapping_add(1_442_695_040_888_963_407)
}

fn serve<R: Wait>(rt: &R, cache: &Cache<MemDrive>, drive: u32, tally: &mut Tally)
    requires { drive < cache.now.site.layout.drives }
{
    if let Served::Fault(_share) = cache.serve(rt, drive) {
        tally.faults = tally.faults.saturating_add(1);
    }
}

// One round: a page is wanted, and a drive served, where there is a pin while it lives.
fn visit<R: Wait>(
    rt: &R,
    cache: &Cache<MemDrive>,
    pass: Pass,
    random: u32,
    tally: &mut Tally,
) -> Pass
    requires pass { IsPassOf cache.now.site pass }
    requires drives { cache.now.site.layout.drives ≡ 2 }
    requires asked { (page : ℕ) → page < 16 → Contains (asked_pages cache.now.site) page }
    ensures { IsPassOf cache.now.site result }
{
    let page = random % PAGES;
    let drive = random / PAGES % 2;
    let answer = cache.want(rt, pass, page);
    serve(rt, cache, drive, tally);
    match answer {
        Wanted::Hit(pin) => {
            tally.hits = tally.hits.saturating_add(1);
            if !is_filled(pin.bytes(), page as u8 + 1) {
                tally.wrong = tally.wrong.saturating_add(1);
            }
            cache.unpin(rt, pin)
        }
        Wanted::Queued(pass) => pass,
        Wanted::Loading(pass, _slip) => pass,
        Wanted::Again(pass, _slip) => pass,
        Wanted::Full(pass, _slip) => pass,
        Wanted::Stale(pass, _found) => pass,
    }
}

fn visits<R: Wait>(rt: &R, cache: &Cache<MemDrive>, mut pass: Pass) -> Tally
    requires pass { IsPassOf cache.now.site pass }
    requires drives { cache.now.site.layout.drives ≡ 2 }
    requires asked { (page : ℕ) → page < 16 → Contains (asked_pages cache.now.site) page }
{
    let mut tally = Tally::default();
    let mut random = u64::from(pass.worker());
    for _round in 0..ROUNDS {
        random = next(random);
        pass = visit(rt, cache, pass, (random >> 33) as u32, &mut tally);
    }
    tally
}

fn visits_by_all<R: Threads + Wait + Sync>(
    rt: &R,
    cache: &Cache<MemDrive>,
    passes: Vec<Pass>,
) -> Result<Vec<Tally>, AllocError>
    requires passes { All (IsPassOf cache.now.site) passes.items }
    requires drives { cache.now.site.layout.drives ≡ 2 }
    requires asked { (page : ℕ) → page < 16 → Contains (asked_pages cache.now.site) page }
{
    thread::map_vec(rt, passes, &|pass: Pass| visits(rt, cache, pass))
}

#[test]
fn eight_threads_see_the_drives_bytes(rt: HostRuntime) -> Result<(), Fail> {
    let (cache, passes) = opened(rt.alloc())?;
    let tallies = visits_by_all(&rt, &cache, passes)?;
    assert_eq!(rt; tallies.len(), WORKERS as usize);
    for tally in &tallies {
        assert!(rt; tally.hits > 0);
        assert_eq!(rt; (tally.wrong, tally.faults), (0, 0));
    }
    Ok(())
}

// Two drives of any kind, served by two threads.
fn both_served<D: Drive + Send, R: Threads + Wait + Sync>(
    rt: &R,
    cache: &Cache<D>,
) -> (Served, Served)
    requires { cache.now.site.layout.drives ≡ 2 }
{
    join(rt, || cache.serve(rt, 0), || cache.serve(rt, 1))
}

#[test]
fn two_threads_serve_two_drives(rt: HostRuntime) -> Result<(), Fail> {
    let (cache, _passes) = opened(rt.alloc())?;
    let (first, second) = both_served(&rt, &cache);
    assert!(rt; matches!(first, Served::Idle(_)) && matches!(second, Served::Idle(_)));
    Ok(())
}
