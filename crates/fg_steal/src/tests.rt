ghost use Rattle.std.specs.Prelude.{◌≡◌, ℕ, ◌<◌, ◌≤◌, [], ◌∷◌, ◌++◌, length, vec_len, IfOk};
ghost use Rattle.std.specs.List.{All, Contains};
ghost use Rattle.fg_steal.specs.Seat.{fresh_seat};

use crate::{Claims, Seat};
use fg_base::Memory;
use std::alloc::{AllocError, Global};
use std::process::Abort;
use std::sync::Wait;
use std::sync::atomic::{AtomicU64, Ordering};
use std::test::Fail;
use std::thread;
use std::thread::Threads;

const PARTS: u32 = 64;

const ROUNDS: u32 = 3;

// A block is there.
fn drawn<R: Abort>(rt: &R, claims: &Claims, seat: Seat, part: u32) -> (Seat, u32)
    requires own { seat.claims ≡ claims.now }
    requires part { part < length claims.now.counts }
    requires untold { ¬ Contains seat.told part }
    ensures { (result.0.claims ≡ claims.now) × (result.0.told ≡ seat.told) }
{
    let (seat, block) = claims.draw(seat, part);
    match block {
        Some(block) => (seat, block),
        None => panic!(rt; "no block is left"),
    }
}

// No block is left of either part.
fn told_of_both<R: Abort>(rt: &R, claims: &Claims, seat: Seat) -> Seat
    requires own { seat.claims ≡ claims.now }
    requires parts { length claims.now.counts ≡ 2 }
    requires fresh { seat.told ≡ [] }
    ensures own { result.claims ≡ claims.now }
    ensures told { result.told ≡ 0 ∷ 1 ∷ [] }
{
    let (next, block) = claims.draw(seat, 0);
    if block.is_some() {
        panic!(rt; "a block of part 0 is left");
    }
    let (next, block) = claims.draw(next, 1);
    if block.is_some() {
        panic!(rt; "a block of part 1 is left");
    }
    next
}

// Claims over a part of so many blocks and an empty one, with two seats.
fn two_seats<R: Abort>(rt: &R, alloc: Global, blocks: u32) -> Result<(Claims, Seat, Seat), Memory>
    ensures claims { IfOk result (λ made. (length made.0.counts ≡ 2) × (made.0.seats ≡ 2)) }
    ensures own { IfOk result (λ made. (made.1.claims ≡ made.0) × (made.2.claims ≡ made.0)) }
    ensures fresh { IfOk result (λ made. (made.1.told ≡ []) × (made.2.told ≡ [])) }
{
    let counts = vec![in alloc; blocks, 0]?;
    let (claims, mut seats) = Claims::new(alloc, &counts, 2)?;
    let (Some(second), Some(first)) = (seats.pop(), seats.pop()) else {
        panic!(rt; "two seats were made")
    };
    Ok((claims, first, second))
}

fn back<R: Abort>(
    rt: &R,
    alloc: Global,
    claims: Claims,
    first: Seat,
    second: Seat,
) -> Result<(), AllocError>
    requires claims { (length claims.counts ≡ 2) × (claims.seats ≡ 2) }
    requires own { (first.claims ≡ claims) × (second.claims ≡ claims) }
    requires fresh { (first.told ≡ []) × (second.told ≡ []) }
{
    let mut seats = Vec::new(alloc);
    seats.push(told_of_both(rt, &claims, first))?;
    seats.push(told_of_both(rt, &claims, second))?;
    claims.close(seats);
    Ok(())
}

#[test]
fn two_seats_draw_two_blocks(rt: HostRuntime) -> Result<(), Fail> {
    let (claims, first, second) = two_seats(&rt, rt.alloc(), 2)?;
    let (first, block) = drawn(&rt, &claims, first, 0);
    assert!(rt; block == 0);
    let (second, block) = drawn(&rt, &claims, second, 0);
    assert!(rt; block == 1);
    back(&rt, rt.alloc(), claims, first, second)?;
    Ok(())
}

#[test]
fn a_thief_begins_with_the_far_run(rt: HostRuntime) -> Result<(), Fail> {
    let (claims, first, second) = two_seats(&rt, rt.alloc(), 3)?;
    let (second, block) = drawn(&rt, &claims, second, 0);
    assert!(rt; block == 2);
    let (first, block) = drawn(&rt, &claims, first, 0);
    assert!(rt; block == 0);
    let (second, block) = drawn(&rt, &claims, second, 0);
    assert!(rt; block == 1);
    back(&rt, rt.alloc(), claims, first, second)?;
    Ok(())
}

#[test]
fn claims_may_end_early(rt: HostRuntime) -> Result<(), Fail> {
    let (claims, first, second) = two_seats(&rt, rt.alloc(), 3)?;
    let (first, block) = drawn(&rt, &claims, first, 0);
    assert!(rt; block == 0);
    let mut seats = Vec::new(rt.alloc());
    seats.push(first)?;
    seats.push(second)?;
    claims.stop(seats);
    Ok(())
}

// Draws from the part until it is told that no block is left, and notes each block.
fn spend<R: Wait>(rt: &R, claims: &Claims, mut seat: Seat, part: u32, hits: &[AtomicU64]) -> Seat
    requires own { seat.claims ≡ claims.now }
    requires part { part < length claims.now.counts }
    requires untold { ¬ Contains seat.told part }
    ensures own { result.claims ≡ claims.now }
    ensures told { result.told ≡ seat.told ++ part ∷ [] }
{
    for _ in rt.forever() {
        let (next, block) = claims.draw(seat, part);
        seat = next;
        let Some(block) = block else {
            break;
        };
        if let Some(hit) = hits.get(block as usize * PARTS as usize + part as usize) {
            hit.fetch_add(1, Ordering::SeqCst);
        }
    }
    seat
}

fn spend_all<R: Wait>(rt: &R, claims: &Claims, mut seat: Seat, hits: &[AtomicU64])
    requires fresh { seat ≡ fresh_seat claims.now seat.number }
    requires parts { length claims.now.counts ≡ PARTS }
{
    for part in 0..PARTS {
        seat = spend(rt, claims, seat, part, hits);
    }
}

fn spend_in_threads<R: Threads + Wait + Sync>(
    rt: &R,
    claims: &Claims,
    seats: Vec<Seat>,
    hits: &[AtomicU64],
) -> Result<(), AllocError>
    requires fresh { All (λ seat. seat ≡ fresh_seat claims.now seat.number) seats.items }
    requires parts { length claims.now.counts ≡ PARTS }
{
    thread::map_vec(rt, seats, &|seat: Seat| spend_all(rt, claims, seat, hits))?;
    Ok(())
}

fn part_counts(alloc: Global) -> Result<Vec<u32>, AllocError>
    ensures { IfOk result (λ counts. vec_len counts ≡ PARTS) }
{
    let mut counts = vec![in alloc; 1563u32; 32]?;
    counts.resize(PARTS as usize, 1562)?;
    Ok(counts)
}

fn each_block_once<R: Threads + Wait + Sync>(rt: &R, alloc: Global) -> Result<bool, Memory> {
    let counts = part_counts(alloc)?;
    let (claims, seats) = Claims::new(alloc, &counts, 8)?;
    let mut hits = Vec::new(alloc);
    for _ in 0..100_000 {
        hits.push(AtomicU64::new(0))?;
    }
    spend_in_threads(rt, &claims, seats, hits.as_slice())?;
    Ok(hits.iter().all(|hit| hit.load(Ordering::SeqCst) == 1))
}

#[test]
fn eight_threads_draw_each_block_once(rt: HostRuntime) -> Result<(), Fail> {
    for _ in 0..ROUNDS {
        assert!(rt; each_block_once(&rt, rt.alloc())?);
    }
    Ok(())
}
