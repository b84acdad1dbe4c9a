use crate::{Load, PageAsk, Queue, merge_asks};
use fg_base::limits::NO_PAGE;
use std::process::Abort;
use std::test::Fail;

/// A load of the page that stands at this local page.
fn load(local: u32) -> Load {
    Load {
        page: local,
        local,
        frame: local,
    }
}

fn push_all(rt: &impl Abort, queue: &mut Queue, locals: &[u32]) {
    for local in locals {
        assert!(rt; queue.push(load(*local)).is_ok(), "local {local}");
    }
}

fn expect_runs(rt: &impl Abort, queue: &mut Queue, runs: &[(u32, u32)]) {
    for (first, count) in runs {
        match queue.take_run() {
            Ok(run) => {
                assert_eq!(rt; run.first(), *first);
                assert_eq!(rt; run.count(), *count);
                assert_eq!(rt; run.load(0).local, *first);
            }
            Err(_) => assert!(rt; false, "no run at {first}"),
        }
    }
    assert!(rt; queue.take_run().is_err());
}

#[test]
fn a_full_queue_gives_the_load_back(rt: HostRuntime) -> Result<(), Fail> {
    let mut queue = Queue::new(rt.alloc(), 1)?;
    assert_eq!(rt; queue.depth(), 1);
    assert!(rt; queue.push(load(3)).is_ok());
    match queue.push(load(4)) {
        Ok(()) => assert!(rt; false),
        Err(slip) => assert_eq!(rt; slip.load(), load(4)),
    }
    expect_runs(&rt, &mut queue, &[(3, 1)]);
    Ok(())
}

#[test]
fn runs_of_local_pages(rt: HostRuntime) -> Result<(), Fail> {
    let mut queue = Queue::new(rt.alloc(), 64)?;
    push_all(&rt, &mut queue, &[7, 9, 8, 12]);
    expect_runs(&rt, &mut queue, &[(7, 3), (12, 1)]);
    push_all(&rt, &mut queue, &[5, 5, 6]);
    expect_runs(&rt, &mut queue, &[(5, 2), (5, 1)]);
    for local in 1..41 {
        assert!(rt; queue.push(load(local)).is_ok());
    }
    expect_runs(&rt, &mut queue, &[(1, 32), (33, 8)]);
    Ok(())
}

#[test]
fn asks_are_merged(rt: HostRuntime) -> Result<(), Fail> {
    let mut asks = Vec::new(rt.alloc());
    for (job, page) in [5, 3, 4, 9, 3].iter().enumerate() {
        asks.push(PageAsk {
            page: *page,
            job: job as u32,
        })?;
    }
    let are_pages = asks.iter().all(|ask| ask.page < NO_PAGE);
    assert!(rt; are_pages);
    let runs = merge_asks(rt.alloc(), &asks)?;
    assert_eq!(rt; runs.len(), 2);
    assert_eq!(rt; (runs[0].first, runs[0].count), (3, 3));
    assert_eq!(rt; (runs[1].first, runs[1].count), (9, 1));
    let of = |page, job| PageAsk { page, job };
    assert_eq!(rt;
        runs[0].jobs.as_slice(),
        [of(3, 1), of(3, 4), of(4, 2), of(5, 0)].as_slice()
    );
    assert_eq!(rt; runs[1].jobs.as_slice(), [of(9, 3)].as_slice());
    Ok(())
}
