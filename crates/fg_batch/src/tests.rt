//! What comes to a part, with ranks, whose sums stop.

ghost use Rattle.std.specs.Prelude.{◌≡◌, ◌∷◌, [], IfOk};

use crate::*;
use fg_base::{Memory, VState};
use fg_part::PartMap;
use fg_rank::Rank;
use std::alloc::Global;
use std::test::Fail;

/// A batch of block 0 for part 1 with one message to vertex 3.
fn batch_of(alloc: Global, message: u64) -> Result<Batch, Memory>
    ensures { IfOk result (λ batch. batch.mails.items ≡ record { target = 3; message = message } ∷ []) }
{
    let mut mails = Mails::new(alloc);
    mails.reserve(1)?;
    mails.push(Mail { target: 3, message });
    Ok(Batch {
        block: 0,
        part: 1,
        lane: 0,
        mails,
    })
}

#[test]
fn a_sum_of_two_batches_stops(rt: HostRuntime) -> Result<(), Fail> {
    let alloc = rt.alloc();
    let map = PartMap::new(4, 0, 2);
    let mut states = vec![in alloc; VState { a: 0, b: 5, c: 0 }; 4]?;
    let program = Rank { cut: 1 };
    let mut inbox = Inbox::new(alloc, &program, map, 1)?;
    inbox.deliver(batch_of(alloc, u64::MAX)?);
    inbox.deliver(batch_of(alloc, 1)?);
    inbox.fold_into(&mut states);
    let sums: [u64; 4] = [5, 5, 5, u64::MAX];
    for (state, sum) in states.iter().zip(sums) {
        assert_eq!(rt; state.b, sum);
    }
    Ok(())
}

#[test]
fn an_outbox_gives_the_batches_of_a_block(rt: HostRuntime) -> Result<(), Fail> {
    let alloc = rt.alloc();
    let mut outbox = Outbox::new(alloc, PartMap::new(4, 0, 2))?;
    outbox.reserve(2)?;
    outbox.send(3, u64::MAX);
    outbox.send(0, 1);
    let batches = outbox.into_batches(alloc, 7)?;
    assert_eq!(rt; batches.len(), 2);
    let rows: [(u32, u32, u64); 2] = [(0, 0, 1), (1, 3, u64::MAX)];
    for (batch, (part, target, message)) in batches.iter().zip(rows) {
        assert_eq!(rt; (batch.block, batch.part, batch.lane), (7, part, 0));
        let mut mails = batch.mails.iter();
        assert_eq!(rt; mails.next(), Some(Mail { target, message }));
    }
    assert!(rt; outbox.into_batches(alloc, 8)?.is_empty());
    Ok(())
}
