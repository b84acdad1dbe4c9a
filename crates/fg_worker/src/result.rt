//! What comes of a block.

ghost use Rattle.std.specs.Prelude.{◌≡◌, IfOk, OnOk, length};
ghost use Rattle.fg_batch.specs.Mails.{NumbersFit};
ghost use Rattle.fg_batch.specs.Outbox.{AreBatches, IsUnsent, mail_in};

use fg_base::{BadEdge, Memory};
use fg_batch::{Batch, Outbox};
use fg_task::BlockResult;
use std::alloc::Global;

/// How many messages these batches have. They stand in memory, so that they aren't 2^64 and the count doesn't fail.
fn count_mails(batches: &[Batch]) -> Result<u64, Memory>
    ensures count { IfOk result (λ count. count ≡ length (mail_in batches.now)) }
    ensures fits { OnOk result (NumbersFit (mail_in batches.now)) }
{
    let mut count: u64 = 0;
    for batch in batches {
        batch.mails.numbers_fit();
        let Some(more) = count.checked_add(batch.mails.len() as u64) else {
            return Err(Memory);
        };
        count = more;
    }
    Ok(count)
}

/// The result of a block of whose vertices so many were active, with what was sent and the least bad edge.
pub(crate) fn result_of(
    alloc: Global,
    block: u32,
    active: u32,
    bad: Option<BadEdge>,
    outbox: &mut Outbox,
) -> Result<BlockResult, Memory>
    ensures own { IfOk result (λ result. (result.block ≡ block) × (result.active ≡ active) × (result.bad ≡ bad)) }
    ensures batches { IfOk result (λ result. AreBatches outbox.old block result.batches.items) }
    ensures sent { IfOk result (λ result. result.sent ≡ length (mail_in result.batches.items)) }
    ensures fits { IfOk result (λ result. NumbersFit (mail_in result.batches.items)) }
    ensures unsent { OnOk result (IsUnsent outbox.new) }
    ensures map { outbox.new.map ≡ outbox.old.map }
{
    let batches = outbox.into_batches(alloc, block)?;
    let sent = count_mails(&batches)?;
    Ok(BlockResult {
        block,
        active,
        sent,
        bad,
        batches,
    })
}
