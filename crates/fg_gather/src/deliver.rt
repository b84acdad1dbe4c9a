//! The batches of a wave go into the inboxes of their parts.

ghost use Rattle.std.specs.Prelude.{◌≡◌, ℕ, ◌<◌, ◌∷◌, [], All, length, slice_index_or};
ghost use Rattle.fg_batch.specs.Inbox.{Holding, with_all};
ghost use Rattle.fg_batch.specs.Lanes.{lanes_each};
ghost use Rattle.fg_batch.specs.Outbox.{IsForItsPart};
ghost use Rattle.fg_gather.specs.Deliver.{batches_in, delivered, mail_along};

use fg_batch::{Batch, Inbox};
use fg_model::Program;
use fg_part::PartMap;
use std::thread;
use std::thread::Threads;

/// Delivers to each part, in threads.
pub(crate) fn deliver_all<P: Program + Sync, R: Threads + Sync>(
    rt: &R,
    map: PartMap,
    wave: &[Vec<Batch>],
    threads: usize,
    boxes: &mut [Inbox<'_, P>],
)
    requires threads { 0 < threads }
    requires maps { All (λ inbox. inbox.map ≡ map) boxes.old }
    requires fit { All (IsForItsPart map) (batches_in wave.now) }
    ensures count { length boxes.new ≡ length boxes.old }
    ensures each { (part : ℕ) (d : Holding P) → part < length boxes.old → slice_index_or boxes.new part d
        ≡ delivered (P.rules (slice_index_or boxes.old part d).program) (batches_in wave.now) (slice_index_or boxes.old part d) }
{
    let lanes = Batch::lanes(map);
    thread::for_each_mut(
        rt,
        boxes,
        threads,
        &|_part: usize, inbox: &mut Inbox<'_, P>|
            requires { (lanes ≡ lanes_each inbox.now.map) × All (IsForItsPart inbox.now.map) (batches_in wave.now) }
            ensures { inbox.exit.now ≡ delivered (P.rules inbox.entry.now.program) (batches_in wave.entry.now) inbox.entry.now }
        { deliver_part(inbox, lanes, wave) },
    );
}

/// Delivers the batches of the part lane by lane, so that the places stay near.
fn deliver_part<P: Program>(inbox: &mut Inbox<'_, P>, lanes: u32, wave: &[Vec<Batch>])
    requires lanes { lanes ≡ lanes_each inbox.old.map }
    requires fit { All (IsForItsPart inbox.old.map) (batches_in wave.now) }
    ensures { inbox.new ≡ delivered (P.rules inbox.old.program) (batches_in wave.now) inbox.old }
{
    for lane in 0..lanes {
        deliver_lane(inbox, lane, wave);
    }
}

/// Delivers the batches of one lane.
fn deliver_lane<P: Program>(inbox: &mut Inbox<'_, P>, lane: u32, wave: &[Vec<Batch>])
    requires { All (IsForItsPart inbox.old.map) (batches_in wave.now) }
    ensures { inbox.new ≡ record inbox.old {
      held = with_all (P.rules inbox.old.program) inbox.old.map inbox.old.held
          (mail_along inbox.old.part (batches_in wave.now) lane);
    } }
{
    for batches in wave {
        deliver_along(inbox, lane, batches);
    }
}

/// Delivers those of the batches that stand in the lane.
fn deliver_along<P: Program>(inbox: &mut Inbox<'_, P>, lane: u32, batches: &[Batch])
    requires { All (IsForItsPart inbox.old.map) batches.now }
    ensures { inbox.new ≡ record inbox.old {
      held = with_all (P.rules inbox.old.program) inbox.old.map inbox.old.held
          (mail_along inbox.old.part batches.now lane);
    } }
{
    for batch in batches {
        deliver_one(inbox, lane, batch);
    }
}

/// Delivers the batch where it stands in the lane.
fn deliver_one<P: Program>(inbox: &mut Inbox<'_, P>, lane: u32, batch: &Batch)
    requires { IsForItsPart inbox.old.map batch.now }
    ensures { inbox.new ≡ record inbox.old {
      held = with_all (P.rules inbox.old.program) inbox.old.map inbox.old.held
          (mail_along inbox.old.part (batch.now ∷ []) lane);
    } }
{
    if batch.part == inbox.part() && batch.lane == lane {
        inbox.accept(&batch.mails);
    }
}
