//! A vertex's lists come into the task book.

ghost use Rattle.std.specs.Prelude.{◌≡◌, ◌<◌, ◌∷◌, [], OnOk, length};
ghost use Rattle.fg_image.specs.Image.{IndexFits};
ghost use Rattle.fg_model.specs.Iteration.{state_at};
ghost use Rattle.fg_task.specs.Book.{jobs_of};
ghost use Rattle.fg_worker.specs.Beginning.{AddsList, StandForMore};
ghost use Rattle.fg_worker.specs.Desk.{IsDesk, setting_of, work_in};

use crate::desk::Desk;
use fg_base::{Dir, Memory, Need};
use fg_edges::segments;
use fg_index::Index;
use fg_model::Program;
use fg_outside::Drive;
use fg_stripe::Layout;
use fg_task::{Job, SegmentRun, TaskBook};

/// Adds a job for each segment of a vertex's list, page by page.
fn add_list<F: SegmentRun>(
    index: &Index,
    layout: &Layout,
    dir: Dir,
    v: u32,
    carry: u64,
    book: &mut TaskBook<F>,
) -> Result<(), Memory>
    requires fits { IndexFits layout.now index.now }
    requires vertex { v < length index.now.outs }
    requires weights { (F.work book.old.function).weighted ≡ index.now.weighted }
    ensures function { book.new.function ≡ book.old.function }
    ensures added { OnOk result (AddsList layout.now index.now dir v carry book.old book.new) }
{
    for segment in segments(index, layout, dir, v) {
        book.add(Job {
            vertex: v,
            dir,
            carry,
            segment,
        })?;
    }
    Ok(())
}

/// Adds the needed lists of an active vertex whose run began with this carry, the out-list before the in-list.
pub(crate) fn add_lists<P: Program, D: Drive, F: SegmentRun>(
    desk: &Desk<'_, P, D>,
    v: u32,
    carry: u64,
    book: &mut TaskBook<F>,
) -> Result<(), Memory>
    requires desk { IsDesk (setting_of P.rules desk.now) }
    requires vertex { v < desk.now.map.n }
    requires carry { carry ≡ ((P.rules desk.now.program.now).begin desk.now.phase v (state_at desk.now.states.now v)).1 }
    requires work { F.work book.old.function ≡ work_in (setting_of P.rules desk.now) }
    ensures function { book.new.function ≡ book.old.function }
    ensures added { OnOk result (StandForMore (setting_of P.rules desk.now) (v ∷ []) (jobs_of book.old) (jobs_of book.new)) }
{
    let need = desk.program.need();
    if need != Need::In {
        add_list(desk.index, &desk.layout, Dir::Out, v, carry, book)?;
    }
    if need != Need::Out {
        add_list(desk.index, &desk.layout, Dir::In, v, carry, book)?;
    }
    Ok(())
}
