//! The vertices of a block begin.

ghost use Rattle.std.specs.Prelude.{◌≡◌, ◌+◌, ◌^◌, ◌<◌, ◌≤◌, ◌∷◌, [], IfOk, OnOk, length};
ghost use Rattle.fg_part.specs.PartMap.{block_total};
ghost use Rattle.fg_task.specs.Book.{jobs_of};
ghost use Rattle.fg_worker.specs.Beginning.{StandFor, StandForMore};
ghost use Rattle.fg_worker.specs.Desk.{IsDesk, active_in, awake_in, setting_of, work_in};

use crate::adding::add_lists;
use crate::desk::Desk;
use fg_base::{Memory, Tally};
use fg_model::Program;
use fg_outside::Drive;
use fg_task::{SegmentRun, TaskBook};

/// Begins the run of a vertex if it is active; whether it is. Its new state is not kept: whoever gathers the messages makes it again.
fn begin_vertex<P: Program, D: Drive, F: SegmentRun, T: Tally>(
    desk: &Desk<'_, P, D>,
    v: u32,
    book: &mut TaskBook<F>,
    tally: &mut T,
) -> Result<u32, Memory>
    requires desk { IsDesk (setting_of P.rules desk.now) }
    requires vertex { v < desk.now.map.n }
    requires room { T.runs tally.old + length (awake_in (setting_of P.rules desk.now) (v ∷ [])) < 2 ^ 64 }
    requires work { F.work book.old.function ≡ work_in (setting_of P.rules desk.now) }
    ensures function { book.new.function ≡ book.old.function }
    ensures awake { IfOk result (λ count. count ≡ length (awake_in (setting_of P.rules desk.now) (v ∷ []))) }
    ensures added { OnOk result (StandForMore (setting_of P.rules desk.now) (awake_in (setting_of P.rules desk.now) (v ∷ []))
        (jobs_of book.old) (jobs_of book.new)) }
    ensures runs { T.runs tally.new ≡ T.runs tally.old + length (awake_in (setting_of P.rules desk.now) (v ∷ [])) }
    ensures entries { T.entries tally.new ≡ T.entries tally.old }
{
    let state = desk.states[v as usize];
    if !desk.program.wake(desk.phase, state) {
        return Ok(0);
    }
    let (_state, carry) = desk.program.begin(desk.phase, v, state, tally);
    add_lists(desk, v, carry, book)?;
    Ok(1)
}

/// Begins the active vertices of a block in ascending order, and adds the jobs on their needed lists to an empty book; how many they
/// are.
pub(crate) fn begin_block<P: Program, D: Drive, F: SegmentRun, T: Tally>(
    desk: &Desk<'_, P, D>,
    block: u32,
    book: &mut TaskBook<F>,
    tally: &mut T,
) -> Result<u32, Memory>
    requires desk { IsDesk (setting_of P.rules desk.now) }
    requires block { block < block_total desk.now.map }
    requires empty { jobs_of book.old ≡ [] }
    requires work { F.work book.old.function ≡ work_in (setting_of P.rules desk.now) }
    requires room { T.runs tally.old + length (active_in (setting_of P.rules desk.now) block) < 2 ^ 64 }
    ensures function { book.new.function ≡ book.old.function }
    ensures active { IfOk result (λ count. count ≡ length (active_in (setting_of P.rules desk.now) block)) }
    ensures begun { OnOk result (StandFor (setting_of P.rules desk.now)
        (active_in (setting_of P.rules desk.now) block) (jobs_of book.new)) }
    ensures runs { OnOk result (T.runs tally.new ≡ T.runs tally.old + length (active_in (setting_of P.rules desk.now) block)) }
    ensures few { T.runs tally.new ≤ T.runs tally.old + length (active_in (setting_of P.rules desk.now) block) }
    ensures entries { T.entries tally.new ≡ T.entries tally.old }
{
    let size = desk.map.block_size();
    let first = block * size;
    let end = desk.map.n.min(first + size);
    let mut active = 0;
    for v in first..end {
        active += begin_vertex(desk, v, book, tally)?;
    }
    Ok(active)
}
