//! How many entries the jobs of a page have.

ghost use Rattle.std.specs.Prelude.{◌≡◌, ◌+◌, ◌≤◌, All, IfOk, length};
ghost use Rattle.fg_task.specs.Groups.{AreOutside, IsGroup, waiting_on};
ghost use Rattle.fg_task.specs.Running.{entries_of};

use crate::group::{Group, Places};
use crate::job::Job;
use crate::segment_run::SegmentRun;
use fg_base::Memory;

/// How many entries these jobs have.
pub(crate) fn count_jobs<F: SegmentRun>(function: &F, jobs: &[Job]) -> Result<usize, Memory>
    ensures { IfOk result (λ count. count ≡ entries_of (F.work function.now) jobs.now) }
{
    let weighted = function.is_weighted();
    let mut count = 0;
    for job in jobs {
        count = added(count, job.entries(weighted) as usize)?;
    }
    Ok(count)
}

/// How many entries the jobs of all groups on this page have, which are among those at `places`.
pub(crate) fn count_groups<F: SegmentRun>(
    function: &F,
    jobs: &[Job],
    groups: &[Group],
    places: Places,
    page: u32,
) -> Result<usize, Memory>
    requires groups { All (IsGroup jobs.now) groups.now }
    requires within { (places.from ≤ places.to) × (places.to ≤ length groups.now) }
    requires outside { AreOutside page places groups.now }
    ensures { IfOk result (λ count. count ≡ entries_of (F.work function.now) (waiting_on page jobs.now groups.now)) }
{
    let mut count = 0;
    for at in places.from..places.to {
        let group = groups[at];
        if group.page != page {
            continue;
        }
        let more = count_jobs(function, &jobs[group.from..group.to])?;
        count = added(count, more)?;
    }
    Ok(count)
}

/// The sum of two counts. No memory has room for one that is no number.
pub(crate) fn added(one: usize, more: usize) -> Result<usize, Memory>
    ensures { IfOk result (λ sum. sum ≡ one + more) }
{
    one.checked_add(more).ok_or(Memory)
}
