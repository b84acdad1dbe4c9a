//! Running the jobs of a page.

ghost use Rattle.std.specs.Prelude.{◌≡◌, ◌≤◌, All, length, map};
ghost use Rattle.fg_task.specs.Groups.{AreOutside, IsGroup, emptied, waiting_on};
ghost use Rattle.fg_task.specs.Running.{CanRun, HasRun};

use crate::group::{Group, Places};
use crate::job::Job;
use crate::least::lesser;
use crate::segment_run::SegmentRun;
use fg_base::{BadEdge, Tally};
use fg_batch::Outbox;

/// Runs these jobs, which wait for one page; the answer is their least bad edge.
pub(crate) fn run_jobs<F: SegmentRun, T: Tally>(
    function: &F,
    jobs: &[Job],
    bytes: &[u8],
    outbox: &mut Outbox,
    tally: &mut T,
) -> Option<BadEdge>
    requires { CanRun (F.work function.now) bytes.now jobs.now outbox.old (T.entries tally.old) }
    ensures run { HasRun (F.work function.now) bytes.now jobs.now outbox.old outbox.new (T.entries tally.old) (T.entries tally.new) result }
    ensures runs { T.runs tally.new ≡ T.runs tally.old }
{
    let mut bad = None;
    for job in jobs {
        let step = function.run(job, bytes, outbox, tally);
        bad = lesser(bad, step.bad());
    }
    bad
}

/// Runs the jobs of all groups on this page, which are among those at `places`, and empties the groups.
pub(crate) fn run_groups<F: SegmentRun, T: Tally>(
    function: &F,
    jobs: &[Job],
    groups: &mut Vec<Group>,
    places: Places,
    page: u32,
    bytes: &[u8],
    outbox: &mut Outbox,
    tally: &mut T,
) -> Option<BadEdge>
    requires groups { All (IsGroup jobs.now) groups.old.items }
    requires within { (places.from ≤ places.to) × (places.to ≤ length groups.old.items) }
    requires outside { AreOutside page places groups.old.items }
    requires can { CanRun (F.work function.now) bytes.now (waiting_on page jobs.now groups.old.items) outbox.old (T.entries tally.old) }
    ensures left { groups.new.items ≡ map (emptied page) groups.old.items }
    ensures run { HasRun (F.work function.now) bytes.now (waiting_on page jobs.now groups.old.items) outbox.old outbox.new
        (T.entries tally.old) (T.entries tally.new) result }
    ensures runs { T.runs tally.new ≡ T.runs tally.old }
{
    let mut bad = None;
    for at in places.from..places.to {
        let group = groups[at];
        if group.page != page {
            continue;
        }
        let found = run_jobs(function, &jobs[group.from..group.to], bytes, outbox, tally);
        bad = lesser(bad, found);
        groups[at] = Group {
            to: group.from,
            ..group
        };
    }
    bad
}
