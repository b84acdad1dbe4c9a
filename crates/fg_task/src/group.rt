//! Jobs that stand side by side and wait for one page.

ghost use Rattle.std.specs.Prelude.{◌≡◌, ◌<◌, ◌≤◌, true, nat_lt, All, List, OnOk, length};
ghost use Rattle.fg_task.specs.declared.job.Job.{Job};
ghost use Rattle.fg_task.specs.Book.{Tells};
ghost use Rattle.fg_task.specs.Groups.{AreOutside, Ascends, EndsAt, IsBehind, IsGroup, waiting, with_last_to};

use fg_base::Memory;

/// Of a list of jobs those from `from` to before `to`, which wait for `page`.
#[derive(Clone, Copy)]
pub(crate) struct Group {
    pub page: u32,
    pub from: usize,
    pub to: usize,
}

/// Some of the groups of a list: those from `from` to before `to`.
#[derive(Clone, Copy)]
pub(crate) struct Places {
    pub from: usize,
    pub to: usize,
}

/// Some groups of which no other is on this page: where the groups ascend, the one that is on it, if there is one, else all.
pub(crate) fn places_of(groups: &[Group], ascending: bool, page: u32) -> Places
    requires { ascending ≡ true → Ascends groups.now }
    ensures within { (result.from ≤ result.to) × (result.to ≤ length groups.now) }
    ensures outside { AreOutside page result groups.now }
{
    if !ascending {
        return Places {
            from: 0,
            to: groups.len(),
        };
    }
    let from = groups.partition_point(
        |group: &Group| -> bool
            ensures { result ≡ nat_lt group.now.page page }
        { group.page < page },
    );
    Places {
        from,
        to: groups.len().min(from + 1),
    }
}

/// Whether the last group is on the page and ends at this job.
pub(crate) fn ends_at(groups: &[Group], page: u32, at: usize) -> bool
    ensures { result ≡ true → EndsAt page at groups.now }
{
    let count = groups.len();
    if count == 0 {
        return false;
    }
    let last = groups[count - 1];
    if last.page != page {
        return false;
    }
    last.to == at
}

/// Lets the last group end there.
pub(crate) fn lengthen(groups: &mut Vec<Group>, to: usize)
    requires { 0 < length groups.old.items }
    ensures { groups.new.items ≡ with_last_to to groups.old.items }
{
    let last = groups.len() - 1;
    groups[last] = Group { to, ..groups[last] };
}

/// Whether groups that ascend still do with one more behind them, on this page.
pub(crate) fn still_ascends(groups: &[Group], ascending: bool, page: u32) -> bool
    ensures { result ≡ true → (ascending ≡ true) × IsBehind page groups.now }
{
    if !ascending {
        return false;
    }
    match groups.last() {
        Some(last) => last.page < page,
        None => true,
    }
}

/// Puts the pages of the groups that aren't empty behind `pages`.
pub(crate) fn tell(groups: &[Group], pages: &mut Vec<u32>) -> Result<(), Memory>
    ensures { OnOk result ((jobs : List Job) → All (IsGroup jobs) groups.now
        → Tells (waiting jobs groups.now) pages.old.items pages.new.items) }
{
    for group in groups {
        if group.from == group.to {
            continue;
        }
        pages.push(group.page)?;
    }
    Ok(())
}
