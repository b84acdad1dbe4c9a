//! The work of a run over the drives.

ghost use Rattle.std.specs.Prelude.{◌≡◌, ◌≤◌, ◌^◌, IfSome, Ok, false, length, true};
ghost use Rattle.fg_base.specs.declared.limits.TheConstants.{MAX_DRIVES};
ghost use Rattle.fg_build.specs.Answers.{HoldWhole, OpenedFits};
ghost use Rattle.fg_engine.specs.Tallies.{RoseWithin, tally_between};
ghost use Rattle.fg_outside.specs.Drives.{EachSame, RoomyKept, all_told};
ghost use Rattle.fg_top.specs.Calls.{output_between};
ghost use Rattle.fg_top.specs.Engines.{FitsLimits};
ghost use Rattle.fg_top.specs.Meaning.{MeansWish};
ghost use Rattle.fg_top.specs.Outcome.{held_graph, rules_of};
ghost use Rattle.fg_top.specs.Reads.{RunReads, RunReadsAll};
ghost use Rattle.fg_top.specs.RunJob.{OpeningRefused, RunsOpened};
ghost use Rattle.fg_top.specs.Stats.{EndsWithStats};
ghost use Rattle.fg_top.specs.Statuses.{CameToEnd};
ghost use Rattle.fg_top.specs.Tallies.{RoseByWish, Stood, begins_of};

use crate::engine::Engine;
use crate::opening::open_sourced;
use crate::picked::with_picked;
use crate::report::{close_run, refuse, write_head_of};
use crate::stats::Stats;
use crate::wish::Wish;
use fg_base::{Count, Refusal, Tally};
use fg_build::Opened;
use fg_engine::{RunDone, run_program};
use fg_model::Program;
use fg_outside::{Drive, Sink};
use fg_report::ReportWatch;
use std::alloc::Global;
use std::mem;
use std::sync::Wait;
use std::thread::Threads;

/// The drives as they come back, and the status.
struct Reported<D> {
    drives: Vec<D>,
    status: u8,
}

/// The run of the picked program over the drives that were opened, with all that is written behind its head.
fn report_plain<
    R: Threads + Wait + Sync,
    P: Program + Sync,
    D: Drive + Send,
    K: Sink,
    T: Tally + Send,
>(
    rt: &R,
    alloc: Global,
    program: &P,
    wish: Wish,
    engine: Engine,
    opened: Opened,
    drives: Vec<D>,
    out: &mut K,
    tally: &mut T,
) -> Reported<D>
    requires picked { P.rules program.now ≡ rules_of wish.pick }
    requires engine { FitsLimits engine }
    requires fits { OpenedFits opened }
    requires told { HoldWhole D.told opened.layout drives.items }
    requires room_of_runs { T.runs tally.old ≤ 2 ^ 62 }
    requires room_of_entries { T.entries tally.old ≤ 2 ^ 62 }
    ensures { RunsOpened false wish opened D.Drive drives.items result.drives.items (output_between K.Sink out.old out.new)
        (tally_between T.Tally tally.old tally.new) result.status }
{
    let mut watch = ReportWatch {
        program,
        out,
        each: wish.each,
    };
    let options = engine.options(wish.max);
    let RunDone {
        drives: back,
        answer,
        ..
    } = run_program(
        rt, alloc, drives, opened, program, options, &mut watch, tally,
    );
    let status = close_run(watch.out, program, wish.quiet, None, answer);
    Reported {
        drives: back,
        status,
    }
}

/// The same with stats: the run is counted by a tally of its own, whose numbers can be read, and the caller's is raised by them.
fn report_counted<R: Threads + Wait + Sync, P: Program + Sync, D: Drive + Send, K: Sink, T: Tally>(
    rt: &R,
    alloc: Global,
    program: &P,
    wish: Wish,
    engine: Engine,
    opened: Opened,
    drives: Vec<D>,
    out: &mut K,
    tally: &mut T,
) -> Reported<D>
    requires picked { P.rules program.now ≡ rules_of wish.pick }
    requires engine { FitsLimits engine }
    requires fits { OpenedFits opened }
    requires told { HoldWhole D.told opened.layout drives.items }
    requires room_of_runs { T.runs tally.old ≤ 2 ^ 62 }
    requires room_of_entries { T.entries tally.old ≤ 2 ^ 62 }
    ensures { RunsOpened true wish opened D.Drive drives.items result.drives.items (output_between K.Sink out.old out.new)
        (tally_between T.Tally tally.old tally.new) result.status }
{
    let mut watch = ReportWatch {
        program,
        out,
        each: wish.each,
    };
    let options = engine.options(wish.max);
    let mut count = Count::new();
    let RunDone {
        drives: back,
        answer,
        reads,
        pages,
        ..
    } = run_program(
        rt, alloc, drives, opened, program, options, &mut watch, &mut count,
    );
    let stats = Stats::new(reads, pages, &count);
    let settled = stats.settle(answer, tally);
    let status = close_run(watch.out, program, wish.quiet, Some(stats), settled);
    Reported {
        drives: back,
        status,
    }
}

/// The same, with stats where they are asked for.
fn report_run<
    R: Threads + Wait + Sync,
    P: Program + Sync,
    D: Drive + Send,
    K: Sink,
    T: Tally + Send,
>(
    rt: &R,
    alloc: Global,
    program: &P,
    wish: Wish,
    engine: Engine,
    stats: bool,
    opened: Opened,
    drives: Vec<D>,
    out: &mut K,
    tally: &mut T,
) -> Reported<D>
    requires picked { P.rules program.now ≡ rules_of wish.pick }
    requires engine { FitsLimits engine }
    requires fits { OpenedFits opened }
    requires told { HoldWhole D.told opened.layout drives.items }
    requires room_of_runs { T.runs tally.old ≤ 2 ^ 62 }
    requires room_of_entries { T.entries tally.old ≤ 2 ^ 62 }
    ensures { RunsOpened stats wish opened D.Drive drives.items result.drives.items (output_between K.Sink out.old out.new)
        (tally_between T.Tally tally.old tally.new) result.status }
{
    if stats {
        report_counted(rt, alloc, program, wish, engine, opened, drives, out, tally)
    } else {
        report_plain(rt, alloc, program, wish, engine, opened, drives, out, tally)
    }
}

/// The same of whichever program is picked.
fn run_picked<R: Threads + Wait + Sync, D: Drive + Send, K: Sink, T: Tally + Send>(
    rt: &R,
    alloc: Global,
    wish: Wish,
    engine: Engine,
    stats: bool,
    opened: Opened,
    drives: Vec<D>,
    out: &mut K,
    tally: &mut T,
) -> Reported<D>
    requires engine { FitsLimits engine }
    requires fits { OpenedFits opened }
    requires told { HoldWhole D.told opened.layout drives.items }
    requires room_of_runs { T.runs tally.old ≤ 2 ^ 62 }
    requires room_of_entries { T.entries tally.old ≤ 2 ^ 62 }
    ensures { RunsOpened stats wish opened D.Drive drives.items result.drives.items (output_between K.Sink out.old out.new)
        (tally_between T.Tally tally.old tally.new) result.status }
{
    with_picked!(wish.pick, program => report_run(rt, alloc, &program, wish, engine, stats, opened, drives, out, tally))
}

/// Does a run over the drives: they are opened, the source is looked at, and then the run is written, its head first, and with
/// stats where they are asked for.
pub fn run_job<R: Threads + Wait + Sync, D: Drive + Send, K: Sink, T: Tally + Send>(
    rt: &R,
    alloc: Global,
    wish: Wish,
    engine: Engine,
    stats: bool,
    drives: &mut Vec<D>,
    out: &mut K,
    tally: &mut T,
) -> u8
    requires some { 1 ≤ length drives.old.items }
    requires few { length drives.old.items ≤ MAX_DRIVES }
    requires engine { FitsLimits engine }
    requires room_of_runs { T.runs tally.old ≤ 2 ^ 62 }
    requires room_of_entries { T.entries tally.old ≤ 2 ^ 62 }
    ensures ends { EndsWithStats stats wish D.Drive drives.old.items drives.new.items
        (output_between K.Sink out.old out.new) (tally_between T.Tally tally.old tally.new) result }
    ensures drives { EachSame D.held drives.old.items drives.new.items }
    ensures sure { RoomyKept D.room D.faults drives.old.items drives.new.items }
    ensures reads { IfSome (all_told D.held drives.old.items) (λ helds. RunReads D.log wish helds drives.old.items drives.new.items) }
    ensures means { result ≡ 0 → IfSome (all_told D.held drives.old.items) (λ helds. MeansWish wish (held_graph helds)) }
    ensures all_read { result ≡ 0 → IfSome (all_told D.held drives.old.items) (λ helds. RunReadsAll D.log wish helds drives.old.items drives.new.items) }
    ensures tally { result ≡ 0 → IfSome (all_told D.held drives.old.items)
        (λ helds. RoseByWish wish (held_graph helds) (tally_between T.Tally tally.old tally.new)) }
    ensures tally_went { IfSome (all_told D.held drives.old.items)
        (λ helds. RoseWithin (CameToEnd result) (begins_of wish (held_graph helds))
        (tally_between T.Tally tally.old tally.new)) }
    ensures told { result ≡ 7 → OpeningRefused D.told drives.old.items drives.new.items }
    ensures tally_stands { result ≡ 7 → Stood
        (tally_between T.Tally tally.old tally.new) }
{
    let opened = match open_sourced(alloc, wish, drives) {
        Ok(opened) => opened,
        Err(refusal) => return refuse(out, refusal),
    };
    if let Err(_) = write_head_of(out, wish.pick, &opened.header) {
        return Refusal::OutputFault.status();
    }
    let taken = mem::replace(drives, Vec::new(alloc));
    let Reported {
        drives: back,
        status,
    } = run_picked(rt, alloc, wish, engine, stats, opened, taken, out, tally);
    *drives = back;
    status
}
