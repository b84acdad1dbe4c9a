//! The program on drives.

ghost use Rattle.std.specs.Prelude.{IfOk, IfSome};
ghost use Rattle.fg_build.specs.Answers.{HoldWhole, OpenedFits};
ghost use Rattle.fg_build.specs.Opening.{graph_on};
ghost use Rattle.fg_engine.specs.Options.{AreOptions};
ghost use Rattle.fg_greatest.specs.Reaching.{AreGreatestReaching};
ghost use Rattle.fg_outside.specs.Drives.{EachSame, all_told};

use crate::greatest::Greatest;
use fg_base::Count;
use fg_build::Opened;
use fg_engine::{Options, RunDone, run_program};
use fg_model::Watch;
use fg_outside::Drive;
use std::alloc::Global;
use std::sync::Wait;
use std::thread::Threads;

/// The greatest vertex that reaches each one of the image that was opened on these drives. The watch is shown each iteration.
/// The drives come back as they were, and where they tell what they hold, the values of a settled end are what they should be.
pub fn run_greatest<D: Drive + Send, W: Watch, R: Threads + Wait + Sync>(
    rt: &R,
    alloc: Global,
    drives: Vec<D>,
    opened: Opened,
    options: Options,
    watch: &mut W,
) -> RunDone<D>
    requires fits { OpenedFits opened }
    requires told { HoldWhole D.told opened.layout drives.items }
    requires options { AreOptions options }
    ensures held { EachSame D.held drives.items result.drives.items }
    ensures values { IfSome (all_told D.held drives.items) (λ helds. IfOk result.answer (AreGreatestReaching (graph_on opened helds))) }
{
    let mut tally = Count::new();
    run_program(
        rt, alloc, drives, opened, &Greatest, options, watch, &mut tally,
    )
}
