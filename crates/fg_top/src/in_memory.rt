//! The work of a run over the whole graph in memory.

ghost use Rattle.std.specs.Prelude.{◌≡◌, ◌≤◌, ◌≢◌, IfErr, IfOk, IfSome, None, OnOk, Some, length};
ghost use Rattle.fg_base.specs.Refusal.{status_of};
ghost use Rattle.fg_base.specs.declared.limits.TheConstants.{MAX_DRIVES};
ghost use Rattle.fg_base.specs.declared.refusal.Refusal.TheVariants.{OutputFault as output_fault};
ghost use Rattle.fg_build.specs.Answers.{HoldWhole, OpenedFits, ReadCounts};
ghost use Rattle.fg_build.specs.Opening.{graph_on};
ghost use Rattle.fg_build.specs.OpeningReads.{whole_reads};
ghost use Rattle.fg_build.specs.PagesTold.{RefusedTold};
ghost use Rattle.fg_model.specs.Graph.{IsWithinLimits};
ghost use Rattle.fg_outside.specs.Drives.{EachSame, LogsGrew, LogsGrewByFirst, NoneRose, RoomyKept, all_told};
ghost use Rattle.fg_report.specs.Refusals.{refusal_line};
ghost use Rattle.fg_top.specs.Calls.{output_between};
ghost use Rattle.fg_top.specs.Ends.{Ends, EndsAlone, IsCause, LeavesHeld};
ghost use Rattle.fg_top.specs.Meaning.{MeansWish};
ghost use Rattle.fg_top.specs.Outcome.{WishComesTo, head_of, held_graph, outcome_of, rules_of, run_in, run_outcome};
ghost use Rattle.fg_top.specs.Reads.{ref_reads};
ghost use Rattle.fg_top.specs.RunJob.{OpeningRefused};
ghost use Rattle.fg_top.specs.Running.{RunComesTo};

use crate::opening::open_sourced;
use crate::picked::with_picked;
use crate::report::{close_run, refuse, write_head_of};
use crate::wish::Wish;
use fg_base::{Count, Refusal};
use fg_build::{Opened, read_all};
use fg_image::{Header, cut_graph};
use fg_model::{Graph, Program, plain_run};
use fg_outside::{Drive, Sink};
use fg_report::ReportWatch;
use std::alloc::Global;

/// The graph of the image that was opened on these drives. The image's bytes are gone when this returns.
fn read_graph<D: Drive>(
    alloc: Global,
    drives: &mut Vec<D>,
    opened: &Opened,
) -> Result<Graph, Refusal>
    requires fits { OpenedFits opened.now }
    requires told { HoldWhole D.told opened.now.layout drives.old.items }
    ensures graph { IfOk result (λ graph. IfSome (all_told D.held drives.old.items) (λ helds. graph ≡ graph_on opened.now helds)) }
    ensures within { IfOk result IsWithinLimits }
    ensures counts { ReadCounts D.faults drives.old.items drives.new.items result }
    ensures reads { LogsGrewByFirst D.log (whole_reads opened.now.layout) drives.old.items drives.new.items }
    ensures all_read { OnOk result (LogsGrew D.log (whole_reads opened.now.layout) drives.old.items drives.new.items) }
    ensures held { EachSame D.held drives.old.items drives.new.items }
    ensures sure { RoomyKept D.room D.faults drives.old.items drives.new.items }
{
    let image = match read_all(alloc, drives, opened) {
        Ok(image) => image,
        Err(refusal) => return Err(refusal),
    };
    match cut_graph(alloc, &opened.layout, &opened.index, &image) {
        Ok(graph) => Ok(graph),
        Err(_) => Err(Refusal::Memory),
    }
}

/// The run of the picked program over this graph, with all that is written behind its head.
fn report_run<P: Program, K: Sink>(
    alloc: Global,
    program: &P,
    wish: Wish,
    graph: &Graph,
    out: &mut K,
) -> u8
    requires picked { P.rules program.now ≡ rules_of wish.pick }
    requires within { IsWithinLimits graph.now }
    ensures began { result ≢ 7 }
    ensures ends { EndsAlone
        (RunComesTo (rules_of wish.pick) wish None (Some graph.now) (run_in wish))
        (output_between K.Sink out.old out.new) result }
{
    let mut watch = ReportWatch {
        program,
        out,
        each: wish.each,
    };
    let mut tally = Count::new();
    let answer = plain_run(alloc, graph, program, wish.max, &mut watch, &mut tally);
    close_run(watch.out, program, wish.quiet, None, answer)
}

/// The same of whichever program is picked.
fn run_picked<K: Sink>(alloc: Global, wish: Wish, graph: &Graph, out: &mut K) -> u8
    requires { IsWithinLimits graph.now }
    ensures began { result ≢ 7 }
    ensures ends { EndsAlone
        (RunComesTo (rules_of wish.pick) wish None (Some graph.now) (run_in wish))
        (output_between K.Sink out.old out.new) result }
{
    with_picked!(wish.pick, program => report_run(alloc, &program, wish, graph, out))
}

/// The header and the graph of an image.
struct Loaded {
    header: Header,
    graph: Graph,
}

/// Opens the drives, looks whether the source is a vertex, and reads the graph. The index is gone when this returns.
fn load<D: Drive>(alloc: Global, wish: Wish, drives: &mut Vec<D>) -> Result<Loaded, Refusal>
    requires some { 1 ≤ length drives.old.items }
    requires few { length drives.old.items ≤ MAX_DRIVES }
    ensures outcome { IfOk result (λ loaded. IfSome (all_told D.held drives.old.items)
        (λ helds. outcome_of wish None helds ≡ run_outcome wish None (head_of wish.pick loaded.header) (run_in wish loaded.graph))) }
    ensures within { IfOk result (λ loaded. IsWithinLimits loaded.graph) }
    ensures kept { OnOk result (NoneRose D.faults drives.old.items drives.new.items) }
    ensures cause { IfErr result (λ refusal. IsCause D.faults drives.old.items drives.new.items (WishComesTo wish None (all_told D.held drives.old.items))
        (Some refusal) (refusal_line refusal)) }
    ensures not_output { IfErr result (λ refusal. refusal ≢ output_fault) }
    ensures told_err { IfErr result (λ refusal. status_of refusal ≡ 7 → RefusedTold D.told drives.old.items drives.new.items refusal) }
    ensures means { OnOk result (IfSome (all_told D.held drives.old.items) (λ helds. MeansWish wish (held_graph helds))) }
    ensures reads { IfSome (all_told D.held drives.old.items) (λ helds. LogsGrewByFirst D.log (ref_reads wish helds) drives.old.items drives.new.items) }
    ensures all_read { OnOk result (IfSome (all_told D.held drives.old.items)
        (λ helds. LogsGrew D.log (ref_reads wish helds) drives.old.items drives.new.items)) }
    ensures held { EachSame D.held drives.old.items drives.new.items }
    ensures sure { RoomyKept D.room D.faults drives.old.items drives.new.items }
{
    let opened = match open_sourced(alloc, wish, drives) {
        Ok(opened) => opened,
        Err(refusal) => return Err(refusal),
    };
    match read_graph(alloc, drives, &opened) {
        Ok(graph) => Ok(Loaded {
            header: opened.header,
            graph,
        }),
        Err(refusal) => Err(refusal),
    }
}

/// Does a run in memory: the drives are opened, the source is looked at, the image is read whole and its lists are cut
/// out, and then the run is written, its head first.
pub fn ref_job<D: Drive, K: Sink>(alloc: Global, wish: Wish, drives: &mut Vec<D>, out: &mut K) -> u8
    requires some { 1 ≤ length drives.old.items }
    requires few { length drives.old.items ≤ MAX_DRIVES }
    ensures ends { Ends D.faults drives.old.items drives.new.items
        (WishComesTo wish None (all_told D.held drives.old.items))
        (LeavesHeld D.held drives.old.items drives.new.items)
        (output_between K.Sink out.old out.new) result }
    ensures drives { EachSame D.held drives.old.items drives.new.items }
    ensures sure { RoomyKept D.room D.faults drives.old.items drives.new.items }
    ensures reads { IfSome (all_told D.held drives.old.items) (λ helds. LogsGrewByFirst D.log (ref_reads wish helds) drives.old.items drives.new.items) }
    ensures told { result ≡ 7 → OpeningRefused D.told drives.old.items drives.new.items }
    ensures means { result ≡ 0 → IfSome (all_told D.held drives.old.items) (λ helds. MeansWish wish (held_graph helds)) }
    ensures all_read { result ≡ 0 → IfSome (all_told D.held drives.old.items)
        (λ helds. LogsGrew D.log (ref_reads wish helds) drives.old.items drives.new.items) }
{
    let Loaded { header, graph } = match load(alloc, wish, drives) {
        Ok(loaded) => loaded,
        Err(refusal) => return refuse(out, refusal),
    };
    if let Err(_) = write_head_of(out, wish.pick, &header) {
        return Refusal::OutputFault.status();
    }
    run_picked(alloc, wish, &graph, out)
}
