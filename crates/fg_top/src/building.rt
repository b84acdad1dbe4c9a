//! The work of building an image from a text.

ghost use Rattle.std.specs.Prelude.{◌≡◌, ◌≢◌, ◌≤◌, ◌⊎◌, Err, IfErr, IfOk, IfSome, OnOk, Some, length};
ghost use Rattle.fg_base.specs.Faults.{Rose};
ghost use Rattle.fg_base.specs.Refusal.{status_of};
ghost use Rattle.fg_base.specs.declared.limits.TheConstants.{MAX_DRIVES, MAX_UNIT};
ghost use Rattle.fg_base.specs.declared.refusal.Refusal.TheVariants.{InputFault as input_fault, OutputFault as output_fault};
ghost use Rattle.fg_build.specs.Building.{AreEmpty};
ghost use Rattle.fg_build.specs.Layouts.{plan_of};
ghost use Rattle.fg_build.specs.PagesTold.{EmptyTold};
ghost use Rattle.fg_outside.specs.Drives.{EachSame, NoneRose, RoomyKept, all_told};
ghost use Rattle.fg_report.specs.Refusals.{refusal_line};
ghost use Rattle.fg_text.specs.Pieces.{IsAtEnd, TookFront};
ghost use Rattle.fg_text.specs.Read.{ReadRefused};
ghost use Rattle.fg_top.specs.BuildJob.{BuildingRefused, StoppedReading};
ghost use Rattle.fg_top.specs.BuildOutcome.{BuildComesTo};
ghost use Rattle.fg_top.specs.Built.{AreBuilt, AreLeft, AreOfText, BuildLeaves, IsKeptByBuild};
ghost use Rattle.fg_top.specs.Calls.{input_between, output_between};
ghost use Rattle.fg_top.specs.Ends.{EndsLeaving, IsCause};

use crate::built_line::write_built;
use crate::report::refuse;
use fg_base::Refusal;
use fg_build::{build, empty};
use fg_model::Edges;
use fg_outside::{Drive, Sink, Source};
use fg_text::read_edges;
use std::alloc::Global;

/// Looks whether the drives are empty, and reads the edges of the text.
fn gather<S: Source, D: Drive>(
    alloc: Global,
    undirected: bool,
    input: &mut S,
    drives: &mut Vec<D>,
) -> Result<Edges, Refusal>
    requires { length drives.old.items ≤ MAX_DRIVES }
    ensures edges { IfOk result (AreOfText undirected (S.left input.old)) }
    ensures empty { OnOk result (IfSome (all_told D.held drives.old.items) AreEmpty) }
    ensures kept { OnOk result (NoneRose D.faults drives.old.items drives.new.items) }
    ensures cause { IfErr result (λ refusal. IsCause D.faults drives.old.items drives.new.items
        (BuildComesTo (length drives.old.items) undirected (all_told D.held drives.old.items)
        (input_between S.Source input.old input.new))
        (Some refusal) (refusal_line refusal)) }
    ensures not_output { IfErr result (λ refusal. refusal ≢ output_fault) }
    ensures told_err { IfErr result (λ refusal. status_of refusal ≡ 7 → EmptyTold D.told drives.old.items drives.new.items (Err refusal)) }
    ensures held { EachSame D.held drives.old.items drives.new.items }
    ensures log { EachSame D.log drives.old.items drives.new.items }
    ensures room { EachSame D.room drives.old.items drives.new.items }
    ensures sure { RoomyKept D.room D.faults drives.old.items drives.new.items }
    ensures end { OnOk result (IsAtEnd (S.left input.new)) }
    ensures front { TookFront (S.left input.old) (S.left input.new) }
    ensures unread { IfErr result (λ refusal. status_of refusal ≡ 7 → S.left input.new ≡ S.left input.old) }
    ensures stops { IfErr result (λ refusal. status_of refusal ≡ 6 →
        ReadRefused undirected (S.left input.old) (S.left input.new) (S.faults input.old) (S.faults input.new) refusal) }
    ensures input_kept { OnOk result (S.faults input.new ≡ S.faults input.old) }
    ensures input_faults { IfErr result (λ refusal. (S.faults input.new ≡ S.faults input.old) ⊎
        (Rose (S.faults input.old) (S.faults input.new) × (refusal ≡ input_fault))) }
    ensures input_later { S.faults input.old ≤ S.faults input.new }
{
    if let Err(refusal) = empty(drives) {
        return Err(refusal);
    }
    read_edges(alloc, input, undirected)
}

/// Builds the image of a text's edges over the drives, in units of so many pages and with this number, and writes a line of
/// it: the drives are looked at, the text is read to its end, the image is built, and then the line is written. Nothing that
/// was built is taken back.
pub fn build_job<S: Source, D: Drive, K: Sink>(
    alloc: Global,
    unit: u32,
    number: u64,
    undirected: bool,
    input: &mut S,
    drives: &mut Vec<D>,
    out: &mut K,
) -> u8
    requires some { 1 ≤ length drives.old.items }
    requires few { length drives.old.items ≤ MAX_DRIVES }
    requires some_unit { 1 ≤ unit }
    requires small_unit { unit ≤ MAX_UNIT }
    ensures ends { EndsLeaving D.faults drives.old.items drives.new.items
        (BuildComesTo (length drives.old.items) undirected (all_told D.held drives.old.items)
        (input_between S.Source input.old input.new))
        (BuildLeaves D.held D.faults (plan_of (length drives.old.items) unit number) undirected
        (input_between S.Source input.old input.new) drives.old.items drives.new.items)
        (output_between K.Sink out.old out.new) result }
    // What the drives hold: whatever the status, where the job is done, and where it was refused before the first append.
    ensures drives { AreLeft D.held D.faults (plan_of (length drives.old.items) unit number) undirected
        (input_between S.Source input.old input.new) drives.old.items drives.new.items }
    ensures built { result ≡ 0 → AreBuilt D.held D.faults (plan_of (length drives.old.items) unit number) undirected
        (input_between S.Source input.old input.new) drives.old.items drives.new.items }
    ensures unbuilt { result ≢ 0 → result ≢ 4 → result ≢ 5 → EachSame D.held drives.old.items drives.new.items }
    ensures sure { IsKeptByBuild D.room D.faults (plan_of (length drives.old.items) unit number) undirected (S.left input.old) drives.old.items
        drives.new.items }
    ensures reads { EachSame D.log drives.old.items drives.new.items }
    ensures told { result ≡ 7 → BuildingRefused D.told drives.old.items drives.new.items }
    // Some first part of the text was taken: none of it where a drive isn't empty, no more than up to the piece in which a
    // refused line ends, and all of it where the job is done.
    ensures input { TookFront (S.left input.old) (S.left input.new) }
    ensures unread { result ≡ 7 → S.left input.new ≡ S.left input.old }
    ensures stops { result ≡ 6 → StoppedReading undirected (S.left input.old) (S.left input.new) (S.faults input.old) (S.faults input.new) }
    ensures input_end { result ≡ 0 → IsAtEnd (S.left input.new) }
    ensures input_faults { (S.faults input.new ≡ S.faults input.old) ⊎ (Rose (S.faults input.old) (S.faults input.new) × ((result ≡ 3) ⊎ (result ≡ 4))) }
    ensures input_later { S.faults input.old ≤ S.faults input.new }
{
    let count = drives.len() as u32;
    let edges = match gather(alloc, undirected, input, drives) {
        Ok(edges) => edges,
        Err(refusal) => return refuse(out, refusal),
    };
    let pages = match build(alloc, &edges, unit, number, drives) {
        Ok(pages) => pages,
        Err(refusal) => return refuse(out, refusal),
    };
    if let Err(_) = write_built(out, &edges, pages, count) {
        return Refusal::OutputFault.status();
    }
    0
}
