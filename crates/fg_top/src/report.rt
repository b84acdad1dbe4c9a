//! What a job writes besides the lines of its iterations.

ghost use Rattle.std.specs.Prelude.{◌≡◌, ◌≢◌, ◌≤◌, ◌^◌, ◌++◌, Contains, IfOk, OnErr, OnOk, Some, false, length};
ghost use Rattle.fg_base.specs.Faults.{Counts};
ghost use Rattle.fg_base.specs.Told.{grown, GrewByFirst};
ghost use Rattle.fg_base.specs.declared.refusal.Refusal.TheVariants.{OutputFault as output_fault};
ghost use Rattle.fg_report.specs.Lines.{program_names};
ghost use Rattle.fg_report.specs.Refusals.{refusal_line};
ghost use Rattle.fg_top.specs.Calls.{output_between};
ghost use Rattle.fg_top.specs.Ends.{IsWritten};
ghost use Rattle.fg_top.specs.Outcome.{head_of, name_of, stats_text, values_or_sum};
ghost use Rattle.fg_top.specs.Running.{IsClosed, IsRunRefused, end_text, words_refusal};

use crate::stats::Stats;
use fg_base::{Failed, Refusal, VState};
use fg_image::Header;
use fg_model::{End, Program, RunFault};
use fg_outside::Sink;
use fg_report::{write_end, write_head, write_refusal, write_stats, write_sum, write_values};
use fg_words::{JobFault, Pick};

/// The refusal of words that give no job.
pub fn refusal_of_words(fault: JobFault) -> Refusal
    ensures refusal { result ≡ words_refusal fault }
    ensures not_output { result ≢ output_fault }
{
    match fault {
        JobFault::Memory => Refusal::Memory,
        JobFault::Words(fault) => Refusal::Words(fault),
    }
}

/// Writes a refusal's line as the last of a job's text, and hands on all that the output gathered.
#[tactic(auto, using(fg_report::proofs::FlushLemmas::whole_is_part))]
fn write_refused<K: Sink>(out: &mut K, refusal: &Refusal) -> Result<(), Failed>
    requires { refusal.now ≢ output_fault }
    ensures whole { OnOk result (K.written out.new ≡ grown (K.written out.old) (refusal_line refusal.now)) }
    ensures part { OnErr result (GrewByFirst (refusal_line refusal.now) (K.written out.old) (K.written out.new)) }
    ensures handed { OnOk result (K.keeps_back out.new ≡ false) }
    ensures counted { Counts (K.faults out.old) (K.faults out.new) result }
{
    if let Err(failed) = write_refusal(out, refusal) {
        return Err(failed);
    }
    out.flush()
}

/// Writes a refusal's line; the status is the refusal's, or the output's where a put or the flush fails.
pub fn refuse<K: Sink>(out: &mut K, refusal: Refusal) -> u8
    requires { refusal ≢ output_fault }
    ensures { IsWritten (output_between K.Sink out.old out.new)
        (Some refusal) (refusal_line refusal) result }
{
    if let Err(_) = write_refused(out, &refusal) {
        return Refusal::OutputFault.status();
    }
    refusal.status()
}

/// The program's name as it is written.
fn name_of(pick: Pick) -> &'static str
    ensures name { result.now ≡ name_of pick }
    ensures known { Contains program_names result.now }
{
    match pick {
        Pick::Bfs(_) => "bfs",
        Pick::Sssp(_) => "sssp",
        Pick::Wcc => "wcc",
        Pick::Core => "core",
        Pick::Rank(_) => "rank",
    }
}

/// Writes the head of a run: the program and the counts of the header.
pub fn write_head_of<K: Sink>(out: &mut K, pick: Pick, header: &Header) -> Result<(), Failed>
    ensures whole { OnOk result (K.written out.new ≡ grown (K.written out.old) (head_of pick header.now)) }
    ensures part { OnErr result (GrewByFirst (head_of pick header.now) (K.written out.old) (K.written out.new)) }
    ensures counted { Counts (K.faults out.old) (K.faults out.new) result }
{
    write_head(
        out,
        name_of(pick),
        header.n,
        header.out_entries,
        header.in_entries,
    )
}

/// Writes the values of these states, or their sum.
fn write_values_or_sum<P: Program, K: Sink>(
    out: &mut K,
    program: &P,
    quiet: bool,
    states: &[VState],
) -> Result<(), Failed>
    requires { length states.now ≤ 2 ^ 32 }
    ensures whole { OnOk result (K.written out.new ≡ grown (K.written out.old) (values_or_sum quiet (P.rules program.now).show states.now)) }
    ensures part { OnErr result (GrewByFirst (values_or_sum quiet (P.rules program.now).show states.now) (K.written out.old) (K.written out.new)) }
    ensures counted { Counts (K.faults out.old) (K.faults out.new) result }
{
    if quiet {
        write_sum(out, program, states)
    } else {
        write_values(out, program, states)
    }
}

/// Writes the values of these states, or their sum, as the last of a job's text, and hands on all that the output gathered.
#[tactic(auto, using(fg_report::proofs::FlushLemmas::whole_is_part))]
fn write_closing<P: Program, K: Sink>(
    out: &mut K,
    program: &P,
    quiet: bool,
    states: &[VState],
) -> Result<(), Failed>
    requires { length states.now ≤ 2 ^ 32 }
    ensures whole { OnOk result (K.written out.new ≡ grown (K.written out.old) (values_or_sum quiet (P.rules program.now).show states.now)) }
    ensures part { OnErr result (GrewByFirst (values_or_sum quiet (P.rules program.now).show states.now) (K.written out.old) (K.written out.new)) }
    ensures handed { OnOk result (K.keeps_back out.new ≡ false) }
    ensures counted { Counts (K.faults out.old) (K.faults out.new) result }
{
    if let Err(failed) = write_values_or_sum(out, program, quiet, states) {
        return Err(failed);
    }
    out.flush()
}

/// Writes the line of stats, where there are some.
fn write_some_stats<K: Sink>(out: &mut K, stats: Option<Stats>) -> Result<(), Failed>
    ensures whole { OnOk result (K.written out.new ≡ grown (K.written out.old) (stats_text stats)) }
    ensures part { OnErr result (GrewByFirst (stats_text stats) (K.written out.old) (K.written out.new)) }
    ensures counted { Counts (K.faults out.old) (K.faults out.new) result }
{
    match stats {
        Some(stats) => write_stats(out, stats.reads, stats.pages, stats.runs, stats.entries),
        None => Ok(()),
    }
}

/// Writes the stats, where there are some, and the values of these states, or their sum, which end the job's text.
#[tactic(auto, using(fg_base::proofs::GrowthLemmas::growth))]
fn write_behind_end<P: Program, K: Sink>(
    out: &mut K,
    program: &P,
    quiet: bool,
    stats: Option<Stats>,
    states: &[VState],
) -> Result<(), Failed>
    requires { length states.now ≤ 2 ^ 32 }
    ensures whole { OnOk result (K.written out.new ≡ grown (K.written out.old)
        (stats_text stats ++ values_or_sum quiet (P.rules program.now).show states.now)) }
    ensures part { OnErr result (GrewByFirst (stats_text stats ++ values_or_sum quiet (P.rules program.now).show states.now)
        (K.written out.old) (K.written out.new)) }
    ensures handed { OnOk result (K.keeps_back out.new ≡ false) }
    ensures counted { Counts (K.faults out.old) (K.faults out.new) result }
{
    if let Err(failed) = write_some_stats(out, stats) {
        return Err(failed);
    }
    write_closing(out, program, quiet, states)
}

/// Writes the end line of a run, its stats where there are some, and its values or their sum, which end the job's text.
#[tactic(auto, using(fg_base::proofs::GrowthLemmas::growth))]
fn write_last<P: Program, K: Sink>(
    out: &mut K,
    program: &P,
    quiet: bool,
    stats: Option<Stats>,
    end: &End,
) -> Result<(), Failed>
    requires { length end.now.states ≤ 2 ^ 32 }
    ensures whole { OnOk result (K.written out.new ≡ grown (K.written out.old) (end_text stats quiet (P.rules program.now).show end.now)) }
    ensures part { OnErr result (GrewByFirst (end_text stats quiet (P.rules program.now).show end.now) (K.written out.old) (K.written out.new)) }
    ensures handed { OnOk result (K.keeps_back out.new ≡ false) }
    ensures counted { Counts (K.faults out.old) (K.faults out.new) result }
{
    if let Err(failed) = write_end(out, end.settled, end.iterations) {
        return Err(failed);
    }
    write_behind_end(out, program, quiet, stats, end.states.as_slice())
}

/// Writes the line of what refused a run, and nothing where a put has failed already. The answer is the status.
fn refuse_run<K: Sink>(out: &mut K, fault: RunFault) -> u8
    ensures { IsRunRefused (output_between K.Sink out.old out.new) fault result }
{
    match fault {
        RunFault::Memory => refuse(out, Refusal::Memory),
        RunFault::Drive(drive) => refuse(out, Refusal::DriveFault(drive)),
        RunFault::BadEdge(bad) => refuse(out, Refusal::BadEdge(bad)),
        RunFault::Watch => Refusal::OutputFault.status(),
    }
}

/// Writes the end of a run: its end line, its stats where there are some, and its values or their sum, or the line of what refused it, and nothing where a
/// put has failed already. The answer is the status.
pub fn close_run<P: Program, K: Sink>(
    out: &mut K,
    program: &P,
    quiet: bool,
    stats: Option<Stats>,
    answer: Result<End, RunFault>,
) -> u8
    requires { IfOk answer (λ end. length end.states ≤ 2 ^ 32) }
    ensures { IsClosed stats quiet (P.rules program.now).show (output_between K.Sink out.old out.new) answer result }
{
    let end = match answer {
        Ok(end) => end,
        Err(fault) => return refuse_run(out, fault),
    };
    if let Err(_) = write_last(out, program, quiet, stats, &end) {
        return Refusal::OutputFault.status();
    }
    0
}
