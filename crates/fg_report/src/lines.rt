//! The lines of a run: its head, its finished iterations, its end and its stats.

ghost use Rattle.std.specs.Prelude.{◌≡◌, ◌+◌, ◌≤◌, [], ◌++◌, length, decimal, OnOk, OnErr, Contains};
ghost use Rattle.arrayvec.specs.ArrayString.{array_string_len};
ghost use Rattle.fg_base.specs.Faults.{Counts};
ghost use Rattle.fg_base.specs.Told.{grown, GrewByFirst};
ghost use Rattle.fg_report.specs.Lines.{program_names, head_line, iteration_line, end_word, end_line, stats_line};

use crate::line::{LINE_BYTES, Line, push_number};
use fg_base::Failed;
use fg_model::IterLine;
use fg_outside::{Sink, write_all};

/// Appends a program's name, at most 4 bytes.
#[tactic(auto, using(crate::proofs::LineLemmas::name_is_short))]
fn push_name(line: &mut Line, name: &str)
    requires named { Contains program_names name.now }
    requires room { array_string_len line.old + 4 ≤ LINE_BYTES }
    ensures bytes { line.new.bytes ≡ line.old.bytes ++ name.now }
    ensures len { array_string_len line.new ≤ array_string_len line.old + 4 }
{
    line.push_str(name);
}

/// Writes the head: the program's name, the number of vertices, and of the entries of all out-lists and in-lists. By
/// one `write_all`.
pub fn write_head<K: Sink>(
    out: &mut K,
    name: &str,
    n: u32,
    outs: u64,
    ins: u64,
) -> Result<(), Failed>
    requires { Contains program_names name.now }
    ensures whole { OnOk result (K.written out.new ≡ grown (K.written out.old) (head_line name.now n outs ins)) }
    ensures part { OnErr result (GrewByFirst (head_line name.now n outs ins) (K.written out.old) (K.written out.new)) }
    ensures counted { Counts (K.faults out.old) (K.faults out.new) result }
{
    let mut line = Line::new();
    line.push_str("program ");
    push_name(&mut line, name);
    line.push_str(" vertices ");
    push_number(&mut line, u64::from(n));
    line.push_str(" out ");
    push_number(&mut line, outs);
    line.push_str(" in ");
    push_number(&mut line, ins);
    line.push_str("\n");
    write_all(out, line.as_bytes())
}

/// Writes the line of a finished iteration, by one `write_all`.
pub fn write_iteration<K: Sink>(out: &mut K, of: IterLine) -> Result<(), Failed>
    ensures whole { OnOk result (K.written out.new ≡ grown (K.written out.old) (iteration_line of)) }
    ensures part { OnErr result (GrewByFirst (iteration_line of) (K.written out.old) (K.written out.new)) }
    ensures counted { Counts (K.faults out.old) (K.faults out.new) result }
{
    let mut line = Line::new();
    line.push_str("iteration ");
    push_number(&mut line, u64::from(of.number));
    line.push_str(" phase ");
    push_number(&mut line, of.phase);
    line.push_str(" active ");
    push_number(&mut line, of.active);
    line.push_str(" messages ");
    push_number(&mut line, of.messages);
    line.push_str("\n");
    write_all(out, line.as_bytes())
}

/// How a run ended, as it is written.
fn word_of(settled: bool) -> &'static str
    ensures word { result.now ≡ end_word settled }
    ensures short { length result.now ≤ 8 }
{
    if settled { "settled " } else { "stopped " }
}

/// Writes the line of a run's end: whether it settled or was stopped at the most iterations, and how many were
/// finished. By one `write_all`.
pub fn write_end<K: Sink>(out: &mut K, settled: bool, iterations: u32) -> Result<(), Failed>
    ensures whole { OnOk result (K.written out.new ≡ grown (K.written out.old) (end_line settled iterations)) }
    ensures part { OnErr result (GrewByFirst (end_line settled iterations) (K.written out.old) (K.written out.new)) }
    ensures counted { Counts (K.faults out.old) (K.faults out.new) result }
{
    let mut line = Line::new();
    line.push_str(word_of(settled));
    push_number(&mut line, u64::from(iterations));
    line.push_str("\n");
    write_all(out, line.as_bytes())
}

/// Writes the line of a run's stats: in how many reads so many pages were read, how many vertices were run, and over how
/// many entries. By one `write_all`.
pub fn write_stats<K: Sink>(
    out: &mut K,
    reads: u64,
    pages: u64,
    runs: u64,
    entries: u64,
) -> Result<(), Failed>
    ensures whole { OnOk result (K.written out.new ≡ grown (K.written out.old) (stats_line reads pages runs entries)) }
    ensures part { OnErr result (GrewByFirst (stats_line reads pages runs entries) (K.written out.old) (K.written out.new)) }
    ensures counted { Counts (K.faults out.old) (K.faults out.new) result }
{
    let mut line = Line::new();
    line.push_str("stats reads ");
    push_number(&mut line, reads);
    line.push_str(" pages ");
    push_number(&mut line, pages);
    line.push_str(" runs ");
    push_number(&mut line, runs);
    line.push_str(" entries ");
    push_number(&mut line, entries);
    line.push_str("\n");
    write_all(out, line.as_bytes())
}
