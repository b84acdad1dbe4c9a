//! The watch that writes as the run goes.

ghost use Rattle.std.specs.Prelude.{◌≡◌, OnOk, OnErr};
ghost use Rattle.fg_base.specs.Faults.{Counts};
ghost use Rattle.fg_base.specs.Told.{grown, GrewByFirst};
ghost use Rattle.fg_report.specs.ReportWatch.{each_lines, iteration_text};

use crate::lines::write_iteration;
use crate::values::write_value_lines;
use fg_base::{Failed, VState};
use fg_model::{IterLine, Program, Watch};
use fg_outside::Sink;

/// A watch that writes the line of each finished iteration to its sink, and behind it, where `each` is true, the value
/// lines of all vertices; then it flushes the sink, so that an iteration is seen when it is finished. Its notes are the
/// bytes that the sink was written, and its count of faults is the sink's.
#[derive(Drop)]
pub struct ReportWatch<'a, P, K> {
    pub program: &'a P,
    pub out: &'a mut K,
    pub each: bool,
}

impl<'a, P: Program, K: Sink> ReportWatch<'a, P, K> {
    /// A watch over this sink, which it holds as long as it lives.
    pub fn new(program: &'a P, out: &'a mut K, each: bool) -> ReportWatch<'a, P, K>
        ensures lent { result.out.ghost_name ≡ out.entry.ghost_name }
        ensures sink { result.out.now ≡ out.old }
        ensures program { result.program.now ≡ program.now }
        ensures each { result.each ≡ each }
    {
        ReportWatch { program, out, each }
    }
}

impl<P: Program, K: Sink> Watch for ReportWatch<'_, P, K> {
    ghost use Rattle.std.proofs.Common.{refl, ◌∙◌};

    type Note = u8;

    ghost notes = { λ watch. K.written watch.out.now };

    ghost told = { λ watch line states. iteration_text watch.each (P.rules watch.program.now).show line states };

    ghost faults = { λ watch. K.faults watch.out.now };

    ghost same_borrows = { λ first last. last.out.ghost_name ≡ first.out.ghost_name };

    ghost same_borrows_none = { λ watch. refl };

    ghost same_borrows_more = { λ first middle last one other. other ∙ one };

    #[tactic(auto, using(crate::proofs::FlushLemmas::whole_is_part))]
    fn note(&mut self, line: IterLine, states: &[VState]) -> Result<(), Failed> {
        if let Err(failed) = write_note(self.out, self.each, self.program, line, states) {
            return Err(failed);
        }
        self.out.flush()
    }
}

/// Writes the line of a finished iteration, and behind it the value lines where they are asked for.
#[tactic(auto, using(fg_base::proofs::GrowthLemmas::growth))]
fn write_note<P: Program, K: Sink>(
    out: &mut K,
    each: bool,
    program: &P,
    line: IterLine,
    states: &[VState],
) -> Result<(), Failed>
    ensures whole { OnOk result (K.written out.new ≡ grown (K.written out.old) (iteration_text each (P.rules program.now).show line states.now)) }
    ensures part { OnErr result (GrewByFirst (iteration_text each (P.rules program.now).show line states.now) (K.written out.old) (K.written out.new)) }
    ensures counted { Counts (K.faults out.old) (K.faults out.new) result }
{
    if let Err(failed) = write_iteration(out, line) {
        return Err(failed);
    }
    write_each(out, each, program, states)
}

/// Writes the value lines where they are asked for.
fn write_each<P: Program, K: Sink>(
    out: &mut K,
    each: bool,
    program: &P,
    states: &[VState],
) -> Result<(), Failed>
    ensures whole { OnOk result (K.written out.new ≡ grown (K.written out.old) (each_lines each (P.rules program.now).show states.now)) }
    ensures part { OnErr result (GrewByFirst (each_lines each (P.rules program.now).show states.now) (K.written out.old) (K.written out.new)) }
    ensures counted { Counts (K.faults out.old) (K.faults out.new) result }
{
    if each {
        write_value_lines(out, program, states)
    } else {
        Ok(())
    }
}
