//! The work of writing generated edges.

ghost use Rattle.std.specs.Prelude.{◌≡◌, ◌≤◌, None, OnErr, OnOk, false};
ghost use Rattle.fg_base.specs.Faults.{Counts};
ghost use Rattle.fg_base.specs.Told.{grown, GrewByFirst};
ghost use Rattle.fg_base.specs.declared.limits.TheConstants.{MAX_ENTRIES, MAX_VERTICES};
ghost use Rattle.fg_text.specs.Generator.{generated_text};
ghost use Rattle.fg_top.specs.Calls.{output_between};
ghost use Rattle.fg_top.specs.Ends.{EndsAlone, IsWritten};
ghost use Rattle.fg_top.specs.GenJob.{GenComesTo};

use fg_base::{Failed, Refusal};
use fg_outside::Sink;
use fg_text::generate;

/// Writes the text of so many generated edges between so many vertices, and hands on all that the output gathered.
#[tactic(auto, using(fg_report::proofs::FlushLemmas::whole_is_part))]
fn write_generated<K: Sink>(start: u64, nodes: u32, edges: u32, out: &mut K) -> Result<(), Failed>
    requires some_nodes { 1 ≤ nodes }
    requires few_nodes { nodes ≤ MAX_VERTICES }
    requires few_edges { edges ≤ MAX_ENTRIES }
    ensures whole { OnOk result (K.written out.new ≡ grown (K.written out.old) (generated_text start nodes edges)) }
    ensures part { OnErr result (GrewByFirst (generated_text start nodes edges) (K.written out.old) (K.written out.new)) }
    ensures handed { OnOk result (K.keeps_back out.new ≡ false) }
    ensures counted { Counts (K.faults out.old) (K.faults out.new) result }
{
    if let Err(_) = generate(start, nodes, edges, out) {
        return Err(Failed);
    }
    out.flush()
}

/// Writes the text of so many generated edges between so many vertices. It takes no memory: the status is 0, or 4 where the
/// output failed.
pub fn gen_job<K: Sink>(start: u64, nodes: u32, edges: u32, out: &mut K) -> u8
    requires some_nodes { 1 ≤ nodes }
    requires few_nodes { nodes ≤ MAX_VERTICES }
    requires few_edges { edges ≤ MAX_ENTRIES }
    ensures written { IsWritten (output_between K.Sink out.old out.new)
        None (generated_text start nodes edges) result }
    ensures ends { EndsAlone (GenComesTo start nodes edges)
        (output_between K.Sink out.old out.new) result }
{
    if let Err(_) = write_generated(start, nodes, edges, out) {
        return Refusal::OutputFault.status();
    }
    0
}
