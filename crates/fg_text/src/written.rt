//! Generated edges written as a text.

ghost use Rattle.std.specs.Prelude.{◌≡◌, ◌+◌, ◌<◌, ◌≤◌, ◌++◌, [], decimal, IfErr, OnErr, OnOk};
ghost use Rattle.arrayvec.specs.ArrayString.{array_string_len};
ghost use Rattle.fg_base.specs.declared.limits.TheConstants.{MAX_ENTRIES, MAX_VERTICES};
ghost use Rattle.fg_base.specs.declared.refusal.Refusal.TheVariants.{OutputFault};
ghost use Rattle.fg_base.specs.Faults.{Counts};
ghost use Rattle.fg_base.specs.Told.{grown, GrewByFirst};
ghost use Rattle.fg_text.specs.Generator.{edge_line, edges_text, generated_text, head_line};

use crate::generator::Generator;
use crate::verdict::Edge;
use arrayvec::ArrayString;
use fg_base::{Failed, Refusal};
use fg_outside::{Sink, write_all};

/// Bytes that the longest line needs at the most.
const LINE_BYTES: usize = 80;

/// A line in the making, without memory.
type TextLine = ArrayString<LINE_BYTES>;

/// Appends a number in decimal digits, at most 20.
fn push_number(line: &mut TextLine, number: u64)
    requires { array_string_len line.old + 20 ≤ LINE_BYTES }
    ensures bytes { line.new.bytes ≡ line.old.bytes ++ decimal number }
    ensures len { array_string_len line.new ≤ array_string_len line.old + 20 }
{
    let mut buffer = itoa::Buffer::new();
    line.push_str(buffer.format(number));
}

/// Writes the first line, by one `write_all`.
fn write_head<K: Sink>(out: &mut K, start: u64, nodes: u32, edges: u32) -> Result<(), Failed>
    ensures whole { OnOk result (K.written out.new ≡ grown (K.written out.old) (head_line start nodes edges)) }
    ensures part { OnErr result (GrewByFirst (head_line start nodes edges) (K.written out.old) (K.written out.new)) }
    ensures counted { Counts (K.faults out.old) (K.faults out.new) result }
{
    let mut line = TextLine::new();
    line.push_str("# gen ");
    push_number(&mut line, start);
    line.push_str(" ");
    push_number(&mut line, u64::from(nodes));
    line.push_str(" ");
    push_number(&mut line, u64::from(edges));
    line.push_str("\n");
    write_all(out, line.as_bytes())
}

/// Writes the line of an edge, by one `write_all`.
fn write_edge<K: Sink>(out: &mut K, edge: Edge) -> Result<(), Failed>
    ensures whole { OnOk result (K.written out.new ≡ grown (K.written out.old) (edge_line edge)) }
    ensures part { OnErr result (GrewByFirst (edge_line edge) (K.written out.old) (K.written out.new)) }
    ensures counted { Counts (K.faults out.old) (K.faults out.new) result }
{
    let mut line = TextLine::new();
    push_number(&mut line, u64::from(edge.source));
    line.push_str(" ");
    push_number(&mut line, u64::from(edge.target));
    line.push_str("\n");
    write_all(out, line.as_bytes())
}

/// Writes the lines of so many edges.
fn write_edges<K: Sink>(out: &mut K, generator: &mut Generator, count: u32) -> Result<(), Failed>
    ensures whole { OnOk result (K.written out.new ≡ grown (K.written out.old) (edges_text generator.old.nodes count generator.old.words.state)) }
    ensures part { OnErr result (GrewByFirst (edges_text generator.old.nodes count generator.old.words.state) (K.written out.old) (K.written out.new)) }
    ensures counted { Counts (K.faults out.old) (K.faults out.new) result }
{
    for _turn in 0..count {
        let edge = generator.next_edge();
        if let Err(failed) = write_edge(out, edge) {
            return Err(failed);
        }
    }
    Ok(())
}

/// Writes the text of the edges that the generator makes from this start: the line `# gen START NODES EDGES`, then a line
/// `SOURCE TARGET` for each edge, each line by one `write_all`. It takes no memory.
///
/// `OutputFault`: the sink failed, and its count of faults rose. A first part of the text was then written.
pub fn generate<K: Sink>(start: u64, nodes: u32, edges: u32, out: &mut K) -> Result<(), Refusal>
    requires some { 0 < nodes }
    requires nodes { nodes ≤ MAX_VERTICES }
    requires edges { edges ≤ MAX_ENTRIES }
    ensures whole { OnOk result (K.written out.new ≡ grown (K.written out.old) (generated_text start nodes edges)) }
    ensures part { OnErr result (GrewByFirst (generated_text start nodes edges) (K.written out.old) (K.written out.new)) }
    ensures fault { IfErr result (λ refusal. refusal ≡ OutputFault) }
    ensures counted { Counts (K.faults out.old) (K.faults out.new) result }
{
    let Ok(()) = write_head(out, start, nodes, edges) else {
        return Err(Refusal::OutputFault);
    };
    let mut generator = Generator::new(start, nodes);
    let Ok(()) = write_edges(out, &mut generator, edges) else {
        return Err(Refusal::OutputFault);
    };
    Ok(())
}
