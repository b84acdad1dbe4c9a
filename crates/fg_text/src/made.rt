//! Generated edges as they are read from their text.

ghost use Rattle.std.specs.Prelude.{◌≡◌, ◌+◌, ◌<◌, ◌≤◌, ◌^◌, ◌++◌, ℕ, Bool, IfErr, IfOk, List, OnOk};
ghost use Rattle.fg_base.specs.declared.limits.TheConstants.{MAX_ENTRIES, MAX_VERTICES};
ghost use Rattle.fg_text.specs.declared.line.Line.TheVariants.{Start};
ghost use Rattle.fg_text.specs.Generator.{edges_text, generated_text};
ghost use Rattle.fg_text.specs.Made.{EdgesRefused, MadeRefused};
ghost use Rattle.fg_text.specs.Reader.{reads_on};
ghost use Rattle.fg_text.specs.Text.{read_text};

use crate::generator::Generator;
use crate::reader::Reader;
use fg_base::Refusal;
use fg_model::Edges;
use std::alloc::Global;

/// Takes so many generated edges, as if it read their lines.
fn take_edges(reader: &mut Reader, generator: &mut Generator, count: u32) -> Result<(), Refusal>
    requires line { reader.old.line ≡ Start }
    requires number { reader.old.number + count + 1 < 2 ^ 64 }
    requires nodes { generator.old.nodes ≤ MAX_VERTICES }
    ensures reads { OnOk result ((whole : Bool) (rest : List ℕ) → reads_on whole reader.new rest
        ≡ reads_on whole reader.old (edges_text generator.old.nodes count generator.old.words.state ++ rest)) }
    ensures line { OnOk result (reader.new.line ≡ Start) }
    ensures number { OnOk result (reader.new.number ≡ reader.old.number + count) }
    ensures refused { IfErr result (EdgesRefused reader.old (edges_text generator.old.nodes count generator.old.words.state)) }
{
    for _turn in 0..count {
        let edge = generator.next_edge();
        if let Err(refusal) = reader.take_edge(edge) {
            return Err(refusal);
        }
    }
    Ok(())
}

/// What reading the text of `generate` gives, without the text.
///
/// `TooManyEdges` names the line of that text with which there are too many pairs; only an undirected reading can have so many.
/// `Memory`: memory was wanting.
pub fn generate_edges(
    alloc: Global,
    start: u64,
    nodes: u32,
    edges: u32,
    undirected: bool,
) -> Result<Edges, Refusal>
    requires some { 0 < nodes }
    requires nodes { nodes ≤ MAX_VERTICES }
    requires edges { edges ≤ MAX_ENTRIES }
    ensures read { IfOk result (λ made. read_text undirected (generated_text start nodes edges) ≡ Ok made) }
    ensures refused { IfErr result (MadeRefused undirected (generated_text start nodes edges)) }
{
    let mut reader = Reader::new(alloc, undirected);
    reader.begin_line();
    let mut generator = Generator::new(start, nodes);
    if let Err(refusal) = take_edges(&mut reader, &mut generator, edges) {
        return Err(refusal);
    }
    reader.finish()
}
