//! Reading the edges of a source.

ghost use Rattle.std.specs.Prelude.{◌≡◌, IfErr, IfOk, IfSome, OnOk};
ghost use Rattle.fg_text.specs.Pieces.{IsAtEnd, TookFront};
ghost use Rattle.fg_text.specs.Read.{ReadRefused, StopsFor};
ghost use Rattle.fg_text.specs.Text.{read_text};

use crate::pieces::{PIECE_BYTES, read_pieces};
use crate::reader::Reader;
use fg_base::Refusal;
use fg_model::Edges;
use fg_outside::Source;
use std::alloc::Global;

/// Reads a text of edges to its end. An edge is a line of two or three numbers, its source, its target and its weight; where the
/// text is undirected it counts both ways. Edges come out ascending by source and then by target; one that the text has more
/// than once has its least weight. The bytes are gone over once, and nothing is taken for a line; pairs are sorted once, in place.
///
/// `BadLine`, `IdTooLarge` and `TooManyEdges` name the first line that is refused, from 1; reading stops with the piece, of at
/// most `PIECE_BYTES`, in which it ends. `TextTooLong`: there are more than 2^32 bytes. `InputFault`: the source failed, and its
/// count of faults rose. `Memory`: memory was wanting.
pub fn read_edges<S: Source>(
    alloc: Global,
    input: &mut S,
    undirected: bool,
) -> Result<Edges, Refusal>
    // What was read is what the text says, and nothing of it is left.
    ensures read { IfOk result (λ edges. IfSome (S.left input.old) (λ bytes. read_text undirected bytes ≡ Ok edges)) }
    ensures end { OnOk result (IsAtEnd (S.left input.new)) }
    ensures kept { OnOk result (S.faults input.new ≡ S.faults input.old) }

    // Each refusal has its cause.
    ensures refused { IfErr result (ReadRefused undirected (S.left input.old) (S.left input.new) (S.faults input.old) (S.faults input.new)) }

    // At a refused line reading stopped with the piece in which it ends.
    ensures stops { IfErr result (StopsFor (S.left input.old) (S.left input.new)) }

    // Whatever the answer, some first part of the text was taken.
    ensures front { TookFront (S.left input.old) (S.left input.new) }
{
    let mut reader = Reader::new(alloc, undirected);
    let mut piece = [0; PIECE_BYTES];
    if let Err(refusal) = read_pieces(input, &mut reader, &mut piece) {
        return Err(refusal);
    }
    reader.finish()
}
