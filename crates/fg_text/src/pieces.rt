//! Taking a text from a source piece by piece.

ghost use Rattle.std.specs.Prelude.{◌≡◌, ◌+◌, ◌<◌, ◌≤◌, ◌^◌, ℕ, [], IfErr, IfOk, IfSome, List, OnOk, length, take};
ghost use Rattle.fg_base.specs.Faults.{Counts};
ghost use Rattle.fg_base.specs.Told.{led_by};
ghost use Rattle.fg_text.specs.Pieces.{EndRefused, IsAtEnd, PieceRefused, PiecesRefused, Took, TookAll};

use crate::reader::Reader;
use fg_base::Refusal;
use fg_base::limits::MAX_TEXT_BYTES;
use fg_outside::Source;

/// The most bytes of a piece.
pub(crate) const PIECE_BYTES: usize = 4096;

/// Takes one piece, at most as long as `into`, and answers how many bytes it has. 0 is the end of the text.
fn read_piece<S: Source>(
    input: &mut S,
    reader: &mut Reader,
    into: &mut [u8],
) -> Result<usize, Refusal>
    requires some { 0 < length into.old }
    requires short { length into.old ≤ PIECE_BYTES }
    requires number { reader.old.number + PIECE_BYTES < 2 ^ 64 }
    ensures within { IfOk result (λ count. count ≤ length into.new) }
    ensures took { IfOk result (λ count. Took reader.old reader.new (S.left input.old) (S.left input.new) (take count into.new)) }
    ensures end { IfOk result (λ count. count ≡ 0 → IsAtEnd (S.left input.old)) }
    ensures kept { OnOk result (S.faults input.new ≡ S.faults input.old) }
    ensures refused { IfErr result (PieceRefused (length into.old) reader.old (S.left input.old) (S.left input.new) (S.faults input.old) (S.faults input.new)) }
{
    let Ok(count) = input.take(into) else {
        return Err(Refusal::InputFault);
    };
    if let Err(refusal) = reader.feed(&into[..count]) {
        return Err(refusal);
    }
    Ok(count)
}

/// Whether nothing is left where a text may have no more bytes.
fn expect_end<S: Source>(input: &mut S, into: &mut [u8]) -> Result<(), Refusal>
    requires { 0 < length into.old }
    ensures end { OnOk result (IsAtEnd (S.left input.new)) }
    ensures left { OnOk result (S.left input.new ≡ S.left input.old) }
    ensures kept { OnOk result (S.faults input.new ≡ S.faults input.old) }
    ensures refused { IfErr result (EndRefused (length into.old) (S.left input.old) (S.left input.new) (S.faults input.old) (S.faults input.new)) }
{
    let Ok(count) = input.take(into) else {
        return Err(Refusal::InputFault);
    };
    if count > 0 {
        return Err(Refusal::TextTooLong);
    }
    Ok(())
}

/// Takes all pieces of a text.
pub(crate) fn read_pieces<S: Source>(
    input: &mut S,
    reader: &mut Reader,
    into: &mut [u8],
) -> Result<(), Refusal>
    requires piece { length into.old ≡ PIECE_BYTES }
    requires number { reader.old.number ≡ 1 }
    ensures took { OnOk result (TookAll reader.old reader.new (S.left input.old) (S.left input.new)) }
    ensures kept { OnOk result (S.faults input.new ≡ S.faults input.old) }
    ensures refused { IfErr result (PiecesRefused reader.old (S.left input.old) (S.left input.new) (S.faults input.old) (S.faults input.new)) }
{
    let mut room = MAX_TEXT_BYTES;
    while room > 0 {
        let most = room.min(PIECE_BYTES as u64) as usize;
        match read_piece(input, reader, &mut into[..most]) {
            Ok(count) => {
                if count == 0 {
                    return Ok(());
                }
                room -= count as u64;
            }
            Err(refusal) => return Err(refusal),
        }
    }
    expect_end(input, into)
}
