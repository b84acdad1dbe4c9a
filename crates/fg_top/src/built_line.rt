//! The line of edges that were built.

ghost use Rattle.std.specs.Prelude.{◌≡◌, ◌+◌, ◌≤◌, ◌/◌, ◌++◌, OnErr, OnOk, decimal, false, length};
ghost use Rattle.arrayvec.specs.ArrayString.{array_string_len};
ghost use Rattle.fg_base.specs.Faults.{Counts};
ghost use Rattle.fg_base.specs.Told.{grown, GrewByFirst};
ghost use Rattle.fg_base.specs.declared.limits.TheConstants.{PAGE_BYTES};
ghost use Rattle.fg_image.specs.Made.{image_bytes};
ghost use Rattle.fg_top.specs.BuildOutcome.{built_line, counts_text, image_text, kind_text};

use arrayvec::ArrayString;
use fg_base::Failed;
use fg_model::Edges;
use fg_outside::{Sink, write_all};

/// Bytes that the line needs at the most.
pub const LINE_BYTES: usize = 160;

/// A line in the making.
pub type Line = ArrayString<LINE_BYTES>;

/// Appends a number in decimal digits, at most 20.
fn push_number(line: &mut Line, number: u64)
    requires { array_string_len line.old + 20 ≤ LINE_BYTES }
    ensures bytes { line.new.bytes ≡ line.old.bytes ++ decimal number }
    ensures len { array_string_len line.new ≤ array_string_len line.old + 20 }
{
    let mut buffer = itoa::Buffer::new();
    line.push_str(buffer.format(number));
}

/// Whether edges have weights, as it is written.
fn kind_text(weighted: bool) -> &'static str
    ensures text { result.now ≡ kind_text weighted }
    ensures short { length result.now ≤ 8 }
{
    if weighted { "weighted" } else { "plain" }
}

/// Appends the vertices and the entries of either direction, at most 78 bytes.
pub fn push_counts(line: &mut Line, vertices: u32, outs: u64, ins: u64)
    requires { array_string_len line.old + 78 ≤ LINE_BYTES }
    ensures bytes { line.new.bytes ≡ line.old.bytes ++ counts_text vertices outs ins }
    ensures len { array_string_len line.new ≤ array_string_len line.old + 78 }
{
    line.push_str("vertices ");
    push_number(line, u64::from(vertices));
    line.push_str(" out ");
    push_number(line, outs);
    line.push_str(" in ");
    push_number(line, ins);
}

/// Appends whether the edges have weights, the pages and the drives, at most 64 bytes.
pub fn push_image(line: &mut Line, weighted: bool, pages: u32, drives: u32)
    requires { array_string_len line.old + 64 ≤ LINE_BYTES }
    ensures bytes { line.new.bytes ≡ line.old.bytes ++ image_text weighted pages drives }
    ensures len { array_string_len line.new ≤ array_string_len line.old + 64 }
{
    line.push_str(" ");
    line.push_str(kind_text(weighted));
    line.push_str(" pages ");
    push_number(line, u64::from(pages));
    line.push_str(" drives ");
    push_number(line, u64::from(drives));
}

/// Writes the line of edges that were built over so many drives, as an image of so many pages. By one `write_all`.
fn write_line<K: Sink>(out: &mut K, edges: &Edges, pages: u32, drives: u32) -> Result<(), Failed>
    requires { pages ≡ length (image_bytes edges.now) / PAGE_BYTES }
    ensures whole { OnOk result (K.written out.new ≡ grown (K.written out.old) (built_line drives edges.now)) }
    ensures part { OnErr result (GrewByFirst (built_line drives edges.now) (K.written out.old) (K.written out.new)) }
    ensures counted { Counts (K.faults out.old) (K.faults out.new) result }
{
    let pairs = edges.pairs().len() as u64;
    let mut line = Line::new();
    line.push_str("built ");
    push_counts(&mut line, edges.n(), pairs, pairs);
    push_image(&mut line, edges.is_weighted(), pages, drives);
    line.push_str("\n");
    write_all(out, line.as_bytes())
}

/// Writes the same line as the last of a job's text, and hands on all that the output gathered.
#[tactic(auto, using(fg_report::proofs::FlushLemmas::whole_is_part))]
pub fn write_built<K: Sink>(
    out: &mut K,
    edges: &Edges,
    pages: u32,
    drives: u32,
) -> Result<(), Failed>
    requires { pages ≡ length (image_bytes edges.now) / PAGE_BYTES }
    ensures whole { OnOk result (K.written out.new ≡ grown (K.written out.old) (built_line drives edges.now)) }
    ensures part { OnErr result (GrewByFirst (built_line drives edges.now) (K.written out.old) (K.written out.new)) }
    ensures handed { OnOk result (K.keeps_back out.new ≡ false) }
    ensures counted { Counts (K.faults out.old) (K.faults out.new) result }
{
    if let Err(failed) = write_line(out, edges, pages, drives) {
        return Err(failed);
    }
    out.flush()
}
