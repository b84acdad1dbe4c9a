//! The line of an image that was checked.

ghost use Rattle.std.specs.Prelude.{◌≡◌, OnErr, OnOk, false};
ghost use Rattle.fg_base.specs.Faults.{Counts};
ghost use Rattle.fg_base.specs.Told.{grown, GrewByFirst};
ghost use Rattle.fg_top.specs.CheckJob.{checked_line};

use crate::built_line::{Line, push_counts, push_image};
use fg_base::Failed;
use fg_build::Opened;
use fg_outside::{Sink, write_all};

/// Writes the line of this image. By one `write_all`.
fn write_line<K: Sink>(out: &mut K, opened: &Opened) -> Result<(), Failed>
    ensures whole { OnOk result (K.written out.new ≡ grown (K.written out.old) (checked_line opened.now)) }
    ensures part { OnErr result (GrewByFirst (checked_line opened.now) (K.written out.old) (K.written out.new)) }
    ensures counted { Counts (K.faults out.old) (K.faults out.new) result }
{
    let header = &opened.header;
    let layout = &opened.layout;
    let mut line = Line::new();
    line.push_str("checked ");
    push_counts(&mut line, header.n, header.out_entries, header.in_entries);
    push_image(&mut line, header.is_weighted(), layout.pages, layout.drives);
    line.push_str("\n");
    write_all(out, line.as_bytes())
}

/// Writes the same line as the last of a job's text, and hands on all that the output gathered.
#[tactic(auto, using(fg_report::proofs::FlushLemmas::whole_is_part))]
pub fn write_checked<K: Sink>(out: &mut K, opened: &Opened) -> Result<(), Failed>
    ensures whole { OnOk result (K.written out.new ≡ grown (K.written out.old) (checked_line opened.now)) }
    ensures part { OnErr result (GrewByFirst (checked_line opened.now) (K.written out.old) (K.written out.new)) }
    ensures handed { OnOk result (K.keeps_back out.new ≡ false) }
    ensures counted { Counts (K.faults out.old) (K.faults out.new) result }
{
    if let Err(failed) = write_line(out, opened) {
        return Err(failed);
    }
    out.flush()
}
