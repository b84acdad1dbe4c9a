//! The lines of the values of all vertices.

ghost use Rattle.std.specs.Prelude.{◌≡◌, ◌+◌, ◌≤◌, ◌<◌, ◌^◌, [], ◌++◌, length, decimal, OnOk, OnErr};
ghost use Rattle.arrayvec.specs.ArrayString.{array_string_len};
ghost use Rattle.fg_base.specs.Faults.{Counts};
ghost use Rattle.fg_base.specs.Told.{grown, GrewByFirst};
ghost use Rattle.fg_report.specs.Values.{value_text, value_line, value_lines};

use crate::line::{LINE_BYTES, Line, push_number};
use fg_base::{Failed, VState, Value};
use fg_model::Program;
use fg_outside::{Sink, write_all};

/// Appends what stands behind the vertex.
fn push_value(line: &mut Line, value: Value)
    requires { array_string_len line.old + 42 ≤ LINE_BYTES }
    ensures bytes { line.new.bytes ≡ line.old.bytes ++ value_text value }
    ensures len { array_string_len line.new ≤ array_string_len line.old + 42 }
{
    match value {
        Value::Absent => line.push_str(" -"),
        Value::One(x) => {
            line.push_str(" ");
            push_number(line, x);
        }
        Value::Two(x, y) => {
            line.push_str(" ");
            push_number(line, x);
            line.push_str(" ");
            push_number(line, y);
        }
    }
}

/// Writes the line of one vertex.
fn write_value<K: Sink>(out: &mut K, v: u64, value: Value) -> Result<(), Failed>
    ensures whole { OnOk result (K.written out.new ≡ grown (K.written out.old) (value_line v value)) }
    ensures part { OnErr result (GrewByFirst (value_line v value) (K.written out.old) (K.written out.new)) }
    ensures counted { Counts (K.faults out.old) (K.faults out.new) result }
{
    let mut line = Line::new();
    push_number(&mut line, v);
    push_value(&mut line, value);
    line.push_str("\n");
    write_all(out, line.as_bytes())
}

/// Writes the value lines of these states, each line by one `write_all`.
pub fn write_value_lines<K: Sink, P: Program>(
    out: &mut K,
    program: &P,
    states: &[VState],
) -> Result<(), Failed>
    ensures whole { OnOk result (K.written out.new ≡ grown (K.written out.old) (value_lines (P.rules program.now).show states.now)) }
    ensures part { OnErr result (GrewByFirst (value_lines (P.rules program.now).show states.now) (K.written out.old) (K.written out.new)) }
    ensures counted { Counts (K.faults out.old) (K.faults out.new) result }
{
    for (v, state) in states.iter().enumerate() {
        if let Err(failed) = write_value(out, v as u64, program.show(*state)) {
            return Err(failed);
        }
    }
    Ok(())
}

/// Writes the value lines of all vertices, ascending, each line by one `write_all`.
pub fn write_values<K: Sink, P: Program>(
    out: &mut K,
    program: &P,
    states: &[VState],
) -> Result<(), Failed>
    requires { length states.now ≤ 2 ^ 32 }
    ensures whole { OnOk result (K.written out.new ≡ grown (K.written out.old) (value_lines (P.rules program.now).show states.now)) }
    ensures part { OnErr result (GrewByFirst (value_lines (P.rules program.now).show states.now) (K.written out.old) (K.written out.new)) }
    ensures counted { Counts (K.faults out.old) (K.faults out.new) result }
{
    write_value_lines(out, program, states)
}
