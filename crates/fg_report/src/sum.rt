//! The line of the sum of all values.

ghost use Rattle.std.specs.Prelude.{◌≡◌, ◌+◌, ◌≤◌, ◌^◌, [], ◌++◌, length, decimal, OnOk, OnErr};
ghost use Rattle.arrayvec.specs.ArrayString.{array_string_len};
ghost use Rattle.fg_base.specs.Faults.{Counts};
ghost use Rattle.fg_base.specs.Told.{grown, GrewByFirst};
ghost use Rattle.fg_report.specs.Sum.{value_number, values_sum, sum_line};

use crate::line::Line;
use fg_base::{Failed, VState, Value};
use fg_model::Program;
use fg_outside::{Sink, write_all};

/// What a value adds to the sum.
fn number_of(value: Value) -> u64
    ensures { result ≡ value_number value }
{
    match value {
        Value::Absent => 0,
        Value::One(x) | Value::Two(x, _) => x,
    }
}

/// The sum of the values of these states.
fn sum_of<P: Program>(program: &P, states: &[VState]) -> u128
    ensures { result ≡ values_sum (P.rules program.now).show states.now }
{
    let mut sum = 0u128;
    for state in states {
        sum += u128::from(number_of(program.show(*state)));
    }
    sum
}

/// Writes the line of the sum of the values of all vertices: a vertex's first number, or 0 where it has no value. By
/// one `write_all`.
pub fn write_sum<K: Sink, P: Program>(
    out: &mut K,
    program: &P,
    states: &[VState],
) -> Result<(), Failed>
    ensures whole { OnOk result (K.written out.new ≡ grown (K.written out.old) (sum_line (P.rules program.now).show states.now)) }
    ensures part { OnErr result (GrewByFirst (sum_line (P.rules program.now).show states.now) (K.written out.old) (K.written out.new)) }
    ensures counted { Counts (K.faults out.old) (K.faults out.new) result }
{
    let mut line = Line::new();
    line.push_str("sum ");
    line.push_str(itoa::Buffer::new().format(sum_of(program, states)));
    line.push_str("\n");
    write_all(out, line.as_bytes())
}
