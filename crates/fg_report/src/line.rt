//! One line in the making, without memory.

ghost use Rattle.std.specs.Prelude.{◌≡◌, ◌+◌, ◌≤◌, [], ◌++◌, length, decimal};
ghost use Rattle.arrayvec.specs.ArrayString.{array_string_len};

use arrayvec::ArrayString;

/// Bytes that the longest line needs at the most.
pub const LINE_BYTES: usize = 128;

/// A line in the making.
pub type Line = ArrayString<LINE_BYTES>;

/// Appends a number in decimal digits, at most 20.
pub fn push_number(line: &mut Line, number: u64)
    requires { array_string_len line.old + 20 ≤ LINE_BYTES }
    ensures bytes { line.new.bytes ≡ line.old.bytes ++ decimal number }
    ensures len { array_string_len line.new ≤ array_string_len line.old + 20 }
{
    let mut buffer = itoa::Buffer::new();
    line.push_str(buffer.format(number));
}
