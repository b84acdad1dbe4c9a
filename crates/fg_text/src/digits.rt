//! The digits of a field.

ghost use Rattle.std.specs.Prelude.{◌≡◌, ◌<◌, ◌≤◌, All, IsTrue, fold, length, take};
ghost use Rattle.std.specs.Char.{is_ascii_digit};
ghost use Rattle.fg_text.specs.Line.{with_digit};

/// From here on a number stands still, since it is too large for a vertex and for a weight.
const TOO_LARGE: u64 = 1 << 32;

/// The number with one digit more.
pub(crate) fn with_digit(number: u64, byte: u8) -> u64
    requires { IsTrue (is_ascii_digit byte) }
    ensures { result ≡ with_digit number byte }
{
    if number < TOO_LARGE {
        number * 10 + u64::from(byte - b'0')
    } else {
        number
    }
}

/// Digits that were read at once: how many there are, and the number with them.
#[derive(Clone, Copy)]
pub(crate) struct Digits {
    pub count: usize,
    pub number: u64,
}

/// The digits at the front of these bytes, behind those of a number.
pub(crate) fn digits_behind(number: u64, bytes: &[u8]) -> Digits
    ensures within { result.count ≤ length bytes.now }
    ensures digits { All (λ byte. IsTrue (is_ascii_digit byte)) (take result.count bytes.now) }
    ensures number { result.number ≡ fold with_digit number (take result.count bytes.now) }
{
    let mut all = number;
    for (count, byte) in bytes.iter().enumerate() {
        if !byte.is_ascii_digit() {
            return Digits { count, number: all };
        }
        all = with_digit(all, *byte);
    }
    Digits {
        count: bytes.len(),
        number: all,
    }
}
