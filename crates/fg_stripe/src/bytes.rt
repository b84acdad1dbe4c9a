//! Numbers in the bytes of a page, the lowest byte first: of labels here, and of an image's header and entries above.

ghost use Rattle.std.specs.Prelude.{◌≡◌, ◌+◌, ◌≤◌, ◌++◌, ◌==◌, length, take, drop};
ghost use Rattle.std.specs.List.{list_all};
ghost use Rattle.byteorder.specs.Endian.{little_bytes};
ghost use Rattle.fg_stripe.specs.Label.{number_at, wide_number_at, is_blank};

use byteorder::{ByteOrder, LittleEndian};

/// The number in the 4 bytes from `place` on.
#[tactic(auto, using(std::proofs::lemmas::List::take_rest))]
pub fn number_at(bytes: &[u8], place: usize) -> u32
    requires { place + 4 ≤ length bytes.now }
    ensures { result ≡ number_at bytes.now place }
{
    LittleEndian::read_u32(&bytes[place..])
}

/// The number in the 8 bytes from `place` on.
#[tactic(auto, using(std::proofs::lemmas::List::take_rest))]
pub fn wide_number_at(bytes: &[u8], place: usize) -> u64
    requires { place + 8 ≤ length bytes.now }
    ensures { result ≡ wide_number_at bytes.now place }
{
    LittleEndian::read_u64(&bytes[place..])
}

/// Writes the number into the 4 bytes from `place` on.
#[tactic(auto, using(std::proofs::lemmas::List::take_rest))]
pub fn put_number(bytes: &mut [u8], place: usize, number: u32)
    requires { place + 4 ≤ length bytes.old }
    ensures { bytes.new ≡ take place bytes.old ++ (little_bytes 4 number ++ drop (place + 4) bytes.old) }
{
    LittleEndian::write_u32(&mut bytes[place..], number);
}

/// Writes the number into the 8 bytes from `place` on.
#[tactic(auto, using(std::proofs::lemmas::List::take_rest))]
pub fn put_wide_number(bytes: &mut [u8], place: usize, number: u64)
    requires { place + 8 ≤ length bytes.old }
    ensures { bytes.new ≡ take place bytes.old ++ (little_bytes 8 number ++ drop (place + 8) bytes.old) }
{
    LittleEndian::write_u64(&mut bytes[place..], number);
}

/// Whether there are nothing but zeros.
pub fn is_blank(bytes: &[u8]) -> bool
    ensures { result ≡ is_blank bytes.now }
{
    bytes.iter().all(|byte| *byte == 0)
}
