//! Words that are numbers.

ghost use Rattle.std.specs.Prelude.{◌≡◌};
ghost use Rattle.std.specs.List.{list_all};
ghost use Rattle.std.specs.Char.{is_ascii_digit};
ghost use Rattle.fg_words.specs.CommandLine.{is_number, is_past, number_within};

/// The most digits of a number, leading zeros among them.
const MAX_DIGITS: usize = 20;

/// Whether each byte is a digit.
fn is_all_digits(bytes: &[u8]) -> bool
    ensures { result ≡ list_all is_ascii_digit bytes.now }
{
    bytes.iter().all(|byte| byte.is_ascii_digit())
}

/// Whether the word is a number: one to twenty digits.
fn is_number(word: &str) -> bool
    ensures { result ≡ is_number word.now }
{
    let bytes = word.as_bytes();
    if bytes.is_empty() {
        return false;
    }
    if bytes.len() > MAX_DIGITS {
        return false;
    }
    is_all_digits(bytes)
}

/// The number that the word is, where it is one from `least` to `most`.
#[tactic(auto, using(crate::proofs::NumberLemmas::numeral_of))]
pub(crate) fn number_within(word: &str, least: u32, most: u32) -> Option<u32>
    ensures { result ≡ number_within least most word.now }
{
    if !is_number(word) {
        return None;
    }
    match word.parse::<u32>() {
        Ok(number) if least <= number && number <= most => Some(number),
        _ => None,
    }
}

/// The same for numbers of 64 bits.
#[tactic(auto, using(crate::proofs::NumberLemmas::numeral_of))]
pub(crate) fn wide_number_within(word: &str, least: u64, most: u64) -> Option<u64>
    ensures { result ≡ number_within least most word.now }
{
    if !is_number(word) {
        return None;
    }
    match word.parse::<u64>() {
        Ok(number) if least <= number && number <= most => Some(number),
        _ => None,
    }
}

/// Whether so many times the number that the word is are more than `most`: the product of two numbers of 32 bits has 64
/// at most, and a greater number is alone too large.
#[tactic(auto, using(crate::proofs::NumberLemmas::numeral_of, crate::proofs::NumberLemmas::long_past))]
pub(crate) fn is_past(most: u32, times: u32, word: &str) -> bool
    ensures { result ≡ is_past most times word.now }
{
    if !is_number(word) {
        return false;
    }
    match word.parse::<u32>() {
        Ok(number) => u64::from(times) * u64::from(number) > u64::from(most),
        Err(_) => times > 0,
    }
}
