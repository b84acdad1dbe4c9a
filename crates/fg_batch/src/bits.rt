//! Sets of numbers as bits: number `i` is in the set where bit `i % 64` of word `i / 64` is set.

ghost use Rattle.std.specs.Prelude.{◌≡◌, ℕ, ◌*◌, ◌/◌, ◌^◌, ◌<◌, ◌≤◌, ◌==◌, ◌||◌, true, false, IfOk, length, slice_index_or};
ghost use Rattle.fg_batch.specs.Bits.{AreFlagged, is_in};

use fg_base::Memory;
use std::alloc::Global;

/// Whether the number is in the set.
pub(crate) fn has(words: &[u64], number: usize) -> bool
    requires { number < length words.now * 64 }
    ensures { result ≡ is_in words.now number }
{
    words[number / 64] >> (number % 64) & 1 == 1
}

/// Puts the number into the set.
pub(crate) fn put(words: &mut Vec<u64>, number: usize)
    requires { number < length words.old.items * 64 }
    ensures length { length words.new.items ≡ length words.old.items }
    ensures more { (k : ℕ) → is_in words.new.items k ≡ ((k == number) || is_in words.old.items k) }
{
    words[number / 64] |= 1 << (number % 64);
}

/// The least number of the set that is `from` or above; `words.len() * 64` where there is none.
pub(crate) fn next_in(words: &[u64], from: usize) -> usize
    requires from { from ≤ length words.now * 64 }
    requires few { length words.now ≤ 2 ^ 40 }
    ensures order { from ≤ result }
    ensures below { (k : ℕ) → from ≤ k → k < result → is_in words.now k ≡ false }
    ensures found { result < length words.now * 64 → is_in words.now result ≡ true }
    ensures within { result ≤ length words.now * 64 }
{
    let first = from / 64;
    if first == words.len() {
        return from;
    }
    let rest = words[first] >> (from % 64);
    if rest != 0 {
        return from + rest.trailing_zeros() as usize;
    }
    for next in first + 1..words.len() {
        let word = words[next];
        if word != 0 {
            return next * 64 + word.trailing_zeros() as usize;
        }
    }
    words.len() * 64
}

/// An empty set in so many words.
pub(crate) fn empty_set(alloc: Global, words: usize) -> Result<Vec<u64>, Memory>
    ensures length { IfOk result (λ set. length set.items ≡ words) }
    ensures none { IfOk result (λ set. (k : ℕ) → is_in set.items k ≡ false) }
{
    Ok(vec![in alloc; 0; words]?)
}

/// Takes all numbers out of the set, and all flags of their blocks away, which have `size` numbers each. It touches only words of
/// blocks with a flag.
pub(crate) fn wipe_flagged(words: &mut Vec<u64>, flags: &mut Vec<bool>, size: usize)
    requires size { (0 < size) × (size ≤ 2 ^ 16) }
    requires few { length words.old.items ≤ 2 ^ 40 }
    requires enough { length flags.old.items * size ≤ length words.old.items * 64 }
    requires flagged { AreFlagged size flags.old.items words.old.items }
    ensures length { length words.new.items ≡ length words.old.items }
    ensures none { (k : ℕ) → is_in words.new.items k ≡ false }
    ensures flag_count { length flags.new.items ≡ length flags.old.items }
{
    for block in 0..flags.len() {
        if flags[block] {
            let first = block * size;
            wipe(words, first / 64, (first + size).div_ceil(64));
            flags[block] = false;
        }
    }
}

/// Takes out the numbers that stand in these words.
fn wipe(words: &mut Vec<u64>, from: usize, end: usize)
    requires { end ≤ length words.old.items }
    ensures length { length words.new.items ≡ length words.old.items }
    ensures inside { (k : ℕ) → from ≤ k / 64 → k / 64 < end → is_in words.new.items k ≡ false }
    ensures less { (k : ℕ) → is_in words.old.items k ≡ false → is_in words.new.items k ≡ false }
{
    for index in from..end {
        words[index] = 0;
    }
}
