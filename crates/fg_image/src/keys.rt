//! Entries as numbers that are quick to compare.

ghost use Rattle.std.specs.Prelude.{◌≡◌, ◌+◌, ◌-◌, ◌<◌, ◌≤◌, ◌↔◌, false, true, IfOk, IsTrue, drop, length, slice_set, take};
ghost use Rattle.std.specs.List.Sorted.{IsPermutation};
ghost use Rattle.fg_image.specs.Making.{blanks};
ghost use Rattle.fg_image.specs.Turned.{has_weights, key_of, numbers};

use fg_base::{Entry, Memory};
use std::alloc::Global;

/// Keys of entries: where entries have weights 8 bytes, the target before the weight, else the 4 bytes of the target.
#[derive(Drop)]
pub(crate) enum Keys {
    Plain(Vec<u32>),
    Weighted(Vec<u64>),
}

/// The key of an entry with its weight.
fn weighted_key(entry: Entry) -> u64
    ensures { result ≡ key_of true entry }
{
    u64::from(entry.target) * 4_294_967_296 + u64::from(entry.weight)
}

/// Whether these numbers are the others in some order. Sorts both.
fn is_same(keys: &mut [u32], others: &mut [u32]) -> bool
    ensures same { IsTrue result ↔ IsPermutation others.old keys.old }
    ensures count { length keys.new ≡ length keys.old }
    ensures other_count { length others.new ≡ length others.old }
{
    keys.sort_unstable();
    others.sort_unstable();
    &*keys == &*others
}

/// The same for keys with weights.
fn is_same_weighted(keys: &mut [u64], others: &mut [u64]) -> bool
    ensures same { IsTrue result ↔ IsPermutation others.old keys.old }
    ensures count { length keys.new ≡ length keys.old }
    ensures other_count { length others.new ≡ length others.old }
{
    keys.sort_unstable();
    others.sort_unstable();
    &*others == &*keys
}

impl Keys {
    /// So many keys that are 0.
    pub fn blank(alloc: Global, weighted: bool, count: usize) -> Result<Keys, Memory>
        ensures blank { IfOk result (λ keys. numbers keys ≡ blanks count) }
        ensures weights { IfOk result (λ keys. has_weights keys ≡ weighted) }
    {
        if weighted {
            let keys = vec![in alloc; 0u64; count]?;
            return Ok(Keys::Weighted(keys));
        }
        let keys = vec![in alloc; 0u32; count]?;
        Ok(Keys::Plain(keys))
    }

    /// Writes the key of an entry to this place.
    pub fn set(&mut self, place: usize, entry: Entry)
        requires { place < length (numbers self.old) }
        ensures set { numbers self.new ≡ slice_set (numbers self.old) place (key_of (has_weights self.old) entry) }
        ensures weights { has_weights self.new ≡ has_weights self.old }
    {
        match self {
            Keys::Plain(keys) => keys[place] = entry.target,
            Keys::Weighted(keys) => keys[place] = weighted_key(entry),
        }
    }

    /// Whether so many keys from `start` on are the first ones of `others`, in some order. Sorts both.
    pub fn is_alike(&mut self, start: usize, count: usize, others: &mut Keys) -> bool
        requires weights { has_weights others.old ≡ has_weights self.old }
        requires within { start + count ≤ length (numbers self.old) }
        requires others_within { count ≤ length (numbers others.old) }
        ensures alike { IsTrue result ↔
            IsPermutation (take count (numbers others.old)) (take count (drop start (numbers self.old))) }
        ensures behind { drop (start + count) (numbers self.new) ≡ drop (start + count) (numbers self.old) }
        ensures count { length (numbers self.new) ≡ length (numbers self.old) }
        ensures others_count { length (numbers others.new) ≡ length (numbers others.old) }
        ensures weights { has_weights self.new ≡ has_weights self.old }
        ensures others_weights { has_weights others.new ≡ has_weights others.old }
    {
        match (self, others) {
            (Keys::Plain(keys), Keys::Plain(others)) => {
                is_same(&mut keys[start..start + count], &mut others[..count])
            }
            (Keys::Weighted(keys), Keys::Weighted(others)) => {
                is_same_weighted(&mut keys[start..start + count], &mut others[..count])
            }
            _ => unreachable!(),
        }
    }
}
