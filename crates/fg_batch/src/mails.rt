//! Messages in a row.

ghost use Rattle.std.specs.Prelude.{◌≡◌, ◌+◌, ◌<◌, ◌≤◌, ◌^◌, ◌++◌, ◌∷◌, [], ◌==◌, IfOk, OnOk, length};
ghost use Rattle.fg_batch.specs.Mails.{NumbersFit, beside_in, number_in, wide_behind};

use crate::word::{BESIDE, Word};
use fg_base::Memory;
use fg_model::Mail;
use std::alloc::Global;
use std::marker::Model;

/// A list of messages to vertices below 2^24. Contracts see the list, and the room: so many more are taken in without memory.
/// A message takes 8 bytes, and 8 more where its number is 2^40 - 1 or above; room is taken for 16.
#[derive(Drop)]
pub struct Mails {
    words: Vec<Word>,
    wide: Vec<u64>,
}

impl Model for Mails {
    ghost use Rattle.std.specs.Prelude.{◌-◌, min};
    ghost use Rattle.std.specs.Vec.{vec_capacity, vec_len};
    ghost use Rattle.fg_batch.specs.Mails.{ArePacked, MailList, unpacked};

    ghost Value = { MailList };

    ghost view = { λ inside. record {
      items = unpacked inside.words.items inside.wide.items;
      room = min (vec_capacity inside.words - vec_len inside.words) (vec_capacity inside.wide - vec_len inside.wide);
    } };

    ghost invariant = { λ inside. ArePacked inside.words.items inside.wide.items };
}

impl Mails {
    /// No messages, and no room.
    #[tactic(auto, unfolding(crate::specs::Mails::unpacked))]
    pub fn new(alloc: Global) -> Mails
        ensures { result.items ≡ [] }
    {
        Mails {
            words: Vec::new(alloc),
            wide: Vec::new(alloc),
        }
    }

    /// Whether there are none.
    #[tactic(auto, using(crate::proofs::MailsLaws::length_unpacked))]
    pub fn is_empty(&self) -> bool
        ensures { result ≡ (length self.now.items == 0) }
    {
        self.words.is_empty()
    }

    /// How many there are.
    #[tactic(auto, using(crate::proofs::MailsLaws::length_unpacked))]
    pub fn len(&self) -> usize
        ensures { result ≡ length self.now.items }
    {
        self.words.len()
    }

    /// Takes memory for so many messages more.
    pub fn reserve(&mut self, count: usize) -> Result<(), Memory>
        ensures items { self.new.items ≡ self.old.items }
        ensures ok { OnOk result (count ≤ self.new.room) }
        ensures kept { self.old.room ≤ self.new.room }
    {
        self.words.reserve(count)?;
        self.wide.reserve(count)?;
        Ok(())
    }

    /// Puts a message behind the others. It takes no memory.
    pub fn push(&mut self, mail: Mail)
        requires target { mail.target < 2 ^ 24 }
        requires room { 0 < self.old.room }
        ensures items { self.new.items ≡ self.old.items ++ mail ∷ [] }
        ensures room { self.old.room ≤ self.new.room + 1 }
    {
        if mail.message < BESIDE {
            self.words.push_reserved(Word::new(mail));
        } else {
            self.words.push_reserved(Word::new(Mail {
                message: BESIDE,
                ..mail
            }));
            self.wide.push_reserved(mail.message);
        }
    }

    /// Takes all messages out, and keeps the room.
    #[tactic(auto, unfolding(crate::specs::Mails::unpacked))]
    pub fn clear(&mut self)
        ensures items { self.new.items ≡ [] }
        ensures room { self.old.room ≤ self.new.room }
    {
        self.words.clear();
        self.wide.clear();
    }

    /// The same messages once more, in memory of their own that has no room besides.
    pub fn copy(&self, alloc: Global) -> Result<Mails, Memory>
        ensures { IfOk result (λ copied. copied.items ≡ self.now.items) }
    {
        let mut words = Vec::with_capacity(alloc, self.words.len())?;
        words.extend_from_slice(&self.words)?;
        let mut wide = Vec::with_capacity(alloc, self.wide.len())?;
        wide.extend_from_slice(&self.wide)?;
        Ok(Mails { words, wide })
    }

    /// All numbers are of 64 bits. A call does nothing when it runs; it gives its caller this law.
    pub fn numbers_fit(&self)
        ensures { NumbersFit self.now.items }
    {
        let _words = &self.words;
    }

    /// The messages in order.
    pub fn iter(&self) -> MailIter<'_>
        ensures { result ≡ self.now.items }
    {
        MailIter {
            words: &self.words,
            wide: &self.wide,
        }
    }
}

/// Goes over messages. Contracts see the list of those that are left.
#[derive(Drop)]
pub struct MailIter<'a> {
    words: &'a [Word],
    wide: &'a [u64],
}

impl<'a> Model for MailIter<'a> {
    ghost use Rattle.std.specs.Prelude.{◌≡◌, List, length};
    ghost use Rattle.fg_model.specs.declared.mail.Mail.{Mail};
    ghost use Rattle.fg_batch.specs.Mails.{beside_in, unpacked};

    ghost Value = { List Mail };

    ghost view = { λ inside. unpacked inside.words.now inside.wide.now };

    ghost invariant = { λ inside. beside_in inside.words.now ≡ length inside.wide.now };
}

impl<'a> Iterator for MailIter<'a> {
    ghost use Rattle.std.specs.Iterator.{YieldsFirst, item_count};

    type Item = Mail;

    ghost next_gives = { YieldsFirst (λ rest. rest) };

    ghost remaining = { item_count (λ rest. rest) };

    #[tactic(auto, unfolding(crate::specs::Mails::unpacked))]
    fn next(&mut self) -> Option<Mail> {
        let (word, words) = self.words.split_first()?;
        let (message, wide) = number_of(word, self.wide);
        self.words = words;
        self.wide = wide;
        Some(Mail {
            target: word.target(),
            message,
        })
    }
}

/// The number of a word's message, where these are left beside, and those that are left behind it.
fn number_of<'a>(word: &Word, wide: &'a [u64]) -> (u64, &'a [u64])
    requires { beside_in (word.now ∷ []) ≤ length wide.now }
    ensures number { result.0 ≡ number_in word.now wide.now }
    ensures behind { result.1.now ≡ wide_behind word.now wide.now }
{
    let low = word.message();
    if low == BESIDE {
        (wide[0], &wide[1..])
    } else {
        (low, wide)
    }
}
