//! A message in 8 bytes.

ghost use Rattle.std.specs.Prelude.{◌≡◌, ◌<◌, ◌^◌};

use fg_model::Mail;
use std::marker::Model;

/// A target stands above so many bits of a message's number.
const TARGET: u64 = 1 << 40;

/// The number that says that a message's number stands elsewhere.
pub(crate) const BESIDE: u64 = (1 << 40) - 1;

/// A target below 2^24 and a number below 2^40. Contracts see them as a mail.
#[derive(Clone, Copy)]
pub(crate) struct Word {
    both: u64,
}

impl Model for Word {
    ghost use Rattle.std.specs.Prelude.{◌+◌, ◌*◌, ◌/◌, ◌%◌, ◌^◌};
    ghost use Rattle.fg_model.specs.declared.mail.Mail.{Mail};

    ghost Value = { Mail };

    ghost view = { λ inside. record { target = inside.both / 2 ^ 40; message = inside.both % 2 ^ 40 } };

    ghost inverse = { λ mail. record { both = mail.target * 2 ^ 40 + mail.message } };

    ghost use Rattle.fg_batch.specs.Word.{same_word};

    ghost inverse_ok = { λ inside holds. same_word inside };
}

impl Word {
    /// The word of a mail whose number fits.
    pub fn new(mail: Mail) -> Word
        requires target { mail.target < 2 ^ 24 }
        requires message { mail.message < 2 ^ 40 }
        ensures { result ≡ mail }
    {
        Word {
            both: u64::from(mail.target) * TARGET + mail.message,
        }
    }

    /// Where it goes.
    pub fn target(&self) -> u32
        ensures { result ≡ self.now.target }
    {
        (self.both / TARGET) as u32
    }

    /// Its number.
    pub fn message(&self) -> u64
        ensures { result ≡ self.now.message }
    {
        self.both % TARGET
    }
}
