//! The pin bits of one entry.

ghost use Rattle.std.specs.Prelude.{◌≡◌, ◌<◌, ◌↔◌, IsTrue, true, false, slice_set, replicate};
ghost use Rattle.fg_set.specs.PinBits.{is_any_set};

use std::marker::Model;

/// A bit for each of 64 workers, in one word. Contracts see the list of the bits, worker 0 first.
#[derive(Drop, Debug)]
pub struct PinBits {
    word: u64,
}

impl Model for PinBits {
    ghost use Rattle.std.specs.Prelude.{List, Bool};
    ghost use Rattle.fg_set.specs.PinBits.{bits_of};

    ghost Value = { List Bool };

    ghost view = { λ pins. bits_of 64 pins.word };
}

impl PinBits {
    /// No bit set.
    pub fn none() -> PinBits
        ensures { result ≡ replicate 64 false }
    {
        PinBits { word: 0 }
    }

    /// Sets a worker's bit.
    pub fn set(&mut self, worker: u32)
        requires { worker < 64 }
        ensures { self.new ≡ slice_set self.old worker true }
    {
        self.word |= 1 << worker;
    }

    /// Clears a worker's bit.
    pub fn clear(&mut self, worker: u32)
        requires { worker < 64 }
        ensures { self.new ≡ slice_set self.old worker false }
    {
        self.word &= !(1 << worker);
    }

    /// Whether any worker's bit is set.
    pub fn is_any_set(&self) -> bool
        ensures { result ≡ is_any_set self.now }
    {
        self.word != 0
    }
}
