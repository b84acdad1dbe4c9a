//! What a job asks of a run.

ghost use Rattle.std.specs.Prelude.{◌≡◌};
ghost use Rattle.fg_top.specs.Outcome.{wish_for};

use fg_words::Pick;

/// What a job asks of a run: the program, the most iterations, whether the values are shown after each iteration, and
/// whether their sum stands for them at the end.
#[derive(Clone, Copy, PartialEq, Eq, Debug)]
pub struct Wish {
    pub pick: Pick,
    pub max: u32,
    pub each: bool,
    pub quiet: bool,
}

impl Wish {
    /// A run of this program, of at most `max` iterations.
    pub fn new(pick: Pick, max: u32, each: bool, quiet: bool) -> Wish
        ensures { result ≡ wish_for pick max each quiet }
    {
        Wish {
            pick,
            max,
            each,
            quiet,
        }
    }
}
