//! What a seat at the table of words knows, the rule that ties all seats' views to the words, and what each step tells.
use atomic_table::{Join, Play, Split, TableRule};
use std::collections::LinkedList;

/// How many blocks each part has, and how many seats there are.
#[derive(Drop)]
pub(crate) struct Plan {
    pub(crate) counts: Vec<u32>,
    pub(crate) seats: u32,
}

/// What a seat at the table knows. No value of it is made.
pub(crate) struct View {
    pub(crate) counts: LinkedList<u32>,
    pub(crate) seats: u32,
    /// How many seats it stands for: one, none once it was joined to another, or more once others were joined to it.
    pub(crate) stands_for: u32,
    /// What it drew, each as a run and a place in it.
    pub(crate) drawn: LinkedList<(u32, u32)>,
    /// The runs that it was told are spent, the last one first, as often as it was told.
    pub(crate) spent: LinkedList<u32>,
}

/// Each place of a run is in one list of draws, once, as far as the word of the run has come.
pub(crate) struct Once;

impl TableRule<(), View, Plan> for Once {
    ghost use Rattle.fg_steal.specs.Once.{Kept, opening_view};

    ghost holds = { λ plan s. Kept plan.counts.items plan.seats s.words s.views };

    ghost first = { λ plan. opening_view plan.counts.items plan.seats };
}

/// A fetch-and-add on a run's word.
pub(crate) struct Draw;

impl Play<(), View> for Draw {
    ghost use Rattle.std.specs.Prelude.{◌≡◌};
    ghost use Rattle.fg_steal.specs.Once.{Draws};

    ghost then = { λ step before number after. Draws step.word before.0 number after.0 × (after.1 ≡ before.1) };
}

/// A seat that is cut off, or joined again.
pub(crate) struct OneSeat;

impl Split<View> for OneSeat {
    ghost use Rattle.fg_steal.specs.Once.{one_less, one_seat};

    ghost left = { one_less };

    ghost right = { one_seat };
}

impl Join<View> for OneSeat {
    ghost use Rattle.fg_steal.specs.Once.{joined, no_seat};

    ghost both = { joined };

    ghost spent = { no_seat };
}
