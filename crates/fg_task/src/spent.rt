//! How many messages stored jobs sent, as contracts see it.

ghost use Rattle.std.specs.Prelude.{◌≡◌, ℕ};
ghost use base.Fml.{ftrue};
ghost use base.Stored.{coded_ℕ};

use std::marker::{Brand, Model, PhantomData};
use std::snapshot::Snapshot;

/// A number that the proof of a call picks.
pub(crate) trait Number {
    ghost use Rattle.std.specs.Prelude.{ℕ};

    ghost messages: { ℕ };
}

impl Number for Brand {
    ghost messages = { 0 };
}

/// How many messages were sent. It has no bytes.
pub(crate) struct Sent {
    marker: PhantomData<()>,
    pub(crate) ghost messages: { ℕ } by { coded_ℕ },
}

impl Model for Sent {
    ghost also_owns = { λ _. ftrue };
}

impl Sent {
    pub(crate) fn of<N: Number>() -> Sent
        ensures { result.messages ≡ N.messages }
    {
        Sent {
            marker: PhantomData,
        }
    }
}

impl Drop for Sent {
    fn drop(self) {
        let Self { marker: _ } = self;
    }
}

pub(crate) fn picked<N: Number>() -> Snapshot<Sent>
    ensures { result.value.messages ≡ N.messages }
{
    let sent = Sent::of::<N>();
    Snapshot::of(&sent)
}

pub(crate) fn none() -> Snapshot<Sent>
    ensures { result.value.messages ≡ 0 }
{
    picked::<Brand>()
}

/// A slip of a finished book. Contracts see on it how many messages the book's jobs sent; the number takes no room.
#[derive(Drop)]
pub struct Spent {
    sent: Snapshot<Sent>,
}

impl Model for Spent {
    ghost use Rattle.fg_task.specs.Book.{Spending};

    ghost Value = { Spending };

    ghost view = { λ spent. record { sent = spent.sent.value.messages } };
}

impl Spent {
    pub(crate) fn of(sent: Snapshot<Sent>) -> Spent
        ensures { result.sent ≡ sent.value.messages }
    {
        Spent { sent }
    }
}
