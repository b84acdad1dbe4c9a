//! One ask for a page, and lists of them.

ghost use Rattle.std.specs.Prelude.{◌≡◌};

use std::marker::Model;

/// A job asks for a page.
#[derive(Clone, Copy, PartialEq, Eq, Debug, Default)]
pub struct PageAsk {
    pub page: u32,
    pub job: u32,
}

/// Asks in a row. Contracts see them as a list; it is made from a vector and gives it back without taking memory.
#[derive(Drop, Debug)]
pub struct AskList {
    asks: Vec<PageAsk>,
}

impl Model for AskList {
    ghost use Rattle.std.specs.Prelude.{List};
    ghost use Rattle.fg_queue.specs.declared.asks.PageAsk.{PageAsk};

    ghost Value = { List PageAsk };

    ghost view = { λ list. list.asks.items };
}

impl AskList {
    pub fn from_vec(asks: Vec<PageAsk>) -> AskList
        ensures { result ≡ asks.items }
    {
        AskList { asks }
    }

    pub fn as_slice(&self) -> &[PageAsk]
        ensures { result.now ≡ self.now }
    {
        &self.asks
    }

    pub fn into_vec(self) -> Vec<PageAsk>
        ensures { result.items ≡ self }
    {
        self.asks
    }
}
