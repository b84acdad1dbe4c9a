//! One entry of a directory: what the frame behind it holds.

ghost use Rattle.std.specs.Prelude.{◌≡◌, ◌<◌, slice_set, true, false};

use crate::pins::PinBits;

/// What a frame holds.
#[derive(Clone, Copy, PartialEq, Eq, Debug)]
pub enum EntryState {
    /// No page.
    Empty,
    /// The page is on its way; who started the load ends it by `ready` or `fail`.
    Loading(u32),
    /// The page stands in the frame.
    Ready(u32),
}

/// An entry of a directory: the state of one frame, the clock's mark, and the workers that have the frame pinned.
#[derive(Drop, Debug)]
pub struct Entry {
    pub state: EntryState,
    /// The page was used since the clock last looked.
    pub marked: bool,
    pub pins: PinBits,
}

impl Entry {
    ghost use Rattle.fg_set.specs.Clock.{is_taken};
    ghost use Rattle.fg_set.specs.Entry.{blank, is_ready, is_loading, is_empty, is_free, used_by, loading, passed, ready, emptied, unpinned_by, repaired_by};

    /// An entry of a new directory.
    pub(crate) fn blank() -> Entry
        ensures { result ≡ blank }
    {
        Entry {
            state: EntryState::Empty,
            marked: false,
            pins: PinBits::none(),
        }
    }

    pub(crate) fn is_ready(&self, page: u32) -> bool
        ensures { result ≡ is_ready page self.now }
    {
        match self.state {
            EntryState::Ready(held) => held == page,
            _ => false,
        }
    }

    pub(crate) fn is_loading(&self, page: u32) -> bool
        ensures { result ≡ is_loading page self.now }
    {
        match self.state {
            EntryState::Loading(coming) => coming == page,
            _ => false,
        }
    }

    pub(crate) fn is_empty(&self) -> bool
        ensures { result ≡ is_empty self.now }
    {
        match self.state {
            EntryState::Empty => true,
            _ => false,
        }
    }

    /// The clock may take an entry that is ready and that nobody has pinned.
    pub(crate) fn is_free(&self) -> bool
        ensures { result ≡ is_free self.now }
    {
        match self.state {
            EntryState::Ready(_) => !self.pins.is_any_set(),
            _ => false,
        }
    }

    /// The clock takes a free entry that has no mark.
    pub(crate) fn is_taken(&self) -> bool
        ensures { result ≡ is_taken self.now }
    {
        self.is_free() && !self.marked
    }

    /// A worker found its page here: it is marked, and pinned for that worker.
    pub(crate) fn use_by(&mut self, worker: u32)
        requires { worker < 64 }
        ensures { self.new ≡ used_by worker self.old }
    {
        self.marked = true;
        self.pins.set(worker);
    }

    /// A load of the page into this frame begins.
    pub(crate) fn start(&mut self, page: u32)
        ensures { self.new ≡ loading page self.old }
    {
        self.state = EntryState::Loading(page);
        self.marked = false;
    }

    /// The clock goes by: a free entry loses its mark.
    pub(crate) fn pass(&mut self)
        ensures { self.new ≡ passed self.old }
    {
        if self.is_free() {
            self.marked = false;
        }
    }

    /// The page's bytes came.
    pub(crate) fn finish(&mut self, page: u32)
        ensures { self.new ≡ ready page self.old }
    {
        self.state = EntryState::Ready(page);
        self.marked = true;
    }

    /// The page is given up.
    pub(crate) fn empty(&mut self)
        ensures { self.new ≡ emptied self.old }
    {
        self.state = EntryState::Empty;
    }

    pub(crate) fn unpin(&mut self, worker: u32)
        requires { worker < 64 }
        ensures { self.new ≡ unpinned_by worker self.old }
    {
        self.pins.clear(worker);
    }

    /// Clears the worker's bit, and gives the page up where it was the last.
    pub(crate) fn repair(&mut self, worker: u32)
        requires { worker < 64 }
        ensures { self.new ≡ repaired_by worker self.old }
    {
        self.pins.clear(worker);
        if self.is_free() {
            self.state = EntryState::Empty;
        }
    }
}
