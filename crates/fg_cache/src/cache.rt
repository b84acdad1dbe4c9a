//! The cache: its parts, and how a page, a frame and a drive come to their locks.

ghost use Rattle.std.specs.Prelude.{◌≡◌, ◌<◌, ◌%◌, ◌/◌, ◌*◌, ◌+◌, slice_index_or};
ghost use Rattle.fg_cache.specs.Site.{IsSite, frames_of};

use crate::ledgers::Ledgers;
use crate::queue_desk::QueueDesk;
use crate::room::Room;
use crate::set_desk::SetDesk;
use crate::shape::Shape;
use crate::shelf::Shelf;
use fg_cell::{Frame, Named};
use fg_outside::Drive;
use fg_stripe::Layout;
use std::marker::Model;

/// A cache of an image's pages over its drives, which threads share. Contracts see what its locks have in common, and the drives as
/// they were when it was opened.
///
/// A page stands in the set of its number modulo the sets. Each set has a lock round its directory, each drive one round its queue and
/// one round itself, and each frame a slot that shows its page to many or takes another.
#[derive(Drop)]
pub struct Cache<D: Drive> {
    pub(crate) layout: Layout,
    pub(crate) shape: Shape,
    pub(crate) ledgers: Ledgers,
    pub(crate) sets: Vec<Named<SetDesk>>,
    pub(crate) queues: Vec<Named<QueueDesk>>,
    pub(crate) shelves: Vec<Named<Shelf<D>>>,
    pub(crate) frames: Vec<Frame>,
    pub(crate) room: Named<Room<D>>,
}

impl<D: Drive> Model for Cache<D> {
    ghost use Rattle.std.specs.Prelude.{◌≡◌, All, length, map};
    ghost use Rattle.fg_cache.specs.Cache.{CacheOver, AreNamed, AreShelves};
    ghost use Rattle.fg_cache.specs.Names.{DriveLock};
    ghost use Rattle.fg_cache.specs.Site.{IsSite, frames_of};

    ghost Value = { CacheOver D };

    ghost view = { λ c. record { site = c.room.site; drives = map (λ (lock : DriveLock D). lock.opened) c.shelves.items } };

    ghost invariant = { λ c.
        IsSite c.room.site
        × (c.layout ≡ c.room.site.layout)
        × (c.shape ≡ c.room.site.shape)
        × (c.ledgers ≡ c.room.site.books)
        × (c.room.number ≡ c.room.site.layout.drives)
        × (length c.sets.items ≡ c.room.site.shape.sets)
        × (length c.queues.items ≡ c.room.site.layout.drives)
        × (length c.shelves.items ≡ c.room.site.layout.drives)
        × (length c.frames.items ≡ frames_of c.room.site)
        × AreNamed c.room.site c.sets.items
        × AreNamed c.room.site c.queues.items
        × AreShelves c.room.site c.shelves.items
        × All (λ frame. frame ≡ c.room.site.image) c.frames.items };
}

impl<D: Drive> Cache<D> {
    pub(crate) fn layout(&self) -> Layout
        ensures layout { result ≡ self.now.site.layout }
        ensures site { IsSite self.now.site }
    {
        self.layout
    }

    pub(crate) fn shape(&self) -> Shape
        ensures shape { result ≡ self.now.site.shape }
        ensures site { IsSite self.now.site }
    {
        self.shape
    }

    pub(crate) fn ledgers(&self) -> &Ledgers
        ensures books { result.now ≡ self.now.site.books }
        ensures site { IsSite self.now.site }
    {
        &self.ledgers
    }

    /// The lock of a page set.
    pub(crate) fn set(&self, number: u32) -> &Named<SetDesk>
        requires { number < self.now.site.shape.sets }
        ensures name { result.now ≡ record { site = self.now.site; number = number } }
        ensures site { IsSite self.now.site }
    {
        &self.sets[number as usize]
    }

    /// The lock of the set that a frame is in.
    pub(crate) fn set_of(&self, frame: u32) -> &Named<SetDesk>
        requires { frame < frames_of self.now.site }
        ensures name { result.now ≡ record { site = self.now.site; number = frame / self.now.site.shape.ways } }
        ensures site { IsSite self.now.site }
    {
        self.set(frame / self.shape.ways)
    }

    /// A frame's place in its set.
    pub(crate) fn way_of(&self, frame: u32) -> u32
        ensures way { result ≡ frame % self.now.site.shape.ways }
        ensures within { result < self.now.site.shape.ways }
    {
        frame % self.shape.ways
    }

    /// The frame at a place of a set.
    pub(crate) fn frame_at(&self, set: u32, way: u32) -> u32
        requires set { set < self.now.site.shape.sets }
        requires way { way < self.now.site.shape.ways }
        ensures frame { result ≡ set * self.now.site.shape.ways + way }
        ensures within { result < frames_of self.now.site }
    {
        set * self.shape.ways + way
    }

    /// The lock of a drive's queue.
    pub(crate) fn queue(&self, drive: u32) -> &Named<QueueDesk>
        requires { drive < self.now.site.layout.drives }
        ensures name { result.now ≡ record { site = self.now.site; number = drive } }
        ensures site { IsSite self.now.site }
    {
        &self.queues[drive as usize]
    }

    /// The lock of a drive.
    pub(crate) fn shelf(&self, drive: u32) -> &Named<Shelf<D>>
        requires { drive < self.now.site.layout.drives }
        ensures own { (result.now.site ≡ self.now.site) × (result.now.number ≡ drive) }
        ensures opened { (d : D) → result.now.opened ≡ slice_index_or self.now.drives drive d }
        ensures site { IsSite self.now.site }
    {
        &self.shelves[drive as usize]
    }

    pub(crate) fn frame(&self, number: u32) -> &Frame
        requires { number < frames_of self.now.site }
        ensures image { result.now ≡ self.now.site.image }
        ensures site { IsSite self.now.site }
    {
        &self.frames[number as usize]
    }
}
