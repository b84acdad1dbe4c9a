//! All that a cache takes of memory, before its drives are moved.

ghost use Rattle.std.specs.Prelude.{◌≡◌, ◌<◌, ◌≤◌, ◌-◌, ◌+◌, ◌*◌, [], All, IfOk, length, vec_capacity};
ghost use Rattle.fg_cache.specs.Cache.{AreNamed};
ghost use Rattle.fg_cache.specs.Opening.{AreNew, HasFaults};
ghost use Rattle.fg_cache.specs.Share.{idle};
ghost use Rattle.fg_cache.specs.Stock.{IsStock};
ghost use Rattle.fg_base.specs.declared.limits.TheConstants.{NO_PAGE};
ghost use Rattle.fg_cache.specs.Site.{IsLayout, IsShape, IsSite, frames_of, sharers};

use crate::asked::CacheName;
use crate::buffer::ReadBuffer;
use crate::counts::none;
use crate::home::{Home, LockName};
use crate::ledgers::Ledgers;
use crate::pass::Pass;
use crate::queue_desk::QueueDesk;
use crate::set_desk::SetDesk;
use crate::shape::Shape;
use crate::share::Share;
use crate::shelf::Shelf;
use fg_base::Memory;
use fg_books::Lot;
use fg_cell::{Frame, ImageName, Named, PageBuf};
use fg_outside::Drive;
use fg_queue::Queue;
use fg_set::Directory;
use fg_stripe::Layout;
use std::alloc::Global;
use std::snapshot::Snapshot;

/// What a drive's lock needs beside the drive.
#[derive(Drop)]
pub(crate) struct Parked {
    pub(crate) buffer: ReadBuffer,
    pub(crate) spare: PageBuf,
}

/// A cache without its drives, and room for them.
#[derive(Drop)]
pub(crate) struct Stock<D: Drive> {
    pub(crate) home: Home,
    pub(crate) ledgers: Ledgers,
    pub(crate) share: Share,
    pub(crate) faults: Lot,
    pub(crate) sets: Vec<Named<SetDesk>>,
    pub(crate) queues: Vec<Named<QueueDesk>>,
    pub(crate) frames: Vec<Frame>,
    pub(crate) passes: Vec<Pass>,
    pub(crate) parked: Vec<Parked>,
    pub(crate) shelves: Vec<Named<Shelf<D>>>,
    pub(crate) room: Vec<D>,
}

impl<D: Drive> Stock<D> {
    pub(crate) fn new(
        alloc: Global,
        layout: Layout,
        shape: Shape,
        name: CacheName,
    ) -> Result<Stock<D>, Memory>
        requires layout { IsLayout layout }
        requires shape { IsShape shape }
        ensures home { IfOk result (λ s. (s.home.layout ≡ layout) × (s.home.shape ≡ shape)) }
        ensures name { IfOk result (λ s. (s.home.image ≡ name.image.pages) × (s.home.asked ≡ name.asked.pages)) }
        ensures ok { IfOk result IsStock }
    {
        let Begun {
            home,
            ledgers,
            share,
            faults,
        } = begin(alloc, layout, shape, name)?;
        let Locks {
            share,
            sets,
            queues,
            passes,
        } = make_locks(alloc, &ledgers, &home, share)?;
        let frames = make_frames(alloc, shape.sets * shape.ways, &home.name.image)?;
        let parked = make_parked(alloc, layout.drives)?;
        Ok(Stock {
            home,
            ledgers,
            share,
            faults,
            sets,
            queues,
            frames,
            passes,
            parked,
            shelves: Vec::with_capacity(alloc, layout.drives as usize)?,
            room: Vec::with_capacity(alloc, layout.drives as usize)?,
        })
    }
}

// The ledgers of a cache, with all their parts in hand.
#[derive(Drop)]
struct Begun {
    home: Home,
    ledgers: Ledgers,
    share: Share,
    faults: Lot,
}

// The locks of sets and queues, the passes, and the share that is left for the drives.
#[derive(Drop)]
struct Locks {
    share: Share,
    sets: Vec<Named<SetDesk>>,
    queues: Vec<Named<QueueDesk>>,
    passes: Vec<Pass>,
}

fn begin(alloc: Global, layout: Layout, shape: Shape, name: CacheName) -> Result<Begun, Memory>
    requires layout { IsLayout layout }
    requires shape { IsShape shape }
    ensures home { IfOk result (λ b. (b.home.layout ≡ layout) × (b.home.shape ≡ shape)) }
    ensures name { IfOk result (λ b. (b.home.image ≡ name.image.pages) × (b.home.asked ≡ name.asked.pages)) }
    ensures own { IfOk result (λ b. b.home.books ≡ b.ledgers) }
    ensures plan { IfOk result (λ b. (b.ledgers.plan.loose ≡ layout.drives) × (b.ledgers.plan.parts ≡ sharers layout shape)) }
    ensures share { IfOk result (λ b. b.share ≡ idle b.ledgers (sharers layout shape)) }
    ensures faults { IfOk result (λ b. HasFaults b.home 0 b.faults) }
{
    let parts = shape.sets + 2 * layout.drives + shape.passes;
    let (ledgers, mut faults) = Ledgers::new(alloc, layout.drives, parts)?;
    let share = ledgers.all(&mut faults);
    let books = Snapshot::of(&ledgers);
    let home = Home {
        layout,
        shape,
        name,
        books,
    };
    Ok(Begun {
        home,
        ledgers,
        share,
        faults,
    })
}

fn make_locks(alloc: Global, ledgers: &Ledgers, home: &Home, share: Share) -> Result<Locks, Memory>
    requires own { home.now.books ≡ ledgers.now }
    requires layout { IsLayout home.now.layout }
    requires shape { IsShape home.now.shape }
    requires share { share ≡ idle ledgers.now (sharers home.now.layout home.now.shape) }
    ensures share { IfOk result (λ l. l.share ≡ idle ledgers.now home.now.layout.drives) }
    ensures sets { IfOk result (λ l. (length l.sets.items ≡ home.now.shape.sets) × AreNamed home.now l.sets.items) }
    ensures queues { IfOk result (λ l. (length l.queues.items ≡ home.now.layout.drives) × AreNamed home.now l.queues.items) }
    ensures passes { IfOk result (λ l. (length l.passes.items ≡ home.now.shape.passes) × AreNew home.now l.passes.items) }
{
    let mut share = share;
    let sets = make_sets(alloc, ledgers, home, &mut share)?;
    let queues = make_queues(alloc, ledgers, home, &mut share)?;
    let passes = make_passes(alloc, ledgers, home, &mut share)?;
    Ok(Locks {
        share,
        sets,
        queues,
        passes,
    })
}

#[tactic(auto, using(crate::proofs::EachLemmas::named_push))]
fn make_sets(
    alloc: Global,
    ledgers: &Ledgers,
    home: &Home,
    share: &mut Share,
) -> Result<Vec<Named<SetDesk>>, Memory>
    requires own { home.now.books ≡ ledgers.now }
    requires shape { IsShape home.now.shape }
    requires share { (share.old ≡ idle ledgers.now share.old.parts) × (home.now.shape.sets ≤ share.old.parts) }
    ensures share { IfOk result (λ _. share.new ≡ idle ledgers.now (share.old.parts - home.now.shape.sets)) }
    ensures count { IfOk result (λ sets. length sets.items ≡ home.now.shape.sets) }
    ensures names { IfOk result (λ sets. AreNamed home.now sets.items) }
{
    let shape = home.shape;
    let mut sets = Vec::with_capacity(alloc, shape.sets as usize)?;
    for number in 0..shape.sets {
        let desk = SetDesk {
            directory: Directory::new(shape.ways, shape.passes),
            share: ledgers.cut_one(share),
        };
        sets.push_reserved(Named::new(desk, LockName::of(home, number)));
    }
    Ok(sets)
}

#[tactic(auto, using(crate::proofs::EachLemmas::named_push))]
fn make_queues(
    alloc: Global,
    ledgers: &Ledgers,
    home: &Home,
    share: &mut Share,
) -> Result<Vec<Named<QueueDesk>>, Memory>
    requires own { home.now.books ≡ ledgers.now }
    requires layout { IsLayout home.now.layout }
    requires share { (share.old ≡ idle ledgers.now share.old.parts) × (home.now.layout.drives ≤ share.old.parts) }
    ensures share { IfOk result (λ _. share.new ≡ idle ledgers.now (share.old.parts - home.now.layout.drives)) }
    ensures count { IfOk result (λ queues. length queues.items ≡ home.now.layout.drives) }
    ensures names { IfOk result (λ queues. AreNamed home.now queues.items) }
{
    let mut queues = Vec::with_capacity(alloc, home.layout.drives as usize)?;
    for number in 0..home.layout.drives {
        let desk = QueueDesk {
            queue: Queue::new(alloc, home.shape.depth)?,
            share: ledgers.cut_one(share),
        };
        queues.push_reserved(Named::new(desk, LockName::of(home, number)));
    }
    Ok(queues)
}

#[tactic(auto, using(crate::proofs::EachLemmas::new_push))]
fn make_passes(
    alloc: Global,
    ledgers: &Ledgers,
    home: &Home,
    share: &mut Share,
) -> Result<Vec<Pass>, Memory>
    requires own { home.now.books ≡ ledgers.now }
    requires share { (share.old ≡ idle ledgers.now share.old.parts) × (home.now.shape.passes ≤ share.old.parts) }
    ensures share { IfOk result (λ _. share.new ≡ idle ledgers.now (share.old.parts - home.now.shape.passes)) }
    ensures count { IfOk result (λ passes. length passes.items ≡ home.now.shape.passes) }
    ensures new { IfOk result (λ passes. AreNew home.now passes.items) }
{
    let mut passes = Vec::with_capacity(alloc, home.shape.passes as usize)?;
    for number in 0..home.shape.passes {
        let own = ledgers.cut_one(share);
        passes.push_reserved(Pass::of(number, own, none()));
    }
    Ok(passes)
}

fn make_frames(alloc: Global, count: u32, image: &ImageName) -> Result<Vec<Frame>, Memory>
    ensures count { IfOk result (λ frames. length frames.items ≡ count) }
    ensures image { IfOk result (λ frames. All (λ frame. frame ≡ image.now.pages) frames.items) }
{
    let mut frames = Vec::with_capacity(alloc, count as usize)?;
    for _frame in 0..count {
        frames.push_reserved(Frame::new(PageBuf::new(alloc)?, image.again()));
    }
    Ok(frames)
}

fn make_parked(alloc: Global, count: u32) -> Result<Vec<Parked>, Memory>
    ensures count { IfOk result (λ parked. length parked.items ≡ count) }
    ensures blank { IfOk result (λ parked. All (λ one. one.spare.number ≡ NO_PAGE) parked.items) }
{
    let mut parked = Vec::with_capacity(alloc, count as usize)?;
    for _drive in 0..count {
        parked.push_reserved(Parked {
            buffer: ReadBuffer::new(alloc)?,
            spare: PageBuf::new(alloc)?,
        });
    }
    Ok(parked)
}
