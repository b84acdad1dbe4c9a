//! How a cache is opened over its drives.

ghost use Rattle.std.specs.Prelude.{◌≡◌, ◌<◌, ◌≤◌, ◌-◌, ◌+◌, All, IfOk, IfErr, [], length, map, pos, vec_capacity};
ghost use Rattle.fg_books.specs.Shares.{parts_of, amount_of};
ghost use Rattle.fg_cache.specs.Cache.{AreShelves};
ghost use Rattle.fg_cache.specs.Names.{DriveLock};
ghost use Rattle.fg_cache.specs.Opening.{AreStocked, AreNew, HasFaults};
ghost use Rattle.fg_cache.specs.Share.{idle};
ghost use Rattle.fg_cache.specs.Shelf.{IsStocked};
ghost use Rattle.fg_cache.specs.Site.{IsLayout, IsShape};
ghost use Rattle.fg_cache.specs.Stock.{IsStock};
ghost use Rattle.fg_base.specs.declared.limits.TheConstants.{NO_PAGE};

use crate::asked::CacheName;
use crate::cache::Cache;
use crate::home::{Home, LockName, ShelfName};
use crate::ledgers::Ledgers;
use crate::pass::Pass;
use crate::room::Room;
use crate::shape::Shape;
use crate::share::Share;
use crate::shelf::Shelf;
use crate::stock::{Parked, Stock};
use fg_base::Memory;
use fg_books::Lot;
use fg_cell::Named;
use fg_outside::Drive;
use fg_stripe::Layout;
use std::alloc::Global;

impl<D: Drive> Cache<D> {
    /// A cache over these drives, and its passes, one for each worker, in order. It takes all the memory that it will ever need; for
    /// want of that the drives come back.
    pub fn open(
        alloc: Global,
        drives: Vec<D>,
        layout: Layout,
        shape: Shape,
        name: CacheName,
    ) -> Result<(Cache<D>, Vec<Pass>), (Vec<D>, Memory)>
        requires layout { IsLayout layout }
        requires shape { IsShape shape }
        requires count { length drives.items ≡ layout.drives }
        requires stocked { AreStocked D.held D.told name.image.pages layout drives.items }
        ensures layout { IfOk result (λ r. (r.0.site.layout ≡ layout) × (r.0.site.shape ≡ shape)) }
        ensures name { IfOk result (λ r. (r.0.site.image ≡ name.image.pages) × (r.0.site.asked ≡ name.asked.pages)) }
        ensures drives { IfOk result (λ r. r.0.drives ≡ drives.items) }
        ensures count { IfOk result (λ r. length r.1.items ≡ shape.passes) }
        ensures passes { IfOk result (λ r. AreNew r.0.site r.1.items) }
        ensures back { IfErr result (λ back. back.0.items ≡ drives.items) }
    {
        match Stock::new(alloc, layout, shape, name) {
            Ok(stock) => Ok(with_drives(stock, drives)),
            Err(memory) => Err((drives, memory)),
        }
    }
}

// The drives move in.
fn with_drives<D: Drive>(stock: Stock<D>, drives: Vec<D>) -> (Cache<D>, Vec<Pass>)
    requires stock { IsStock stock }
    requires count { length drives.items ≡ stock.home.layout.drives }
    requires stocked { AreStocked D.held D.told stock.home.image stock.home.layout drives.items }
    ensures site { result.0.site ≡ stock.home }
    ensures drives { result.0.drives ≡ drives.items }
    ensures passes { result.1.items ≡ stock.passes.items }
{
    let Stock {
        home,
        ledgers,
        mut share,
        faults,
        sets,
        queues,
        frames,
        passes,
        parked,
        shelves,
        room,
    } = stock;
    let shelves = make_shelves(&ledgers, &home, &mut share, faults, parked, shelves, drives);
    let name = LockName::of(&home, home.layout.drives);
    let cache = Cache {
        layout: home.layout,
        shape: home.shape,
        ledgers,
        sets,
        queues,
        shelves,
        frames,
        room: Named::new(
            Room {
                drives: room,
                share,
            },
            name,
        ),
    };
    (cache, passes)
}

// A lock round each drive.
fn make_shelves<D: Drive>(
    ledgers: &Ledgers,
    home: &Home,
    share: &mut Share,
    faults: Lot,
    parked: Vec<Parked>,
    shelves: Vec<Named<Shelf<D>>>,
    drives: Vec<D>,
) -> Vec<Named<Shelf<D>>>
    requires own { home.now.books ≡ ledgers.now }
    requires loose { home.now.books.plan.loose ≡ length drives.items }
    requires share { share.old ≡ idle ledgers.now (length drives.items) }
    requires faults { HasFaults home.now 0 faults }
    requires parked { (length parked.items ≡ length drives.items) × All (λ (one : Parked). one.spare.number ≡ NO_PAGE) parked.items }
    requires shelves { (shelves.items ≡ []) × (length drives.items ≤ vec_capacity shelves) }
    requires stocked { AreStocked D.held D.told home.now.image home.now.layout drives.items }
    ensures share { share.new ≡ idle ledgers.now 0 }
    ensures count { length result.items ≡ length drives.items }
    ensures names { AreShelves home.now result.items }
    ensures drives { map (λ (lock : DriveLock D). lock.opened) result.items ≡ drives.items }
{
    let mut faults = faults;
    let mut parked = parked;
    let mut shelves = shelves;
    let mut number = 0;
    let mut left = drives;
    // The first drive is taken first.
    left.reverse();
    while let Some(drive) = left.pop() {
        let Some(beside) = parked.pop() else {
            break;
        };
        let lot = ledgers
            .books
            .cut_off(&mut faults, number, 1, ledgers.parts());
        let own = ledgers.cut_one(share);
        shelves.push_reserved(make_shelf(home, number, drive, beside, own, lot));
        number += 1;
    }
    shelves
}

// The lock round one drive.
fn make_shelf<D: Drive>(
    home: &Home,
    number: u32,
    drive: D,
    beside: Parked,
    share: Share,
    faults: Lot,
) -> Named<Shelf<D>>
    requires stocked { IsStocked D.held D.told home.now.image home.now.layout number drive }
    requires within { number < home.now.books.plan.loose }
    requires share { share ≡ idle home.now.books 1 }
    requires own { faults.books ≡ home.now.books }
    requires parts { (parts_of faults number ≡ home.now.books.plan.parts) × (amount_of faults number ≡ pos 0) }
    requires blank { beside.spare.number ≡ NO_PAGE }
    ensures { result ≡ record { site = home.now; number = number; opened = drive } }
{
    let Parked { buffer, spare } = beside;
    let name = ShelfName::of(home, number, &drive);
    let shelf = Shelf {
        drive,
        number,
        buffer,
        spare: Some(spare),
        share,
        faults,
        rose: false,
        reads: 0,
        pages: 0,
    };
    Named::new(shelf, name)
}
