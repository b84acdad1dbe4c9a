//! Loads are served while a block waits for its pages.

ghost use Rattle.std.specs.Prelude.{◌≡◌, ◌<◌, IfErr};
ghost use Rattle.std.specs.List.{Contains};
ghost use Rattle.fg_cache.specs.Site.{IsLayout, asked_pages};

use fg_cache::{Cache, FaultShare, Served};
use fg_outside::Drive;
use fg_stripe::Layout;
use fg_stripe::striping::place;
use std::sync::Wait;

/// Serves a drive once; whether no load waited for it.
fn serve_drive<D: Drive, R: Wait>(rt: &R, cache: &Cache<D>, drive: u32) -> Result<bool, FaultShare>
    requires { drive < cache.now.site.layout.drives }
    ensures { IfErr result (λ share. share.books ≡ cache.now.site.books) }
{
    match cache.serve(rt, drive) {
        Served::Pages(_read) => Ok(false),
        Served::Idle(_slip) => Ok(true),
        Served::Fault(share) => Err(share),
    }
}

/// Serves each drive but this one once, in ascending order.
fn serve_others<D: Drive, R: Wait>(
    rt: &R,
    cache: &Cache<D>,
    drives: u32,
    own: u32,
) -> Result<(), FaultShare>
    requires { drives ≡ cache.now.site.layout.drives }
    ensures { IfErr result (λ share. share.books ≡ cache.now.site.books) }
{
    for drive in 0..drives {
        if drive == own {
            continue;
        }
        match serve_drive(rt, cache, drive) {
            Ok(_idle) => {}
            Err(share) => return Err(share),
        }
    }
    Ok(())
}

/// Serves the drive of a page once. Where no load waited for it and the page's load was `held` up, each other drive is served once too,
/// since the loads that hold it up may wait there.
pub(crate) fn serve_for<D: Drive, R: Wait>(
    rt: &R,
    cache: &Cache<D>,
    layout: Layout,
    page: u32,
    held: bool,
) -> Result<(), FaultShare>
    requires layout { layout ≡ cache.now.site.layout }
    requires striped { IsLayout layout }
    requires asked { Contains (asked_pages cache.now.site) page }
    ensures { IfErr result (λ share. share.books ≡ cache.now.site.books) }
{
    let own = place(page, layout.drives, layout.unit).drive;
    let idle = match serve_drive(rt, cache, own) {
        Ok(idle) => idle,
        Err(share) => return Err(share),
    };
    if idle && held {
        return serve_others(rt, cache, layout.drives, own);
    }
    Ok(())
}
