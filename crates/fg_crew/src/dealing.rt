//! How the places of a wave are dealt out to parts.

ghost use Rattle.std.specs.Prelude.{◌≡◌, ◌<◌, ◌≤◌, IfOk};
ghost use Rattle.fg_base.specs.declared.limits.TheConstants.{MAX_VERTICES, MAX_WORKERS};
ghost use Rattle.fg_crew.specs.Claimed.{Deals};

use fg_base::Memory;
use fg_part::PartMap;
use std::alloc::Global;

/// How many of so many places each part has.
pub(crate) fn deal(alloc: Global, count: u32, parts: u32) -> Result<Vec<u32>, Memory>
    requires count { count ≤ MAX_VERTICES }
    requires parts { (0 < parts) × (parts ≤ MAX_WORKERS) }
    ensures { IfOk result (λ counts. Deals counts.items count parts) }
{
    let places = PartMap::new(count, 0, parts);
    let mut counts = Vec::with_capacity(alloc, parts as usize)?;
    for part in 0..parts {
        counts.push(places.blocks(part))?;
    }
    Ok(counts)
}
