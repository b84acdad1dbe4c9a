//! The buffer into which a drive's lock reads.

ghost use Rattle.std.specs.Prelude.{◌≡◌, ◌<◌, ◌≤◌, ◌+◌, ◌*◌, ℕ, [], ◌∷◌, length, OnOk, OnErr, IsSome, IsOk, IfSome};
ghost use Rattle.fg_base.specs.Faults.{Counts};
ghost use Rattle.fg_base.specs.Told.{grown, GrewByFirst};
ghost use Rattle.fg_base.specs.declared.limits.TheConstants.{PAGE_BYTES};
ghost use Rattle.fg_outside.specs.Log.{read_of};
ghost use Rattle.fg_stripe.specs.Held.{page_of};

use fg_base::limits::PAGE_BYTES;
use fg_base::{Failed, Memory};
use fg_outside::Drive;
use std::alloc::Global;
use std::marker::Model;

/// Room for the 32 pages of one read. Contracts see its bytes.
#[derive(Drop)]
pub(crate) struct ReadBuffer {
    bytes: Vec<u8>,
}

impl Model for ReadBuffer {
    ghost use Rattle.std.specs.Prelude.{◌≡◌, List, ℕ, length};

    ghost Value = { List ℕ };

    ghost view = { λ b. b.bytes.items };

    ghost invariant = { λ b. length b.bytes.items ≡ 131072 };
}

impl ReadBuffer {
    pub(crate) fn new(alloc: Global) -> Result<ReadBuffer, Memory> {
        Ok(ReadBuffer {
            bytes: vec![in alloc; 0u8; 131_072]?,
        })
    }

    /// Page `k` of the buffer.
    pub(crate) fn page(&self, k: u32) -> &[u8]
        requires { k < 32 }
        ensures page { result.now ≡ page_of self.now k }
        ensures length { length result.now ≡ PAGE_BYTES }
    {
        let at = k as usize * PAGE_BYTES;
        &self.bytes[at..at + PAGE_BYTES]
    }

    /// Reads `count` pages of the drive, from page `first` on, into the first pages of the buffer.
    pub(crate) fn read<D: Drive>(
        &mut self,
        drive: &mut D,
        first: u32,
        count: u32,
    ) -> Result<(), Failed>
        requires some { 1 ≤ count }
        requires few { count ≤ 32 }
        requires told { first + count ≤ D.told drive.old }

        ensures pages { OnOk result (IfSome (D.held drive.old) (λ bytes. (k : ℕ) → k < count → page_of self.new k ≡ page_of bytes (first + k))) }
        ensures log { OnOk result (D.log drive.new ≡ grown (D.log drive.old) (read_of first count ∷ [])) }
        ensures log_err { OnErr result (GrewByFirst (read_of first count ∷ []) (D.log drive.old) (D.log drive.new)) }

        ensures held { D.held drive.new ≡ D.held drive.old }
        ensures same_told { D.told drive.new ≡ D.told drive.old }
        ensures room { D.room drive.new ≡ D.room drive.old }

        ensures sure { IsSome (D.room drive.old) → IsOk result }
        ensures counted { Counts (D.faults drive.old) (D.faults drive.new) result }
    {
        read_front(drive, first, count, self.bytes.as_mut_slice())
    }
}

// Into the front of a slice, whose rest stays.
fn read_front<D: Drive>(
    drive: &mut D,
    first: u32,
    count: u32,
    into: &mut [u8],
) -> Result<(), Failed>
    requires some { 1 ≤ count }
    requires few { count ≤ 32 }
    requires told { first + count ≤ D.told drive.old }
    requires room_for { length into.old ≡ 131072 }

    ensures pages { OnOk result (IfSome (D.held drive.old) (λ bytes. (k : ℕ) → k < count → page_of into.new k ≡ page_of bytes (first + k))) }
    ensures log { OnOk result (D.log drive.new ≡ grown (D.log drive.old) (read_of first count ∷ [])) }
    ensures log_err { OnErr result (GrewByFirst (read_of first count ∷ []) (D.log drive.old) (D.log drive.new)) }

    ensures held { D.held drive.new ≡ D.held drive.old }
    ensures same_told { D.told drive.new ≡ D.told drive.old }
    ensures room { D.room drive.new ≡ D.room drive.old }

    ensures sure { IsSome (D.room drive.old) → IsOk result }
    ensures counted { Counts (D.faults drive.old) (D.faults drive.new) result }
{
    drive.read_run(first, count, &mut into[..count as usize * PAGE_BYTES])
}
