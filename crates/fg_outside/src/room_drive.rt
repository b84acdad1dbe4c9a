// A drive in memory that took all its room when it was made.
ghost use Rattle.std.specs.Prelude.{◌≡◌, ◌+◌, ◌*◌, ◌%◌, ◌<◌, ◌≤◌, ◌^◌, [], None, Some, All, IfOk, length, vec_capacity};
ghost use Rattle.fg_base.specs.declared.limits.TheConstants.{PAGE_BYTES};
ghost use Rattle.fg_outside.specs.Pages.{page_count};
ghost use Rattle.fg_outside.specs.declared.mem_drive.TheConstants.{MEM_DRIVE_BYTES};

use crate::fault_count::FaultCount;
use crate::{Drive, MEM_DRIVE_BYTES};
use fg_base::limits::PAGE_BYTES;
use fg_base::{Failed, Memory};
use std::alloc::Global;

/// A drive in memory that took all its room when it was made. It tells its bytes and its room, and no log. It fails only
/// at an append past its room.
#[derive(Drop)]
pub struct RoomDrive {
    bytes: Vec<u8>,
    free: u32,
    told: u32,
    faults: FaultCount,
    ghost free_fits: { free < 2 ^ 32 },
    ghost told_fits: { told < 2 ^ 32 },
    ghost few: { length bytes.items + free * PAGE_BYTES < MEM_DRIVE_BYTES },
    ghost fits: { length bytes.items + free * PAGE_BYTES ≤ vec_capacity bytes },
    ghost whole: { length bytes.items % PAGE_BYTES ≡ 0 },
    ghost told_held: { told ≤ page_count bytes.items },
    ghost are_bytes: { All (λ byte. byte < 256) bytes.items },
}

impl RoomDrive {
    /// An empty drive with room for so many pages.
    pub fn new(alloc: Global, pages: u32) -> Result<RoomDrive, Memory>
        ensures held { IfOk result (λ drive. ⟦<RoomDrive as Drive>⟧.held drive ≡ Some []) }
        ensures log { IfOk result (λ drive. ⟦<RoomDrive as Drive>⟧.log drive ≡ None) }
        ensures told { IfOk result (λ drive. ⟦<RoomDrive as Drive>⟧.told drive ≡ 0) }
        ensures room { IfOk result (λ drive. ⟦<RoomDrive as Drive>⟧.room drive ≡ Some pages) }
        ensures faults { IfOk result (λ drive. ⟦<RoomDrive as Drive>⟧.faults drive ≡ 0) }
    {
        Ok(RoomDrive {
            bytes: Vec::with_capacity(alloc, pages as usize * PAGE_BYTES)?,
            free: pages,
            told: 0,
            faults: FaultCount::default(),
        })
    }

    /// The bytes held.
    pub fn bytes(&self) -> &[u8]
        ensures { ⟦<RoomDrive as Drive>⟧.held self.now ≡ Some result.now }
    {
        &self.bytes
    }

    /// How often a call has failed.
    pub fn faults(&self) -> u64
        ensures { ⟦<RoomDrive as Drive>⟧.faults self.now ≡ result }
    {
        self.faults.get()
    }
}

impl Drive for RoomDrive {
    ghost held = { λ drive. Some drive.bytes.items };

    ghost log = { λ _. None };

    ghost told = { λ drive. drive.told };

    ghost room = { λ drive. Some drive.free };

    ghost faults = { λ drive. drive.faults.count };

    fn pages(&mut self) -> Result<u32, Failed> {
        self.told = (self.bytes.len() / PAGE_BYTES) as u32;
        Ok(self.told)
    }

    fn read_run(&mut self, first: u32, _count: u32, into: &mut [u8]) -> Result<(), Failed> {
        let from = first as usize * PAGE_BYTES;
        into.copy_from_slice(&self.bytes[from..from + into.len()]);
        Ok(())
    }

    fn append(&mut self, pages: &[u8]) -> Result<(), Failed> {
        let count = pages.len() / PAGE_BYTES;
        if count > self.free as usize {
            return Err(self.faults.fault());
        }
        if self.bytes.extend_from_slice(pages).is_err() {
            return Err(self.faults.fault());
        }
        self.free -= count as u32;
        Ok(())
    }

    ghost told_fits = { λ drive. drive.told_fits };

    ghost told_held = { λ drive. drive.told_held };

    ghost held_bytes = { λ drive. drive.are_bytes };
}

#[cfg(test)]
mod tests {
    use super::*;
    use std::test::Fail;

    const TWO_PAGES: usize = 8192;

    #[test]
    fn fails_only_past_its_room(rt: HostRuntime) -> Result<(), Fail> {
        let alloc = rt.alloc();
        let mut drive = RoomDrive::new(alloc, 3)?;
        let mut two = [7; TWO_PAGES];
        for (pages, want, held) in [
            (two.as_slice(), Ok(()), 2),
            (two.as_slice(), Err(Failed), 2),
            (&two[..PAGE_BYTES], Ok(()), 3),
            (&two[..PAGE_BYTES], Err(Failed), 3),
        ] {
            assert_eq!(rt; drive.append(pages), want);
            assert_eq!(rt; drive.bytes().len(), held * PAGE_BYTES);
        }
        assert_eq!(rt; drive.faults(), 2);

        let pages = drive.pages()?;
        assert!(rt; pages == 3);
        two = [0; TWO_PAGES];
        assert_eq!(rt; drive.read_run(1, 2, &mut two), Ok(()));
        assert_eq!(rt; (two[0], two[8191]), (7, 7));
        Ok(())
    }

    #[test]
    fn may_have_no_room(rt: HostRuntime) -> Result<(), Fail> {
        let mut drive = RoomDrive::new(rt.alloc(), 0)?;
        assert_eq!(rt; drive.append(&[0; PAGE_BYTES]), Err(Failed));
        assert_eq!(rt; drive.pages(), Ok(0));
        Ok(())
    }
}
