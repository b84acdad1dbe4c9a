// A drive in memory.
ghost use Rattle.std.specs.Prelude.{◌≡◌, ◌<◌, ◌≤◌, ◌^◌, [], Some, None, All, length, vec_len};
ghost use Rattle.fg_outside.specs.Pages.{page_count};
ghost use Rattle.fg_outside.specs.declared.mem_drive.TheConstants.{MEM_DRIVE_BYTES};

use crate::fault_count::FaultCount;
use crate::{Drive, Read};
use fg_base::Failed;
use fg_base::limits::PAGE_BYTES;
use std::alloc::Global;

/// A drive in memory holds fewer bytes than this, 2^44, so that the number of its pages fits.
pub const MEM_DRIVE_BYTES: usize = 17_592_186_044_416;

/// The calls of a drive.
#[derive(Clone, Copy, PartialEq, Eq, Debug)]
pub enum DriveOp {
    Pages,
    Read,
    Append,
}

/// A drive in memory, for tests. It tells its bytes and its log. It fails at the calls that it was told of when it was
/// made, where its own lists can't grow, and at an append that would leave `MEM_DRIVE_BYTES` or more.
#[derive(Drop)]
pub struct MemDrive {
    bytes: Vec<u8>,
    log: Vec<Read>,
    told: u32,
    fails: Vec<(DriveOp, u32)>,
    pages_calls: u32,
    read_calls: u32,
    append_calls: u32,
    faults: FaultCount,
    ghost few: { length bytes.items < MEM_DRIVE_BYTES },
    ghost told_fits: { told < 2 ^ 32 },
    ghost told_held: { told ≤ page_count bytes.items },
    ghost are_bytes: { All (λ byte. byte < 256) bytes.items },
}

impl MemDrive {
    /// A drive with these bytes. `fails` lists the calls that fail, each with its number among the calls of its kind,
    /// from 1. A listed read is in the log.
    pub fn new(alloc: Global, bytes: Vec<u8>, fails: Vec<(DriveOp, u32)>) -> MemDrive
        requires { vec_len bytes < MEM_DRIVE_BYTES }

        ensures held { ⟦<MemDrive as Drive>⟧.held result ≡ Some bytes.items }
        ensures log { ⟦<MemDrive as Drive>⟧.log result ≡ Some [] }
        ensures told { ⟦<MemDrive as Drive>⟧.told result ≡ 0 }
        ensures faults { ⟦<MemDrive as Drive>⟧.faults result ≡ 0 }
    {
        MemDrive {
            bytes,
            log: Vec::new(alloc),
            told: 0,
            fails,
            pages_calls: 0,
            read_calls: 0,
            append_calls: 0,
            faults: FaultCount::default(),
        }
    }

    /// The bytes held.
    pub fn bytes(&self) -> &[u8]
        ensures { ⟦<MemDrive as Drive>⟧.held self.now ≡ Some result.now }
    {
        &self.bytes
    }

    /// The reads so far.
    pub fn log(&self) -> &[Read]
        ensures { ⟦<MemDrive as Drive>⟧.log self.now ≡ Some result.now }
    {
        &self.log
    }

    /// How often a call has failed.
    pub fn faults(&self) -> u64
        ensures { ⟦<MemDrive as Drive>⟧.faults self.now ≡ result }
    {
        self.faults.get()
    }
}

impl Drive for MemDrive {
    ghost held = { λ drive. Some drive.bytes.items };

    ghost log = { λ drive. Some drive.log.items };

    ghost told = { λ drive. drive.told };

    ghost room = { λ _. None };

    ghost faults = { λ drive. drive.faults.count };

    fn pages(&mut self) -> Result<u32, Failed> {
        self.pages_calls = self.pages_calls.saturating_add(1);
        if self.fails.contains(&(DriveOp::Pages, self.pages_calls)) {
            return Err(self.faults.fault());
        }
        self.told = (self.bytes.len() / PAGE_BYTES) as u32;
        Ok(self.told)
    }

    fn read_run(&mut self, first: u32, count: u32, into: &mut [u8]) -> Result<(), Failed> {
        self.read_calls = self.read_calls.saturating_add(1);
        if self.log.push(Read { first, count }).is_err() {
            return Err(self.faults.fault());
        }
        if self.fails.contains(&(DriveOp::Read, self.read_calls)) {
            return Err(self.faults.fault());
        }
        let from = first as usize * PAGE_BYTES;
        into.copy_from_slice(&self.bytes[from..from + into.len()]);
        Ok(())
    }

    fn append(&mut self, pages: &[u8]) -> Result<(), Failed> {
        self.append_calls = self.append_calls.saturating_add(1);
        if self.fails.contains(&(DriveOp::Append, self.append_calls)) {
            return Err(self.faults.fault());
        }
        if pages.len() >= MEM_DRIVE_BYTES - self.bytes.len() {
            return Err(self.faults.fault());
        }
        if self.bytes.extend_from_slice(pages).is_err() {
            return Err(self.faults.fault());
        }
        Ok(())
    }

    ghost told_fits = { λ drive. drive.told_fits };

    ghost told_held = { λ drive. drive.told_held };

    ghost held_bytes = { λ drive. drive.are_bytes };
}

#[cfg(test)]
mod tests {
    use super::*;
    use std::test::Fail;

    const TWO_PAGES: usize = 8192;

    fn moves_to_a_thread<T: Send + Drop>(_drive: T) {}

    #[test]
    fn appends_counts_and_reads_pages(rt: HostRuntime) -> Result<(), Fail> {
        let alloc = rt.alloc();
        let mut drive = MemDrive::new(alloc, Vec::new(alloc), Vec::new(alloc));
        assert_eq!(rt; drive.pages()?, 0);
        for byte in [5, 6, 7] {
            drive.append(&[byte; PAGE_BYTES])?;
        }
        let pages = drive.pages()?;
        assert!(rt; pages == 3);
        let mut into = [0; TWO_PAGES];
        drive.read_run(1, 2, &mut into)?;
        assert_eq!(rt; (into[0], into[4095], into[4096], into[8191]), (6, 6, 7, 7));
        assert_eq!(rt; drive.log(), [Read { first: 1, count: 2 }].as_slice());
        assert_eq!(rt; drive.bytes().len(), 3 * PAGE_BYTES);
        assert_eq!(rt; drive.faults(), 0);
        moves_to_a_thread(drive);
        Ok(())
    }

    #[test]
    fn fails_where_listed(rt: HostRuntime) -> Result<(), Fail> {
        let alloc = rt.alloc();
        let fails = [
            (DriveOp::Pages, 1),
            (DriveOp::Read, 2),
            (DriveOp::Append, 2),
        ];
        let mut page = [9; PAGE_BYTES];
        let bytes = page.to_vec(alloc)?;
        let mut drive = MemDrive::new(alloc, bytes, fails.to_vec(alloc)?);
        assert_eq!(rt; drive.pages(), Err(Failed));
        let pages = drive.pages()?;
        assert!(rt; pages == 1);
        assert_eq!(rt; drive.read_run(0, 1, &mut page), Ok(()));
        assert_eq!(rt; drive.read_run(0, 1, &mut page), Err(Failed));
        assert_eq!(rt; drive.read_run(0, 1, &mut page), Ok(()));
        assert_eq!(rt; drive.log().len(), 3);
        for (want, held) in [(Ok(()), 2), (Err(Failed), 2), (Ok(()), 3)] {
            assert_eq!(rt; drive.append(&page), want);
            assert_eq!(rt; drive.bytes().len(), held * PAGE_BYTES);
        }
        assert_eq!(rt; drive.faults(), 3);
        Ok(())
    }
}
