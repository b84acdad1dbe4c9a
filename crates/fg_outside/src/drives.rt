// Several drives. A drive's number is its place among them, from 0.
ghost use Rattle.std.specs.Prelude.{◌≡◌, ◌<◌, ◌≤◌, ◌+◌, [], ◌∷◌, length, slice_index_or, IfOk, OnOk, OnErr, IfSome, IsSome, IsOk};
ghost use Rattle.fg_outside.specs.Drives.{EachSame, LogsGrew, LogsGrewByFirst, NoneRose, RoomyKept, RoseFirst, ToldBy, all_told};
ghost use Rattle.fg_outside.specs.Log.{read_of};
ghost use Rattle.fg_outside.specs.Pages.{page_count, pages_of};

use crate::Drive;
use fg_base::Failed;
use fg_base::limits::PAGE_BYTES;

/// Reads one page of the drive of this number into `into`, of `PAGE_BYTES`. Where the drive fails, what `into` holds is
/// open.
pub fn read_page<D: Drive>(
    drives: &mut [D],
    drive: u32,
    page: u32,
    into: &mut [u8],
) -> Result<(), Failed>
    requires drive { drive < length drives.old }
    requires told { (other : D) → page + 1 ≤ D.told (slice_index_or drives.old drive other) }
    requires whole { length into.old ≡ PAGE_BYTES }

    ensures bytes { OnOk result (IfSome (all_told D.held drives.old) (λ helds. into.new ≡ pages_of page 1 (slice_index_or helds drive []))) }
    ensures log { OnOk result (LogsGrew D.log (record { drive = drive; read = read_of page 1 } ∷ []) drives.old drives.new) }
    ensures log_err { OnErr result (LogsGrewByFirst D.log (record { drive = drive; read = read_of page 1 } ∷ []) drives.old drives.new) }

    ensures held { EachSame D.held drives.old drives.new }
    ensures same_told { EachSame D.told drives.old drives.new }
    ensures room { EachSame D.room drives.old drives.new }

    ensures sure { (other : D) → IsSome (D.room (slice_index_or drives.old drive other)) → IsOk result }
    ensures none_rose { OnOk result (NoneRose D.faults drives.old drives.new) }
    ensures rose_first { OnErr result (RoseFirst D.faults drive drives.old drives.new) }
    ensures roomy { RoomyKept D.room D.faults drives.old drives.new }
{
    drives[drive as usize].read_run(page, 1, into)
}

/// The number of whole pages of the drive of this number.
pub fn count_pages<D: Drive>(drives: &mut [D], drive: u32) -> Result<u32, Failed>
    requires { drive < length drives.old }

    ensures count { IfOk result (λ n. IfSome (all_told D.held drives.old) (λ helds. n ≡ page_count (slice_index_or helds drive []))) }
    ensures told { IfOk result (λ n. ToldBy D.told drive n drives.old drives.new) }
    ensures told_err { OnErr result (EachSame D.told drives.old drives.new) }

    ensures held { EachSame D.held drives.old drives.new }
    ensures log { EachSame D.log drives.old drives.new }
    ensures room { EachSame D.room drives.old drives.new }

    ensures sure { (other : D) → IsSome (D.room (slice_index_or drives.old drive other)) → IsOk result }
    ensures none_rose { OnOk result (NoneRose D.faults drives.old drives.new) }
    ensures rose_first { OnErr result (RoseFirst D.faults drive drives.old drives.new) }
    ensures roomy { RoomyKept D.room D.faults drives.old drives.new }
{
    drives[drive as usize].pages()
}

#[cfg(test)]
mod tests {
    use super::*;
    use crate::{DriveOp, MemDrive, Read};
    use std::test::Fail;

    const READ: Read = Read { first: 0, count: 1 };

    #[test]
    fn reads_a_page_of_one_drive(rt: HostRuntime) -> Result<(), Fail> {
        let alloc = rt.alloc();
        for (failing, want, faults) in [(2, Ok(()), 0), (1, Err(Failed), 1)] {
            let mut page = [3; PAGE_BYTES];
            let first = MemDrive::new(alloc, page.to_vec(alloc)?, Vec::new(alloc));
            let bytes = [4; PAGE_BYTES].to_vec(alloc)?;
            let mut second = MemDrive::new(alloc, bytes, vec![in alloc; (DriveOp::Read, failing)]?);
            let pages = second.pages()?;
            assert!(rt; pages == 1);

            let mut drives = [first, second];
            assert_eq!(rt; read_page(&mut drives, 1, 0, &mut page), want);
            assert_eq!(rt; drives[0].log().len(), 0);
            assert_eq!(rt; drives[1].log(), [READ].as_slice());
            assert_eq!(rt; (drives[0].faults(), drives[1].faults()), (0, faults));
            if want.is_ok() {
                assert_eq!(rt; (page[0], page[4095]), (4, 4));
            }
        }
        Ok(())
    }

    #[test]
    fn counts_the_pages_of_one_drive(rt: HostRuntime) -> Result<(), Fail> {
        let alloc = rt.alloc();
        let bytes = [3; PAGE_BYTES].to_vec(alloc)?;
        let first = MemDrive::new(alloc, bytes, vec![in alloc; (DriveOp::Pages, 2)]?);
        let second = MemDrive::new(alloc, Vec::new(alloc), Vec::new(alloc));
        let mut drives = [first, second];
        for (drive, want) in [(0, Ok(1)), (1, Ok(0)), (0, Err(Failed)), (0, Ok(1))] {
            assert_eq!(rt; count_pages(&mut drives, drive), want);
        }
        assert_eq!(rt; (drives[0].faults(), drives[1].faults()), (1, 0));
        Ok(())
    }
}
