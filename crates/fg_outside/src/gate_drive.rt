// A drive in memory with a read that waits for another drive.
ghost use Rattle.std.specs.Prelude.{◌≡◌, ◌+◌, ◌-◌, ◌^◌, min};

use crate::fault_count::FaultCount;
use crate::{Board, Drive, MemDrive, Read};
use fg_base::Failed;
use std::alloc::Global;
use std::sync::Arc;

/// A gate that hasn't opened after so many looks at the board, 2^28, fails.
const LOOKS: u32 = 268_435_456;

/// A drive in memory, for tests of who waits for whom. It tells its reads to a board as they begin, and at one of them
/// waits for another drive's. It tells and fails as the drive in it, and also at that read where the other drive keeps
/// it waiting too long. Such a read isn't in the log.
#[derive(Drop)]
pub struct GateDrive {
    inner: MemDrive,
    own: u32,
    board: Arc<Board, Global>,
    nth: u32,
    other: u32,
    reads: u32,
    looks: u32,
    read_calls: u32,
    late: FaultCount,
}

impl GateDrive {
    /// The drive `inner`, whose number on the board is `own`. Its `nth` read, from 1, waits until drive `other` has
    /// begun `reads` reads, and fails if it hasn't after 2^28 looks.
    pub fn new(
        inner: MemDrive,
        own: u32,
        board: Arc<Board, Global>,
        nth: u32,
        other: u32,
        reads: u32,
    ) -> GateDrive
        ensures held { ⟦<GateDrive as Drive>⟧.held result ≡ ⟦<MemDrive as Drive>⟧.held inner }
        ensures log { ⟦<GateDrive as Drive>⟧.log result ≡ ⟦<MemDrive as Drive>⟧.log inner }
        ensures told { ⟦<GateDrive as Drive>⟧.told result ≡ ⟦<MemDrive as Drive>⟧.told inner }
        ensures room { ⟦<GateDrive as Drive>⟧.room result ≡ ⟦<MemDrive as Drive>⟧.room inner }
        ensures faults { ⟦<GateDrive as Drive>⟧.faults result ≡ ⟦<MemDrive as Drive>⟧.faults inner }
    {
        GateDrive {
            inner,
            own,
            board,
            nth,
            other,
            reads,
            looks: LOOKS,
            read_calls: 0,
            late: FaultCount::default(),
        }
    }

    /// The bytes held.
    pub fn bytes(&self) -> &[u8]
        ensures { ⟦<GateDrive as Drive>⟧.held self.now ≡ Some result.now }
    {
        self.inner.bytes()
    }

    /// The reads so far.
    pub fn log(&self) -> &[Read]
        ensures { ⟦<GateDrive as Drive>⟧.log self.now ≡ Some result.now }
    {
        self.inner.log()
    }

    /// How often a call has failed.
    pub fn faults(&self) -> u64
        ensures { ⟦<GateDrive as Drive>⟧.faults self.now ≡ result }
    {
        self.inner.faults().saturating_add(self.late.get())
    }

    // Whether the other drive has begun its reads within the looks.
    fn opens(&self) -> bool {
        (0..self.looks).any(|_| self.board.begun(self.other) >= self.reads)
    }
}

impl Drive for GateDrive {
    ghost held = { λ gate. ⟦<MemDrive as Drive>⟧.held gate.inner };

    ghost log = { λ gate. ⟦<MemDrive as Drive>⟧.log gate.inner };

    ghost told = { λ gate. ⟦<MemDrive as Drive>⟧.told gate.inner };

    ghost room = { λ gate. ⟦<MemDrive as Drive>⟧.room gate.inner };

    ghost faults = { λ gate. min (⟦<MemDrive as Drive>⟧.faults gate.inner + gate.late.count) (2 ^ 64 - 1) };

    fn pages(&mut self) -> Result<u32, Failed> {
        self.inner.pages()
    }

    fn read_run(&mut self, first: u32, count: u32, into: &mut [u8]) -> Result<(), Failed> {
        self.board.begin(self.own);
        self.read_calls = self.read_calls.saturating_add(1);
        if self.read_calls == self.nth && !self.opens() {
            return Err(self.late.fault());
        }
        self.inner.read_run(first, count, into)
    }

    fn append(&mut self, pages: &[u8]) -> Result<(), Failed> {
        self.inner.append(pages)
    }

    ghost told_fits = { λ gate. gate.inner.told_fits };

    ghost told_held = { λ gate. gate.inner.told_held };

    ghost held_bytes = { λ gate. gate.inner.are_bytes };
}

#[cfg(test)]
mod tests {
    use super::*;
    use crate::DriveOp;
    use fg_base::Memory;
    use fg_base::limits::PAGE_BYTES;
    use std::test::Fail;
    use std::thread::{Threads, join};

    const FEW_LOOKS: u32 = 1000;

    fn moves_to_a_thread<T: Send + Drop>(_drive: T) {}

    fn board_of_two(alloc: Global) -> Result<Arc<Board, Global>, Memory> {
        Ok(Arc::new(alloc, Board::new(alloc, 2)?)?)
    }

    // Drive `own` with one page, whose `nth` read waits for a first read of the other.
    fn gate(
        alloc: Global,
        board: &Arc<Board, Global>,
        own: u32,
        other: u32,
        nth: u32,
        fails: Vec<(DriveOp, u32)>,
    ) -> Result<GateDrive, Memory> {
        let bytes = [7; PAGE_BYTES].to_vec(alloc)?;
        let inner = MemDrive::new(alloc, bytes, fails);
        Ok(GateDrive::new(inner, own, Arc::try_clone(board)?, nth, other, 1))
    }

    fn read_first(gate: &mut GateDrive) -> Result<(), Failed> {
        if gate.pages()? == 0 {
            return Err(Failed);
        }
        gate.read_run(0, 1, &mut [0; PAGE_BYTES])
    }

    #[test]
    fn passes_on_its_drive(rt: HostRuntime) -> Result<(), Fail> {
        let alloc = rt.alloc();
        let board = board_of_two(alloc)?;
        let fails = vec![in alloc; (DriveOp::Read, 2)]?;
        let mut gate = gate(alloc, &board, 0, 1, 0, fails)?;
        gate.append(&[8; PAGE_BYTES])?;
        assert_eq!(rt; gate.pages(), Ok(2));
        assert_eq!(rt; gate.bytes().len(), 2 * PAGE_BYTES);
        for (want, reads) in [(Ok(()), 1), (Err(Failed), 2), (Ok(()), 3)] {
            assert_eq!(rt; read_first(&mut gate), want);
            assert_eq!(rt; gate.log().len(), reads);
        }
        assert_eq!(rt; (board.begun(0), board.begun(1)), (3, 0));
        assert_eq!(rt; gate.faults(), 1);
        moves_to_a_thread(gate);
        Ok(())
    }

    #[test]
    fn fails_where_the_other_never_begins(rt: HostRuntime) -> Result<(), Fail> {
        let alloc = rt.alloc();
        let board = board_of_two(alloc)?;
        let mut gate = gate(alloc, &board, 0, 1, 2, Vec::new(alloc))?;
        gate.looks = FEW_LOOKS;
        for (want, reads) in [(Ok(()), 1), (Err(Failed), 1), (Ok(()), 2)] {
            assert_eq!(rt; read_first(&mut gate), want);
            assert_eq!(rt; gate.log().len(), reads);
        }
        assert_eq!(rt; board.begun(0), 3);
        assert_eq!(rt; gate.faults(), 1);
        Ok(())
    }

    // The answers of two drives, each of which waits at its first read for the other's.
    fn answers_of_two<R: Threads>(rt: &R, alloc: Global) -> Result<(bool, bool), Memory> {
        let board = board_of_two(alloc)?;
        let mut first = gate(alloc, &board, 0, 1, 1, Vec::new(alloc))?;
        let mut second = gate(alloc, &board, 1, 0, 1, Vec::new(alloc))?;
        Ok(join(
            rt,
            || read_first(&mut first).is_ok(),
            || read_first(&mut second).is_ok(),
        ))
    }

    #[test]
    fn two_threads_wait_for_each_other(rt: HostRuntime) -> Result<(), Fail> {
        assert_eq!(rt; answers_of_two(&rt, rt.alloc())?, (true, true));
        Ok(())
    }
}
