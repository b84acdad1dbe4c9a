// How many reads each of several drives has begun, for all threads to see.
ghost use Rattle.std.specs.Prelude.{◌≡◌, IfOk, length};

use fg_base::Memory;
use std::alloc::Global;
use std::sync::atomic::{AtomicU32, Ordering};

/// A count of begun reads per drive, 0 at first. A drive's number is its place among the counts, from 0.
#[derive(Drop)]
pub struct Board {
    counts: Vec<AtomicU32>,
}

impl Board {
    /// A board for so many drives.
    pub fn new(alloc: Global, drives: u32) -> Result<Board, Memory>
        ensures { IfOk result (λ board. length board.counts.items ≡ drives) }
    {
        let mut counts = Vec::with_capacity(alloc, drives as usize)?;
        for _ in 0..drives {
            counts.push(AtomicU32::new(0))?;
        }
        Ok(Board { counts })
    }

    /// Counts a read that the drive begins. A drive that the board doesn't have isn't counted.
    pub(crate) fn begin(&self, drive: u32) {
        if let Some(count) = self.counts.get(drive as usize) {
            count.fetch_add(1, Ordering::SeqCst);
        }
    }

    /// How many reads the drive has begun, 0 of a drive that the board doesn't have. The count starts again after 2^32.
    pub(crate) fn begun(&self, drive: u32) -> u32 {
        match self.counts.get(drive as usize) {
            Some(count) => count.load(Ordering::SeqCst),
            None => 0,
        }
    }
}

#[cfg(test)]
mod tests {
    use super::*;
    use std::test::Fail;

    #[test]
    fn counts_for_each_drive(rt: HostRuntime) -> Result<(), Fail> {
        let board = Board::new(rt.alloc(), 2)?;
        for drive in [1, 0, 1, 2] {
            board.begin(drive);
        }
        for (drive, begun) in [(0, 1), (1, 2), (2, 0)] {
            assert_eq!(rt; board.begun(drive), begun);
        }
        Ok(())
    }
}
