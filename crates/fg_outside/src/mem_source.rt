// A source in memory.
ghost use Rattle.std.specs.Prelude.{◌≡◌, ◌≤◌, Some, length, min, take};

use crate::Source;
use crate::fault_count::FaultCount;
use fg_base::Failed;
use std::alloc::Global;

/// A source in memory, for tests. It tells the bytes that are left, and fails at the calls that it was told of when it
/// was made.
#[derive(Drop)]
pub struct MemSource {
    bytes: Vec<u8>,
    taken: usize,
    piece: usize,
    fails: Vec<u32>,
    calls: u32,
    faults: FaultCount,
    ghost taken_within: { taken ≤ length bytes.items },
    ghost some: { 1 ≤ piece },
}

impl MemSource {
    /// A source of these bytes, which gives at most `piece` of them in a call. `fails` lists the calls that fail, by
    /// their numbers from 1. It takes no memory itself: its vectors come with their allocator.
    pub fn new(_alloc: Global, bytes: Vec<u8>, piece: usize, fails: Vec<u32>) -> MemSource
        requires { 1 ≤ piece }

        ensures left { ⟦<MemSource as Source>⟧.left result ≡ Some bytes.items }
        ensures faults { ⟦<MemSource as Source>⟧.faults result ≡ 0 }
    {
        MemSource {
            bytes,
            taken: 0,
            piece,
            fails,
            calls: 0,
            faults: FaultCount::default(),
        }
    }

    /// The bytes that are left.
    pub fn left(&self) -> &[u8]
        ensures { ⟦<MemSource as Source>⟧.left self.now ≡ Some result.now }
    {
        &self.bytes[self.taken..]
    }

    /// How often a call has failed.
    pub fn faults(&self) -> u64
        ensures { ⟦<MemSource as Source>⟧.faults self.now ≡ result }
    {
        self.faults.get()
    }
}

impl Source for MemSource {
    ghost use Rattle.std.specs.Prelude.{drop};

    ghost left = { λ source. Some (drop source.taken source.bytes.items) };

    ghost faults = { λ source. source.faults.count };

    fn take(&mut self, into: &mut [u8]) -> Result<usize, Failed> {
        self.calls = self.calls.saturating_add(1);
        if self.fails.contains(&self.calls) {
            return Err(self.faults.fault());
        }
        let count = copy_front(&self.bytes[self.taken..], into, self.piece);
        self.taken += count;
        Ok(count)
    }
}

// Copies the front of `from` into the front of `into`: as much as fits, and at most so many bytes.
fn copy_front(from: &[u8], into: &mut [u8], most: usize) -> usize
    ensures count { result ≡ min most (min (length into.old) (length from.now)) }
    ensures front { take result into.new ≡ take result from.now }
{
    let count = most.min(into.len().min(from.len()));
    into[..count].copy_from_slice(&from[..count]);
    count
}

#[cfg(test)]
mod tests {
    use super::*;
    use std::test::Fail;

    #[test]
    fn gives_pieces_and_fails_where_listed(rt: HostRuntime) -> Result<(), Fail> {
        let alloc = rt.alloc();
        let bytes = [1, 2, 3, 4, 5, 6].to_vec(alloc)?;
        let mut source = MemSource::new(alloc, bytes, 3, [2, 5].to_vec(alloc)?);
        // Into four bytes goes a piece, into two what fits, and after the last byte comes the end.
        let steps = [
            (4, Ok(3), 3),
            (4, Err(Failed), 3),
            (2, Ok(2), 1),
            (4, Ok(1), 0),
            (4, Err(Failed), 0),
            (4, Ok(0), 0),
        ];
        for (room, want, left) in steps {
            let mut into = [0; 4];
            assert_eq!(rt; source.take(&mut into[..room]), want);
            assert_eq!(rt; source.left().len(), left);
        }
        assert_eq!(rt; source.faults(), 2);
        Ok(())
    }

    #[test]
    fn gives_the_bytes_in_order(rt: HostRuntime) -> Result<(), Fail> {
        let alloc = rt.alloc();
        let bytes = [7, 8, 9].to_vec(alloc)?;
        let mut source = MemSource::new(alloc, bytes, 2, Vec::new(alloc));
        let mut into = [0; 4];
        assert_eq!(rt; source.take(&mut into), Ok(2));
        assert_eq!(rt; into, [7, 8, 0, 0]);
        assert_eq!(rt; source.take(&mut into), Ok(1));
        assert_eq!(rt; into, [9, 8, 0, 0]);
        Ok(())
    }
}
