// A sink in memory.
ghost use Rattle.std.specs.Prelude.{◌≡◌, [], Some, false, IsOk};

use crate::Sink;
use crate::fault_count::FaultCount;
use fg_base::Failed;
use std::alloc::Global;

/// A sink in memory, for tests. It tells the bytes written, of which a put takes all or none, and fails at the puts
/// that it was told of when it was made and where its list can't grow. A put keeps nothing back, and a flush never fails.
#[derive(Drop)]
pub struct MemSink {
    written: Vec<u8>,
    fails: Vec<u32>,
    calls: u32,
    faults: FaultCount,
}

impl MemSink {
    /// A sink with nothing written. `fails` lists the calls that fail, by their numbers from 1.
    pub fn new(alloc: Global, fails: Vec<u32>) -> MemSink
        ensures written { ⟦<MemSink as Sink>⟧.written result ≡ Some [] }
        ensures faults { ⟦<MemSink as Sink>⟧.faults result ≡ 0 }
    {
        MemSink {
            written: Vec::new(alloc),
            fails,
            calls: 0,
            faults: FaultCount::default(),
        }
    }

    /// The bytes written.
    pub fn written(&self) -> &[u8]
        ensures { ⟦<MemSink as Sink>⟧.written self.now ≡ Some result.now }
    {
        &self.written
    }

    /// How often a call has failed.
    pub fn faults(&self) -> u64
        ensures { ⟦<MemSink as Sink>⟧.faults self.now ≡ result }
    {
        self.faults.get()
    }
}

impl Sink for MemSink {
    ghost written = { λ sink. Some sink.written.items };

    ghost keeps_back = { λ _. false };

    ghost faults = { λ sink. sink.faults.count };

    fn put(&mut self, bytes: &[u8]) -> Result<usize, Failed> {
        self.calls = self.calls.saturating_add(1);
        if self.fails.contains(&self.calls) {
            return Err(self.faults.fault());
        }
        if self.written.extend_from_slice(bytes).is_err() {
            return Err(self.faults.fault());
        }
        Ok(bytes.len())
    }

    fn flush(&mut self) -> Result<(), Failed>
        ensures same { self.new ≡ self.old }
        ensures sure { IsOk result }
    {
        Ok(())
    }
}

#[cfg(test)]
mod tests {
    use super::*;
    use crate::write_all;
    use std::test::Fail;

    #[test]
    fn keeps_what_was_put_and_fails_where_listed(rt: HostRuntime) -> Result<(), Fail> {
        let alloc = rt.alloc();
        let mut sink = MemSink::new(alloc, [2, 4].to_vec(alloc)?);
        let lines = [
            ("ab", Ok(()), "ab"),
            ("cd", Err(Failed), "ab"),
            ("", Ok(()), "ab"),
            ("ef", Ok(()), "abef"),
            ("gh", Err(Failed), "abef"),
        ];
        for (line, want, written) in lines {
            assert_eq!(rt; write_all(&mut sink, line.as_bytes()), want);
            assert_eq!(rt; sink.written(), written.as_bytes());
        }
        assert_eq!(rt; sink.flush(), Ok(()));
        assert_eq!(rt; sink.written(), b"abef".as_slice());
        assert_eq!(rt; sink.faults(), 2);
        Ok(())
    }
}
