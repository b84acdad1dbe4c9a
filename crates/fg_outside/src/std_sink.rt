// A sink over standard output.
ghost use Rattle.std.specs.Prelude.{◌≡◌, ◌≤◌, None, IfOk, length, nat_lt};
ghost use Rattle.std.specs.Io.Buffered.{writer_buffer};
ghost use Rattle.fg_base.specs.Faults.{Rose};

use crate::Sink;
use crate::fault_count::FaultCount;
use fg_base::{Failed, Memory};
use std::alloc::Global;
use std::io;
use std::io::{BufWriter, ErrorKind, Printer, Write};

/// Bytes that are gathered before they are written.
const GATHERED_BYTES: usize = 65_536;

/// A sink over what the runtime prints to. It tells its count of faults, which rises at each error, and whether it still
/// has gathered bytes, but not what was written. What is put is gathered, and written when the room for it is full and at
/// `flush`. After an error each further call fails.
#[derive(Drop)]
pub struct StdSink<'a, P: Print> {
    out: BufWriter<Printer<'a, P>>,
    broken: bool,
    faults: FaultCount,
}

impl<'a, P: Print> StdSink<'a, P> {
    /// Standard output.
    pub fn stdout(rt: &'a P, alloc: Global) -> Result<StdSink<'a, P>, Memory>
        ensures faults { IfOk result (λ sink. ⟦<StdSink<'a, P> as Sink>⟧.faults sink ≡ 0) }
    {
        let Ok(out) = BufWriter::with_capacity(alloc, GATHERED_BYTES, io::writer(rt)) else {
            return Err(Memory);
        };
        Ok(StdSink {
            out,
            broken: false,
            faults: FaultCount::default(),
        })
    }

    // Counts an error, after which each call fails.
    fn fault(&mut self) -> Failed
        ensures later { self.old.faults.count ≤ self.new.faults.count }
        ensures rose { Rose self.old.faults.count self.new.faults.count }
    {
        self.broken = true;
        self.faults.fault()
    }
}

impl<P: Print> Sink for StdSink<'_, P> {
    ghost written = { λ _. None };

    ghost keeps_back = { λ sink. nat_lt 0 (length (writer_buffer sink.out)) };

    ghost faults = { λ sink. sink.faults.count };

    fn put(&mut self, bytes: &[u8]) -> Result<usize, Failed> {
        if self.broken {
            return Err(self.fault());
        }
        match gather(&mut self.out, bytes) {
            Ok(count) if count > 0 => Ok(count),
            _ => Err(self.fault()),
        }
    }

    fn flush(&mut self) -> Result<(), Failed> {
        if self.broken || self.out.flush().is_err() {
            return Err(self.fault());
        }
        Ok(())
    }
}

// Puts the first of the bytes with those that were gathered. A write that a signal interrupted is tried again.
fn gather<W: Write>(out: &mut W, bytes: &[u8]) -> io::Result<usize>
    ensures { IfOk result (λ k. k ≤ length bytes.now) }
{
    for _ in 0..u64::MAX {
        match out.write(bytes) {
            Err(error) if error.kind() == ErrorKind::Interrupted => {}
            answer => return answer,
        }
    }
    Err(io::Error::from(ErrorKind::Interrupted))
}

#[cfg(test)]
mod tests {
    use super::*;
    use crate::write_all;
    use std::fmt::Display;
    use std::test::Fail;

    // Prints nothing: it takes so many bytes of each write, and answers an error where it takes none and `broken` is set.
    #[derive(Clone, Copy)]
    struct Taking {
        most: usize,
        broken: bool,
    }

    impl Print for Taking {
        fn print<D: Display + Drop>(&self, _value: D) -> io::Result<()> {
            Ok(())
        }

        fn println<D: Display + Drop>(&self, _value: D) -> io::Result<()> {
            Ok(())
        }

        fn write_all(&self, _bytes: &[u8]) -> io::Result<()> {
            Ok(())
        }

        fn write_some(&self, bytes: &[u8]) -> io::Result<usize> {
            if self.broken {
                return Err(io::Error::from(ErrorKind::BrokenPipe));
            }
            Ok(self.most.min(bytes.len()))
        }
    }

    #[test]
    fn prints_what_was_gathered(rt: HostRuntime) -> Result<(), Fail> {
        let mut sink = StdSink::stdout(&rt, rt.alloc())?;
        assert_eq!(rt; write_all(&mut sink, b"put\n"), Ok(()));
        assert_eq!(rt; sink.flush(), Ok(()));
        Ok(())
    }

    #[test]
    fn fails_from_an_error_on(rt: HostRuntime) -> Result<(), Fail> {
        for (most, broken, want) in [
            (2, false, Ok(())),
            (9, false, Ok(())),
            (0, false, Err(Failed)),
            (9, true, Err(Failed)),
        ] {
            let to = Taking { most, broken };
            let mut sink = StdSink::stdout(&to, rt.alloc())?;
            assert_eq!(rt; sink.put(b"put"), Ok(3));
            assert_eq!(rt; sink.flush(), want, "at most {most}");
            assert_eq!(rt; write_all(&mut sink, b"put"), want, "at most {most}");
        }
        Ok(())
    }

    #[test]
    fn writes_where_the_room_is_full(rt: HostRuntime) -> Result<(), Fail> {
        let to = Taking {
            most: 9,
            broken: true,
        };
        let mut sink = StdSink::stdout(&to, rt.alloc())?;
        for _ in 0..15 {
            assert_eq!(rt; write_all(&mut sink, &[b'x'; 4096]), Ok(()));
        }
        assert_eq!(rt; write_all(&mut sink, &[b'x'; 4097]), Err(Failed));
        assert_eq!(rt; write_all(&mut sink, b"x"), Err(Failed));
        Ok(())
    }
}
