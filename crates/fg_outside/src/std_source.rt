// A source over standard input or a file.
ghost use Rattle.std.specs.Prelude.{◌≡◌, ◌≤◌, None, IfOk, length};

use crate::Source;
use crate::fault_count::FaultCount;
use fg_base::Failed;
use std::fs::File;
use std::io;
use std::io::{ErrorKind, Input, Read, StdinLock};
use std::rt::Files;

/// A source over standard input or a file. It tells nothing but its count of faults, which rises at each error. Each
/// take from a file that could not be opened fails.
#[derive(Drop)]
pub struct StdSource {
    input: Opened,
    faults: FaultCount,
}

#[derive(Drop)]
enum Opened {
    Stdin(StdinLock<'static>),
    File(File),
    Nothing,
}

impl StdSource {
    /// Standard input.
    pub fn stdin<R: Input<Reader = StdinLock<'static>>>(rt: &R) -> StdSource
        ensures faults { ⟦<StdSource as Source>⟧.faults result ≡ 0 }
    {
        StdSource {
            input: Opened::Stdin(rt.reader()),
            faults: FaultCount::default(),
        }
    }

    /// The file of this name, opened for reading.
    pub fn file<R: Files<File = File>>(rt: &R, name: &str) -> StdSource
        ensures faults { ⟦<StdSource as Source>⟧.faults result ≡ 0 }
    {
        StdSource {
            input: File::open(rt, name).map_or(Opened::Nothing, Opened::File),
            faults: FaultCount::default(),
        }
    }
}

impl Opened {
    fn read_once(&mut self, into: &mut [u8]) -> io::Result<usize>
        ensures { IfOk result (λ k. k ≤ length into.new) }
    {
        match self {
            Opened::Stdin(input) => input.read(into),
            Opened::File(file) => file.read(into),
            Opened::Nothing => Err(io::Error::from(ErrorKind::NotFound)),
        }
    }

    // A read that a signal interrupted is tried again.
    fn read(&mut self, into: &mut [u8]) -> io::Result<usize>
        ensures { IfOk result (λ k. k ≤ length into.new) }
    {
        for _ in 0..u64::MAX {
            match self.read_once(into) {
                Err(error) if error.kind() == ErrorKind::Interrupted => {}
                answer => return answer,
            }
        }
        Err(io::Error::from(ErrorKind::Interrupted))
    }
}

impl Source for StdSource {
    ghost left = { λ _. None };

    ghost faults = { λ source. source.faults.count };

    fn take(&mut self, into: &mut [u8]) -> Result<usize, Failed> {
        match self.input.read(into) {
            Ok(count) => Ok(count),
            Err(_) => Err(self.faults.fault()),
        }
    }
}

#[cfg(test)]
mod tests {
    use super::*;
    use std::test::Fail;
    use std::{env, fs, process};

    #[test]
    fn gives_the_bytes_of_a_file(rt: HostRuntime) -> Result<(), Fail> {
        let alloc = rt.alloc();
        let file = format!(in alloc; "fg_outside_source_{}", process::id(rt.process()))?;
        let path = env::temp_dir(&rt)?.join(alloc, file.as_str())?;
        let name = path.as_str();
        let mut into = [0; 4];

        let mut absent = StdSource::file(&rt, name);
        assert_eq!(rt; absent.take(&mut into), Err(Failed));
        assert_eq!(rt; absent.take(&mut into), Err(Failed));

        fs::write(&rt, name, "0 1\n2")?;
        let mut source = StdSource::file(&rt, name);
        assert_eq!(rt; source.take(&mut into), Ok(4));
        assert_eq!(rt; into, *b"0 1\n");
        assert_eq!(rt; source.take(&mut into), Ok(1));
        assert_eq!(rt; source.take(&mut into), Ok(0));
        fs::remove_file(&rt, name)?;

        // A directory can be opened, but not read.
        let folder = env::temp_dir(&rt)?;
        assert_eq!(rt;
            StdSource::file(&rt, folder.as_str()).take(&mut into),
            Err(Failed)
        );
        Ok(())
    }
}
