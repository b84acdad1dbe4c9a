// A drive over a file.
ghost use Rattle.std.specs.Prelude.{◌≡◌, ◌<◌, ◌^◌, None};

use crate::Drive;
use crate::fault_count::FaultCount;
use fg_base::Failed;
use fg_base::limits::PAGE_BYTES;
use std::fs::{File, OpenOptions};
use std::io;
use std::io::Write;
use std::os::unix::fs::FileExt;
use std::rt::Files;

/// A drive over a file. It tells nothing but what `pages` answered and its count of faults, which rises at each error
/// of the file. Each call on a file that could not be opened fails.
#[derive(Drop)]
pub struct FileDrive {
    file: Option<File>,
    told: u32,
    faults: FaultCount,
    ghost told_fits: { told < 2 ^ 32 },
}

impl FileDrive {
    /// Opens the file of this name. With `create` it is made where it is absent, and may be appended to. Without it the
    /// file is opened for reading alone, so an append fails.
    pub fn named<R: Files<File = File>>(rt: &R, name: &str, create: bool) -> FileDrive
        ensures told { ⟦<FileDrive as Drive>⟧.told result ≡ 0 }
        ensures faults { ⟦<FileDrive as Drive>⟧.faults result ≡ 0 }
    {
        FileDrive {
            file: opened(rt, name, create).ok(),
            told: 0,
            faults: FaultCount::default(),
        }
    }
}

// A directory can be opened, but it holds no pages.
fn opened<R: Files<File = File>>(rt: &R, name: &str, create: bool) -> io::Result<File> {
    let file = OpenOptions::new()
        .read(true)
        .append(create)
        .create(create)
        .open(rt, name)?;
    if file.metadata()?.is_dir() {
        return Err(io::Error::from(io::ErrorKind::IsADirectory));
    }
    Ok(file)
}

// The number of whole pages in a file, where it fits.
fn whole_pages(file: &File) -> io::Result<u32> {
    let pages = file.metadata()?.len() / PAGE_BYTES as u64;
    u32::try_from(pages).map_err(|_| io::Error::from(io::ErrorKind::FileTooLarge))
}

impl Drive for FileDrive {
    ghost held = { λ _. None };

    ghost log = { λ _. None };

    ghost told = { λ drive. drive.told };

    ghost room = { λ _. None };

    ghost faults = { λ drive. drive.faults.count };

    fn pages(&mut self) -> Result<u32, Failed> {
        let Some(file) = &self.file else {
            return Err(self.faults.fault());
        };
        let Ok(pages) = whole_pages(file) else {
            return Err(self.faults.fault());
        };
        self.told = pages;
        Ok(pages)
    }

    fn read_run(&mut self, first: u32, _count: u32, into: &mut [u8]) -> Result<(), Failed> {
        let Some(file) = &self.file else {
            return Err(self.faults.fault());
        };
        if file
            .read_exact_at(into, u64::from(first) * PAGE_BYTES as u64)
            .is_err()
        {
            return Err(self.faults.fault());
        }
        Ok(())
    }

    fn append(&mut self, pages: &[u8]) -> Result<(), Failed> {
        let Some(file) = &mut self.file else {
            return Err(self.faults.fault());
        };
        if file.write_all(pages).is_err() {
            return Err(self.faults.fault());
        }
        Ok(())
    }

    ghost told_fits = { λ drive. drive.told_fits };

    ghost told_held = { λ _. tt };

    ghost held_bytes = { λ _. tt };
}

#[cfg(test)]
mod tests {
    use super::*;
    use std::test::Fail;
    use std::{env, fs, process};

    fn moves_to_a_thread<T: Send + Drop>(_drive: T) {}

    #[test]
    fn holds_the_pages_of_its_file(rt: HostRuntime) -> Result<(), Fail> {
        let alloc = rt.alloc();
        let file = format!(in alloc; "fg_outside_drive_{}", process::id(rt.process()))?;
        let path = env::temp_dir(&rt)?.join(alloc, file.as_str())?;
        let name = path.as_str();

        assert_eq!(rt; FileDrive::named(&rt, name, false).pages(), Err(Failed));
        let mut made = FileDrive::named(&rt, name, true);
        assert_eq!(rt; made.pages()?, 0);
        for byte in [3, 4] {
            made.append(&[byte; PAGE_BYTES])?;
        }
        assert_eq!(rt; made.pages()?, 2);

        let mut opened = FileDrive::named(&rt, name, false);
        let mut page = [0; PAGE_BYTES];
        let pages = opened.pages()?;
        assert!(rt; pages == 2);
        opened.read_run(1, 1, &mut page)?;
        assert_eq!(rt; (page[0], page[4095]), (4, 4));
        assert_eq!(rt; opened.append(&page), Err(Failed));

        // A page that was told may be gone.
        fs::write(&rt, name, "short")?;
        assert_eq!(rt; opened.read_run(1, 1, &mut page), Err(Failed));
        fs::remove_file(&rt, name)?;
        moves_to_a_thread(opened);

        let folder = env::temp_dir(&rt)?;
        assert_eq!(rt;
            FileDrive::named(&rt, folder.as_str(), false).pages(),
            Err(Failed)
        );
        Ok(())
    }
}
