//! The images that tests do jobs on: sound or damaged, on drives in memory that may be short or fail.

ghost use Rattle.std.specs.Prelude.{◌≤◌};

use crate::test_calls::{DriveFails, Fails, Left, NO_DRIVE_FAILS, call, drive as fake_drive, ends};
use byteorder::{ByteOrder, LittleEndian};
use fg_base::limits::{MAX_DRIVES, PAGE_BYTES};
use fg_build::sample::{DIAMOND, Numbers};
use fg_outside::{Drive, MemDrive};
use fg_stripe::Label;
use std::alloc::{AllocError, Global};
use std::process::Abort;
use std::sync::Wait;
use std::test::Fail;
use std::thread::Threads;

/// The pages of each image.
const PAGES: usize = 4;

/// The unit of an image on one drive, as a build takes it where none is named. On several it is a page.
const UNIT: u32 = 16;

/// What is done with the drives and the sink before the job.
#[derive(Clone, Copy)]
pub(crate) struct Setting {
    pub(crate) numbers: Numbers,
    /// Numbers that are set otherwise, each with its place in the image.
    pub(crate) changes: Numbers,
    /// The image's pages, as the labels say.
    pub(crate) labelled: u32,
    /// Each drive holds the first so many of its pages, of which the label is one.
    pub(crate) pages: usize,
    pub(crate) drives: usize,
    pub(crate) drive_fails: DriveFails,
    /// The put that fails, from 1; 0 is none.
    pub(crate) put_fails: u32,
}

/// The diamond on one drive, as it should be.
pub(crate) const SOUND: Setting = Setting {
    numbers: DIAMOND,
    changes: &[],
    labelled: PAGES as u32,
    pages: PAGES + 1,
    drives: 1,
    drive_fails: NO_DRIVE_FAILS,
    put_fails: 0,
};

fn put(bytes: &mut [u8], place: usize, number: u32) {
    if place <= bytes.len() && 4 <= bytes.len() - place {
        LittleEndian::write_u32(&mut bytes[place..], number);
    }
}

fn put_all(bytes: &mut [u8], numbers: Numbers) {
    for (place, number) in numbers {
        put(bytes, *place, *number);
    }
}

fn image(alloc: Global, setting: Setting) -> Result<Vec<u8>, AllocError> {
    let mut bytes = vec![in alloc; 0; PAGES * PAGE_BYTES]?;
    put_all(&mut bytes, setting.numbers);
    put_all(&mut bytes, setting.changes);
    Ok(bytes)
}

/// The label of the drive of this number among so many.
fn label(setting: Setting, number: usize, drives: usize) -> [u8; PAGE_BYTES] {
    let mut page = [0; PAGE_BYTES];
    let label = Label {
        drive: number.min(MAX_DRIVES as usize) as u32,
        drives: drives.min(MAX_DRIVES as usize) as u32,
        unit: if drives == 1 { UNIT } else { 1 },
        pages: setting.labelled,
        number: 0,
    };
    label.write(&mut page);
    page
}

/// The drive of this number among so many.
fn drive(
    alloc: Global,
    setting: Setting,
    image: &[u8],
    number: usize,
    drives: usize,
) -> Result<MemDrive, Fail>
    requires { 1 ≤ drives }
{
    let mut drive = fake_drive(alloc, number, 0, setting.drive_fails)?;
    if setting.pages > 0 {
        drive.append(&label(setting, number, drives))?;
    }
    for (k, page) in image.chunks_exact(PAGE_BYTES).enumerate() {
        if k % drives == number && k / drives < setting.pages.saturating_sub(1) {
            drive.append(page)?;
        }
    }
    Ok(drive)
}

pub(crate) fn drives(alloc: Global, setting: Setting) -> Result<Vec<MemDrive>, Fail> {
    let image = image(alloc, setting)?;
    let mut all = Vec::new(alloc);
    for number in 0..setting.drives {
        all.push(drive(alloc, setting, &image, number, setting.drives)?)?;
    }
    Ok(all)
}

/// Does the job of the line, which is to end with this status and this text.
pub(crate) fn run<R: Wait + Threads + Sync + Abort>(
    rt: &R,
    alloc: Global,
    line: &str,
    setting: Setting,
    status: u8,
    lines: &[&str],
) -> Result<Left<MemDrive>, Fail> {
    let drives = drives(alloc, setting)?;
    let fails = Fails {
        take: 0,
        put: setting.put_fails,
    };
    let left = call(rt, alloc, line, "", drives, fails)?;
    ends(rt, line, &left, status, lines);
    Ok(left)
}
