//! The image of the edges 0 1, 0 2, 1 3, 2 3 and 3 4 on drives: whole, damaged, cut, and with calls that fail.

ghost use Rattle.std.specs.Prelude.{◌≡◌, ◌<◌, IfOk, length, vec_len};

use crate::sample::DIAMOND;
use crate::{Opened, open, read_all};
use fg_base::limits::{MAX_DRIVES, PAGE_BYTES};
use fg_base::{Dir, Refusal};
use fg_outside::{DriveOp, MEM_DRIVE_BYTES, MemDrive};
use fg_stripe::Label;
use fg_stripe::striping::place;
use std::alloc::{AllocError, Global};
use std::test::Fail;

/// Bytes of the image's four pages.
const IMAGE_BYTES: usize = 16_384;

/// What is done to the drives before they are opened.
#[derive(Clone, Copy)]
enum Change {
    Nothing,
    /// The 4 bytes of this drive at this place are set to this number.
    Number(usize, usize, u32),
    /// This drive keeps so many bytes.
    Cut(usize, usize),
    /// This drive gets a page more, and half of one.
    Longer(usize),
    /// The drives stand in the other order.
    Turned,
}

/// Drives in units of so many pages, and the call of one of them that fails.
#[derive(Clone, Copy)]
struct Setting {
    drives: u32,
    unit: u32,
    change: Change,
    fails: Option<(usize, DriveOp, u32)>,
}

/// One drive in units of 16 pages.
const ONE: Setting = Setting {
    drives: 1,
    unit: 16,
    change: Change::Nothing,
    fails: None,
};

/// Two drives that take pages in turn: pages 0 and 2 stand on drive 0, and pages 1 and 3 on drive 1.
const TWO: Setting = Setting {
    drives: 2,
    unit: 1,
    change: Change::Nothing,
    fails: None,
};

/// One drive, changed so.
fn one(change: Change) -> Setting {
    Setting { change, ..ONE }
}

/// Two drives, changed so.
fn two(change: Change) -> Setting {
    Setting { change, ..TWO }
}

fn put(bytes: &mut [u8], place: usize, number: u32) {
    if place < bytes.len() && bytes.len() - place >= 4 {
        bytes[place..place + 4].copy_from_slice(&number.to_le_bytes());
    }
}

fn put_all(bytes: &mut [u8]) {
    for (place, number) in DIAMOND {
        put(bytes, *place, *number);
    }
}

fn image(alloc: Global) -> Result<Vec<u8>, AllocError>
    ensures { IfOk result (λ bytes. length bytes.items ≡ IMAGE_BYTES) }
{
    let mut bytes = vec![in alloc; 0; IMAGE_BYTES]?;
    put_all(&mut bytes);
    Ok(bytes)
}

/// The bytes of the drive of this label.
fn held(alloc: Global, image: &[u8], label: &Label) -> Result<Vec<u8>, AllocError>
    requires some_drives { 0 < label.now.drives }
    requires some_unit { 0 < label.now.unit }
    requires whole { length image.now ≡ IMAGE_BYTES }
{
    let mut bytes = vec![in alloc; 0; PAGE_BYTES]?;
    label.write(&mut bytes);
    for page in 0..4 {
        if place(page, label.drives, label.unit).drive == label.drive {
            let from = page as usize * PAGE_BYTES;
            bytes.extend_from_slice(&image[from..from + PAGE_BYTES])?;
        }
    }
    Ok(bytes)
}

/// A drive's bytes, changed where the change is of this drive.
fn changed(mut bytes: Vec<u8>, drive: usize, change: Change) -> Result<Vec<u8>, AllocError> {
    match change {
        Change::Number(of, place, number) => {
            if of == drive {
                put(&mut bytes, place, number);
            }
        }
        Change::Cut(of, len) => {
            if of == drive {
                bytes.truncate(len);
            }
        }
        Change::Longer(of) => {
            if of == drive {
                bytes.extend_from_slice(&[7; 6144])?;
            }
        }
        Change::Nothing | Change::Turned => {}
    }
    Ok(bytes)
}

fn drive(alloc: Global, bytes: Vec<u8>, fails: Option<(DriveOp, u32)>) -> Result<MemDrive, Fail> {
    let mut calls = Vec::new(alloc);
    if let Some(call) = fails {
        calls.push(call)?;
    }
    if bytes.len() >= MEM_DRIVE_BYTES {
        return Err(Fail::new("a drive too large"));
    }
    Ok(MemDrive::new(alloc, bytes, calls))
}

/// The call that fails where it is one of this drive.
fn fails_of(setting: Setting, drive: usize) -> Option<(DriveOp, u32)> {
    let (of, call, number) = setting.fails?;
    (of == drive).then_some((call, number))
}

fn drives(alloc: Global, setting: Setting) -> Result<Vec<MemDrive>, Fail> {
    let Setting { drives, unit, .. } = setting;
    let image = image(alloc)?;
    let mut all = Vec::new(alloc);
    for number in 0..drives {
        let label = Label {
            drive: number,
            drives,
            unit: unit.max(1),
            pages: 4,
            number: 77,
        };
        let at = number as usize;
        let bytes = changed(held(alloc, &image, &label)?, at, setting.change)?;
        all.push(drive(alloc, bytes, fails_of(setting, at))?)?;
    }
    if matches!(setting.change, Change::Turned) {
        all.reverse();
    }
    Ok(all)
}

/// What the drives open to, and the image that was read then.
fn read(alloc: Global, drives: &mut Vec<MemDrive>) -> Result<(Opened, Vec<u8>), Refusal> {
    if drives.is_empty() || drives.len() > MAX_DRIVES as usize {
        return Err(Refusal::Memory);
    }
    let opened = match open(alloc, drives) {
        Ok(opened) => opened,
        Err(refusal) => return Err(refusal),
    };
    match read_all(alloc, drives, &opened) {
        Ok(image) => Ok((opened, image)),
        Err(refusal) => Err(refusal),
    }
}

/// The first pages of the reads of each drive, once the drives were opened and the image was read.
const ALONE: &[&[u32]] = &[&[0, 1, 4, 1, 2, 3, 4], &[0], &[0]];

const IN_TURN: &[&[u32]] = &[&[0, 1, 1, 2], &[0, 2, 1, 2]];

const OVER_THREE: &[&[u32]] = &[&[0, 1, 2, 1, 2], &[0, 1], &[0, 1]];

#[test]
fn opens_drives_and_reads_their_image(rt: HostRuntime) -> Result<(), Fail> {
    let alloc = rt.alloc();
    let whole = [
        (ONE, ALONE),
        (one(Change::Longer(0)), ALONE),
        // any image number
        (one(Change::Number(0, 24, u32::MAX)), ALONE),
        (TWO, IN_TURN),
        (Setting { unit: 2, ..TWO }, IN_TURN),
        (
            Setting {
                drives: 3,
                ..two(Change::Longer(2))
            },
            OVER_THREE,
        ),
        (
            Setting {
                drives: 3,
                unit: 256,
                ..TWO
            },
            ALONE,
        ),
    ];
    for (setting, logs) in whole {
        let mut drives = drives(alloc, setting)?;
        let (opened, read) = read(alloc, &mut drives)?;
        let Opened {
            layout,
            header,
            index,
        } = opened;
        assert_eq!(rt;
            (layout.drives, layout.unit),
            (setting.drives, setting.unit)
        );
        assert_eq!(rt;
            (layout.pages, layout.out_first, layout.in_first),
            (4, 1, 2)
        );
        assert_eq!(rt;
            (header.n, header.out_entries, header.index_bytes),
            (5, 5, 18)
        );
        assert_eq!(rt; (index.n(), index.weighted()), (5, false));
        assert!(rt; read == image(alloc)?);
        for (drive, log) in drives.iter().zip(logs.iter()) {
            let firsts = drive.log().iter().map(|read| read.first);
            assert!(rt; firsts.eq(log.iter().copied()));
            assert!(rt; drive.log().iter().all(|read| read.count == 1));
            assert_eq!(rt; drive.faults(), 0);
        }
    }
    Ok(())
}

/// Changes of a label, a header and an index on one drive, each with what refuses it. The image begins at 4096, its index
/// at 16384.
const ONE_REFUSED: &[(Change, Refusal)] = &[
    // no whole page, and only the label
    (Change::Cut(0, 0), Refusal::NoLabel(0)),
    (Change::Cut(0, 4095), Refusal::NoLabel(0)),
    (Change::Cut(0, 4096), Refusal::ShortDrive(0, 1, 5)),
    (Change::Cut(0, 16_384), Refusal::ShortDrive(0, 4, 5)),
    (Change::Cut(0, 20_479), Refusal::ShortDrive(0, 4, 5)),
    // the label: its mark, drive, drives, unit, pages, zeros
    (Change::Number(0, 0, 0x5244_4747), Refusal::NoLabel(0)),
    (Change::Number(0, 4, 0x0145_5649), Refusal::NoLabel(0)),
    (Change::Number(0, 8, 1), Refusal::NoLabel(0)),
    (Change::Number(0, 12, 0), Refusal::NoLabel(0)),
    (Change::Number(0, 12, 2), Refusal::LabelDiffers(0)),
    (Change::Number(0, 12, 16), Refusal::LabelDiffers(0)),
    (Change::Number(0, 12, 17), Refusal::NoLabel(0)),
    (Change::Number(0, 16, 0), Refusal::NoLabel(0)),
    (Change::Number(0, 16, 257), Refusal::NoLabel(0)),
    (Change::Number(0, 20, 1), Refusal::NoLabel(0)),
    (Change::Number(0, 20, 3), Refusal::BadSections),
    (Change::Number(0, 20, 5), Refusal::ShortDrive(0, 5, 6)),
    (
        Change::Number(0, 20, 524_288),
        Refusal::ShortDrive(0, 5, 524_289),
    ),
    (Change::Number(0, 20, 524_289), Refusal::NoLabel(0)),
    (Change::Number(0, 32, 1), Refusal::NoLabel(0)),
    (Change::Number(0, 4092, 0x0100_0000), Refusal::NoLabel(0)),
    // the header
    (Change::Number(0, 4096, 0x4d49_4747), Refusal::BadHeader),
    (Change::Number(0, 4104, 2), Refusal::BadVersion(2)),
    (Change::Number(0, 4108, 1), Refusal::BadSections),
    (Change::Number(0, 4108, 2), Refusal::BadHeader),
    (Change::Number(0, 4116, 5), Refusal::BadSections),
    (Change::Number(0, 8188, 1), Refusal::BadHeader),
    // the index: the degrees of 4 vertices at first, and what follows behind the fifth
    (
        Change::Number(0, 16_384, 0x0101_0101),
        Refusal::BadIndex(Dir::Out, 0),
    ),
    (
        Change::Number(0, 16_388, 0x0000_0100),
        Refusal::BadIndex(Dir::Out, 5),
    ),
    (
        Change::Number(0, 16_396, 0x0000_0101),
        Refusal::BadIndex(Dir::In, 9),
    ),
    (
        Change::Number(0, 16_400, 0x0000_0001),
        Refusal::BadIndex(Dir::In, 14),
    ),
];

/// Changes of two drives.
const TWO_REFUSED: &[(Change, Refusal)] = &[
    (Change::Turned, Refusal::WrongDrive(0, 1)),
    (Change::Cut(1, 4095), Refusal::NoLabel(1)),
    (Change::Cut(1, 8192), Refusal::ShortDrive(1, 2, 3)),
    (Change::Cut(0, 8192), Refusal::ShortDrive(0, 2, 3)),
    (Change::Number(1, 0, 0), Refusal::NoLabel(1)),
    (Change::Number(0, 8, 1), Refusal::WrongDrive(0, 1)),
    (Change::Number(1, 8, 0), Refusal::WrongDrive(1, 0)),
    (Change::Number(1, 12, 3), Refusal::LabelDiffers(1)),
    (Change::Number(1, 16, 2), Refusal::LabelDiffers(1)),
    (Change::Number(1, 20, 5), Refusal::LabelDiffers(1)),
    (Change::Number(1, 24, 78), Refusal::LabelDiffers(1)),
    (Change::Number(1, 28, 1), Refusal::LabelDiffers(1)),
    (Change::Number(0, 24, 78), Refusal::LabelDiffers(1)),
    // drive 0 is judged whole before drive 1
    (Change::Number(0, 20, 7), Refusal::ShortDrive(0, 3, 5)),
    // the header stands on drive 0, the index on drive 1
    (Change::Number(0, 4096, 0), Refusal::BadHeader),
    (Change::Number(1, 8192, 0), Refusal::BadIndex(Dir::Out, 0)),
];

#[test]
fn refuses_the_first_fault(rt: HostRuntime) -> Result<(), Fail> {
    let alloc = rt.alloc();
    let tables = [(ONE, ONE_REFUSED), (TWO, TWO_REFUSED)];
    for (setting, rows) in tables {
        for (change, refusal) in rows {
            let mut drives = drives(
                alloc,
                Setting {
                    change: *change,
                    ..setting
                },
            )?;
            assert_eq!(rt; read(alloc, &mut drives).err(), Some(*refusal));
            assert_eq!(rt; refusal.status(), 7);
            assert!(rt; drives.iter().all(|drive| drive.faults() == 0));
        }
    }
    Ok(())
}

/// The calls of two drives that fail, and how many reads each drive has logged by then.
const FAILING: &[(usize, DriveOp, u32, (usize, usize))] = &[
    (0, DriveOp::Pages, 1, (0, 0)),
    (0, DriveOp::Read, 1, (1, 0)),
    (1, DriveOp::Pages, 1, (1, 0)),
    (1, DriveOp::Read, 1, (1, 1)),
    // the header and the index
    (0, DriveOp::Read, 2, (2, 1)),
    (1, DriveOp::Read, 2, (2, 2)),
    // the image's pages
    (0, DriveOp::Read, 3, (3, 2)),
    (1, DriveOp::Read, 3, (3, 3)),
    (0, DriveOp::Read, 4, (4, 3)),
    (1, DriveOp::Read, 4, (4, 4)),
];

#[test]
fn names_the_drive_that_fails(rt: HostRuntime) -> Result<(), Fail> {
    let alloc = rt.alloc();
    for (drive, call, number, logged) in FAILING {
        let fails = Some((*drive, *call, *number));
        let mut drives = drives(alloc, Setting { fails, ..TWO })?;
        let refusal = Refusal::DriveFault(*drive as u32);
        assert_eq!(rt; read(alloc, &mut drives).err(), Some(refusal));
        let [first, second] = drives.as_slice() else {
            return Err(Fail::new("not two drives"));
        };
        assert_eq!(rt; (first.log().len(), second.log().len()), *logged);
        let faults = if *drive == 0 { (1, 0) } else { (0, 1) };
        assert_eq!(rt; (first.faults(), second.faults()), faults);
    }
    Ok(())
}
