//! Images of version 2 as bytes, both ways, and each refusal.

ghost use Rattle.dist_image.specs.Image.{IsImage};

use crate::dist_image_cases::{
    MAGIC, about, about_lengths, are_written_again, has_slots, is_written_again, refusal,
};
use dist_image::{Assumption, Image, ImageErr, Slot, Table, prints_at, read_image};
use std::alloc::{AllocError, Global};
use std::test::Fail;
use test_programs::images::image;
use test_programs::programs::bytes_of;

/// A task that begins at 00010000, and may print at 00010014.
static ONE_WRITE: [u32; 22] = [
    MAGIC, 2, 16, 2, 1, 1, 0, 1, //
    2, 0, 0, 0, 0x1_0014, 0x73, //
    0x1_0000, 0, 1, //
    0x1_0000, 0, 0, 0, //
    0x1_0014,
];

/// Two anchors, and a store that the distilled program passes over, before a task prints at 00010018.
static PASSED_STORE: [u32; 39] = [
    MAGIC,
    2,
    16,
    4,
    2,
    3,
    0,
    1, //
    2,
    0,
    0,
    0,
    0x1_0000,
    0x0002_05B7,
    1,
    0x1_000C,
    0,
    2,
    1,
    0, //
    0x1_0000,
    0,
    1,
    0x1_000C,
    3,
    1, //
    0x1_0000,
    0,
    0,
    0,
    0x1_0004,
    2,
    0,
    0,
    0x1_000C,
    3,
    0,
    0, //
    0x1_0018,
];

/// The distilled image of a program that prints once and exits.
static PRINTS_ONCE: [u32; 90] = [
    MAGIC,
    2,
    4_096,
    9,
    2,
    9,
    3,
    1, //
    2,
    0,
    0, //
    0,
    0x1_0000,
    0x0010_0513, //
    0,
    0x1_0004,
    0x0000_0597, //
    0,
    0x1_0008,
    0x0205_8593, //
    0,
    0x1_000C,
    0x0030_0613, //
    0,
    0x1_0010,
    0x0400_0893, //
    0,
    0x1_0014,
    0x0000_0073, //
    2,
    1,
    0, //
    0,
    0x1_0020,
    0x0000_0073, //
    0x1_0000,
    0,
    50, //
    0x1_0018,
    7,
    50, //
    0x1_0000,
    0,
    0,
    0, //
    0x1_0004,
    2,
    0x400,
    0x400, //
    0x1_0008,
    3,
    0xC00,
    0xC00, //
    0x1_000C,
    4,
    0xC00,
    0xC00, //
    0x1_0010,
    5,
    0x1C00,
    0x1C00, //
    0x1_0014,
    6,
    0x2_1C00,
    0x2_1C00, //
    0x1_0018,
    7,
    0,
    0, //
    0x1_001C,
    8,
    0,
    0, //
    0x1_0020,
    8,
    0,
    0, //
    3,
    0,
    0,
    0, //
    4,
    0,
    0,
    0, //
    5,
    0,
    0,
    0, //
    0x1_0014,
];

/// Whether a task may print at an address of that image.
fn prints(alloc: Global, pc: u32) -> Result<bool, ImageErr> {
    let image = image(alloc, &ONE_WRITE)?;
    Ok(prints_at(&image, pc))
}

#[test]
fn reads_and_writes_one_write(rt: HostRuntime) -> Result<(), Fail> {
    let prints = (prints(rt.alloc(), 0x1_0014)?, prints(rt.alloc(), 0x1_0000)?);
    assert_eq!(rt; prints, (true, false));
    assert!(rt; are_written_again(rt.alloc(), &ONE_WRITE, 88)?);
    Ok(())
}

/// The slots of that image.
static SLOTS_OF_ONE_WRITE: [Slot; 2] = [
    Slot::Fork { anchor: 0 },
    Slot::Exec {
        origin: 0x1_0014,
        word: 0x73,
    },
];

/// What there is about that image, and whether it has those slots and that write.
fn about_one_write(alloc: Global) -> Result<((u32, u32, (usize, usize)), bool), ImageErr> {
    let image = image(alloc, &ONE_WRITE)?;
    let has_all = has_slots(&image, &SLOTS_OF_ONE_WRITE)
        && image.writes.as_slice() == [0x1_0014].as_slice();
    Ok((about(&image), has_all))
}

#[test]
fn reads_one_write(rt: HostRuntime) -> Result<(), Fail> {
    let found = about_one_write(rt.alloc())?;
    assert_eq!(rt; found, ((2, 16, (0, 1)), true));
    Ok(())
}

/// The limit of the image of one write, or its refusal, where this stands in place of its limit.
fn limit_of(alloc: Global, limit: u32) -> Result<u32, ImageErr> {
    let mut numbers = ONE_WRITE;
    numbers[2] = limit;
    Ok(image(alloc, &numbers)?.limit)
}

#[test]
fn the_greatest_limit_is_below_that_of_version_1(rt: HostRuntime) {
    let limits = (limit_of(rt.alloc(), 4_096), limit_of(rt.alloc(), 4_097));
    assert_eq!(rt; limits, (Ok(4_096), Err(ImageErr::Limit)));
}

#[test]
fn reads_and_writes_whole_images(rt: HostRuntime) -> Result<(), Fail> {
    assert!(rt; are_written_again(rt.alloc(), &PASSED_STORE, 156)?);
    assert!(rt; are_written_again(rt.alloc(), &PRINTS_ONCE, 360)?);
    Ok(())
}

#[test]
fn each_front_of_a_file_is_short(rt: HostRuntime) -> Result<(), Fail> {
    let lengths = about_lengths(rt.alloc(), &PRINTS_ONCE)?;
    assert_eq!(rt; lengths, (None, Some(ImageErr::Long)));
    Ok(())
}

/// Two loads of one value.
static ONE_VALUE_EACH: [u32; 24] = [
    MAGIC,
    2,
    4_096,
    0,
    0,
    0,
    4,
    0,
    3,
    0,
    0,
    0,
    5,
    0,
    0,
    0,
    6,
    0x1_0008,
    0,
    0,
    6,
    0x1_000C,
    0xFFFF_FF80,
    0,
];

/// Whether the last assumption of that image is the second of them.
fn ends_with_a_load(alloc: Global) -> Result<bool, ImageErr> {
    let image = image(alloc, &ONE_VALUE_EACH)?;
    Ok(matches!(
        image.assumptions.last(),
        Some(Assumption::Same {
            at: 0x1_000C,
            value: 0xFFFF_FF80
        })
    ))
}

#[test]
fn reads_and_writes_loads_of_one_value(rt: HostRuntime) -> Result<(), Fail> {
    assert!(rt; ends_with_a_load(rt.alloc())?);
    assert!(rt; are_written_again(rt.alloc(), &ONE_VALUE_EACH, 96)?);
    Ok(())
}

/// A file with as many writes as an image can have, at every second address of an instruction.
fn most_writes(alloc: Global) -> Result<Vec<u8>, AllocError> {
    let mut bytes = bytes_of(alloc, &[MAGIC, 2, 16, 0, 0, 0, 0, 524_288])?;
    for number in 0..524_288_u32 {
        bytes.extend_from_slice(&(8 * number).to_le_bytes())?;
    }
    Ok(bytes)
}

/// The first of these addresses where an image's tasks may print, if that is asked for, or else may not.
fn first_where(image: &Image, prints: bool, addresses: &[u32]) -> Option<u32>
    requires { IsImage image.now }
{
    for &pc in addresses {
        if prints_at(image, pc) == prints {
            return Some(pc);
        }
    }
    None
}

/// Addresses of writes of that file.
static PRINT: [u32; 4] = [0, 8, 0x20_0000, 0x3F_FFF8];

/// Addresses at which it has no write.
static PRINT_NOT: [u32; 5] = [4, 0x1F_FFFC, 0x3F_FFFC, 0x40_0000, 0xFFFF_FFFC];

/// How many writes that image has, and the first address that is in the other of those two tables.
fn about_most_writes(alloc: Global, file: &[u8]) -> Result<(usize, [Option<u32>; 2]), ImageErr> {
    let image = read_image(alloc, file)?;
    let silent = first_where(&image, false, &PRINT);
    let printing = first_where(&image, true, &PRINT_NOT);
    Ok((image.writes.len(), [silent, printing]))
}

/// The same of the image of that file, and whether the file is written again as it was.
fn most_writes_come_to(alloc: Global) -> Result<((usize, [Option<u32>; 2]), bool), ImageErr> {
    let file = most_writes(alloc)?;
    let about = about_most_writes(alloc, &file)?;
    Ok((about, is_written_again(alloc, &file)?))
}

#[test]
fn reads_and_writes_the_most_writes(rt: HostRuntime) -> Result<(), Fail> {
    let found = most_writes_come_to(rt.alloc())?;
    assert_eq!(rt; found, ((524_288, [None, None]), true));
    Ok(())
}

static REFUSALS: [(&[u32], ImageErr); 38] = [
    (&[MAGIC, 2, 15, 0, 0, 0], ImageErr::Short),
    (&[MAGIC + 1, 2, 15, 0, 0, 0, 0], ImageErr::Magic),
    (&[MAGIC, 3, 15, 0, 0, 0, 0, 0], ImageErr::Version),
    (&[MAGIC, 2, 15, 0, 0, 0, 0], ImageErr::Short),
    (&[MAGIC, 2, 15, 0, 0, 0, 0, 0], ImageErr::Limit),
    (&[MAGIC, 2, 4_097, 1_048_577, 0, 0, 0, 0], ImageErr::Limit),
    (
        &[MAGIC, 2, 16, 1_048_577, 524_289, 0, 0, 524_289],
        ImageErr::TooMany(Table::Slots),
    ),
    (
        &[MAGIC, 2, 16, 0, 524_289, 524_289, 0, 524_289],
        ImageErr::TooMany(Table::Anchors),
    ),
    (
        &[MAGIC, 2, 16, 0, 0, 524_289, 1_048_577, 524_289],
        ImageErr::TooMany(Table::Notes),
    ),
    (
        &[MAGIC, 2, 16, 0, 0, 0, 1_048_577, 524_289],
        ImageErr::TooMany(Table::Assumptions),
    ),
    (
        &[MAGIC, 2, 16, 1, 0, 0, 1_048_576, 524_289, 3, 0, 0],
        ImageErr::TooMany(Table::Writes),
    ),
    (&[MAGIC, 2, 16, 1, 0, 0, 0, 0, 3, 0], ImageErr::Short),
    (
        &[MAGIC, 2, 16, 1, 0, 0, 0, 0, 2, 0, 1],
        ImageErr::Kind(Table::Slots, 0),
    ),
    (
        &[MAGIC, 2, 16, 1, 0, 0, 0, 0, 1, 2, 0],
        ImageErr::Range(Table::Slots, 0),
    ),
    (
        &[MAGIC, 2, 16, 1, 1, 0, 0, 0, 1, 0, 0, 2, 0, 1],
        ImageErr::Range(Table::Anchors, 0),
    ),
    (
        &[MAGIC, 2, 16, 1, 2, 0, 0, 0, 1, 0, 0, 4, 0, 1, 0, 0, 1],
        ImageErr::Order(Table::Anchors, 1),
    ),
    (
        &[MAGIC, 2, 16, 1, 0, 1, 0, 0, 1, 0, 0, 4, 1, 0, 0],
        ImageErr::Range(Table::Notes, 0),
    ),
    (
        &[MAGIC, 2, 16, 1, 0, 2, 0, 0, 1, 0, 0, 4, 0, 0, 0, 4, 0, 0, 0],
        ImageErr::Order(Table::Notes, 1),
    ),
    (
        &[MAGIC, 2, 16, 0, 0, 0, 1, 0, 7, 0, 0, 0],
        ImageErr::Kind(Table::Assumptions, 0),
    ),
    (
        &[MAGIC, 2, 16, 0, 0, 0, 1, 0, 6, 2, 0, 1],
        ImageErr::Kind(Table::Assumptions, 0),
    ),
    (
        &[MAGIC, 1, 16, 0, 0, 0, 2, 5, 0, 0, 0, 6, 4, 0, 0],
        ImageErr::Kind(Table::Assumptions, 1),
    ),
    (
        &[MAGIC, 2, 16, 0, 0, 0, 2, 0, 6, 4, 0, 0, 6, 2, 0, 0],
        ImageErr::Range(Table::Assumptions, 1),
    ),
    (
        &[MAGIC, 2, 16, 0, 0, 0, 2, 0, 6, 4, 0, 0, 6, 4, 1, 0],
        ImageErr::Order(Table::Assumptions, 1),
    ),
    (
        &[MAGIC, 2, 16, 0, 0, 0, 2, 0, 6, 0, 0, 0, 5, 0, 0, 0],
        ImageErr::Order(Table::Assumptions, 1),
    ),
    (
        &[MAGIC, 2, 16, 0, 0, 0, 1, 0, 1, 4, 0, 1_048_577],
        ImageErr::TooMany(Table::Targets),
    ),
    (
        &[MAGIC, 2, 16, 0, 0, 0, 1, 0, 1, 4, 0, 2, 3],
        ImageErr::Short,
    ),
    (
        &[MAGIC, 2, 16, 0, 0, 0, 1, 0, 1, 4, 0, 1, 3],
        ImageErr::Range(Table::Targets, 0),
    ),
    (
        &[MAGIC, 2, 16, 0, 0, 0, 1, 0, 1, 4, 0, 2, 8, 4],
        ImageErr::Order(Table::Targets, 0),
    ),
    (&[MAGIC, 2, 16, 0, 0, 0, 0, 524_288], ImageErr::Short),
    (&[MAGIC, 2, 16, 0, 0, 0, 0, 2, 4], ImageErr::Short),
    (
        &[MAGIC, 2, 16, 0, 0, 0, 0, 1, 2],
        ImageErr::Range(Table::Writes, 0),
    ),
    (
        &[MAGIC, 2, 16, 0, 0, 0, 0, 3, 4, 8, 2],
        ImageErr::Range(Table::Writes, 2),
    ),
    (
        &[MAGIC, 2, 16, 0, 0, 0, 0, 2, 4, 4],
        ImageErr::Order(Table::Writes, 1),
    ),
    (
        &[MAGIC, 2, 16, 0, 0, 0, 0, 3, 4, 8, 0],
        ImageErr::Order(Table::Writes, 2),
    ),
    (
        &[MAGIC, 2, 16, 0, 0, 0, 1, 1, 7, 0, 0, 0, 2],
        ImageErr::Kind(Table::Assumptions, 0),
    ),
    (&[MAGIC, 2, 16, 0, 0, 0, 0, 1, 4, 8], ImageErr::Long),
    (&[MAGIC, 2, 16, 0, 0, 0, 0, 0, 0], ImageErr::Long),
    (&[MAGIC, 1, 16, 0, 0, 0, 0, 1, 4], ImageErr::Long),
];

#[test]
fn answers_the_first_refusal_of_version_2(rt: HostRuntime) -> Result<(), Fail> {
    for &(numbers, want) in &REFUSALS {
        assert_eq!(rt; refusal(rt.alloc(), numbers)?, Some(want), "{numbers:?}");
    }
    Ok(())
}
