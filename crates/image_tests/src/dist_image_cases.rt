//! Images of version 1 as bytes, both ways, and each refusal. The bytes of the first image are written
//! out by hand.

use dist_image::{
    Anchor, Assumption, Image, ImageErr, Note, Slot, Table, anchor_at, empty_image, read_image,
    slot_of, write_image,
};
use std::alloc::{AllocError, Global};
use std::test::Fail;
use test_programs::images::{TEN_TURNS, image};
use test_programs::programs::bytes_of;

/// One anchor: a fork, and an ECALL that the note's task goes on to.
static ONE_ANCHOR: [u8; 80] = [
    0x4D, 0x53, 0x53, 0x50, 0x01, 0x00, 0x00, 0x00, 0x10, 0x00, 0x00, 0x00, 0x02, 0x00, 0x00, 0x00,
    0x01, 0x00, 0x00, 0x00, 0x01, 0x00, 0x00, 0x00, 0x00, 0x00, 0x00, 0x00, 0x02, 0x00, 0x00, 0x00,
    0x00, 0x00, 0x00, 0x00, 0x00, 0x00, 0x00, 0x00, 0x00, 0x00, 0x00, 0x00, 0x08, 0x00, 0x01, 0x00,
    0x73, 0x00, 0x00, 0x00, 0x08, 0x00, 0x01, 0x00, 0x00, 0x00, 0x00, 0x00, 0x01, 0x00, 0x00, 0x00,
    0x08, 0x00, 0x01, 0x00, 0x00, 0x00, 0x00, 0x00, 0x00, 0x00, 0x00, 0x00, 0x00, 0x00, 0x00, 0x00,
];

/// The text `MSSP`.
pub(crate) const MAGIC: u32 = 0x5053_534D;

/// How a file of these numbers is refused, or None where it is read.
pub(crate) fn refusal(alloc: Global, numbers: &[u32]) -> Result<Option<ImageErr>, AllocError> {
    let bytes = bytes_of(alloc, numbers)?;
    Ok(read_image(alloc, &bytes).err())
}

/// Whether an image's file is written again as it was.
pub(crate) fn is_written_again(alloc: Global, file: &[u8]) -> Result<bool, ImageErr> {
    let written = write_image(alloc, &read_image(alloc, file)?)?;
    Ok(*written.as_slice() == *file)
}

/// Whether a file of these numbers, which has so many bytes, is written again as it was.
pub(crate) fn are_written_again(
    alloc: Global,
    numbers: &[u32],
    size: usize,
) -> Result<bool, ImageErr> {
    let file = bytes_of(alloc, numbers)?;
    Ok(file.len() == size && is_written_again(alloc, &file)?)
}

/// The length of the first front of a file that isn't refused as too short.
fn long_front(alloc: Global, file: &[u8]) -> Option<usize> {
    for length in 0..file.len() {
        if read_image(alloc, &file[..length]).err() != Some(ImageErr::Short) {
            return Some(length);
        }
    }
    None
}

/// That length of a file of these numbers, and how the file with one more byte is refused.
pub(crate) fn about_lengths(
    alloc: Global,
    numbers: &[u32],
) -> Result<(Option<usize>, Option<ImageErr>), AllocError> {
    let mut bytes = bytes_of(alloc, numbers)?;
    let front = long_front(alloc, &bytes);
    bytes.push(0)?;
    Ok((front, read_image(alloc, &bytes).err()))
}

/// The number of the slot at one address, and of the anchor at another one, in the image of a file.
fn places(
    alloc: Global,
    file: &[u8],
    slot: u32,
    anchor: u32,
) -> Result<(Option<u32>, Option<u32>), ImageErr> {
    let image = read_image(alloc, file)?;
    Ok((slot_of(&image, slot), anchor_at(&image, anchor)))
}

/// An image's version, its limit, and how many assumptions and writes it has.
pub(crate) fn about(image: &Image) -> (u32, u32, (usize, usize)) {
    let counts = (image.assumptions.len(), image.writes.len());
    (image.version, image.limit, counts)
}

/// Whether an image has these slots and no other ones.
pub(crate) fn has_slots(image: &Image, slots: &[Slot]) -> bool {
    *image.slots.as_slice() == *slots
}

/// The slots of the first image.
static SLOTS_OF_ONE_ANCHOR: [Slot; 2] = [
    Slot::Fork { anchor: 0 },
    Slot::Exec {
        origin: 0x1_0008,
        word: 0x73,
    },
];

/// Its anchors.
static ANCHORS: [Anchor; 1] = [Anchor {
    pc: 0x1_0008,
    slot: 0,
    count: 1,
}];

/// Its notes.
static NOTES: [Note; 1] = [Note {
    pc: 0x1_0008,
    slot: 0,
    live: 0,
    need: 0,
}];

/// What there is about the first image, and whether it has those slots, anchors and notes.
fn about_one_anchor(alloc: Global) -> Result<((u32, u32, (usize, usize)), bool), ImageErr> {
    let image = read_image(alloc, &ONE_ANCHOR)?;
    let has_all = has_slots(&image, &SLOTS_OF_ONE_ANCHOR)
        && image.anchors.as_slice() == ANCHORS.as_slice()
        && image.notes.as_slice() == NOTES.as_slice();
    Ok((about(&image), has_all))
}

#[test]
fn reads_one_anchor(rt: HostRuntime) -> Result<(), Fail> {
    let found = about_one_anchor(rt.alloc())?;
    assert_eq!(rt; found, ((1, 16, (0, 0)), true));
    Ok(())
}

#[test]
fn finds_and_writes_one_anchor(rt: HostRuntime) -> Result<(), Fail> {
    let there = places(rt.alloc(), &ONE_ANCHOR, 0x1_0008, 0x1_0008)?;
    let elsewhere = places(rt.alloc(), &ONE_ANCHOR, 0, 4)?;
    assert_eq!(rt; (there, elsewhere), ((Some(0), Some(0)), (None, None)));
    assert!(rt; is_written_again(rt.alloc(), &ONE_ANCHOR)?);
    Ok(())
}

/// The numbers of a slot and of an anchor of the ten turns.
fn places_of_ten_turns(alloc: Global) -> Result<(Option<u32>, Option<u32>), ImageErr> {
    let file = bytes_of(alloc, &TEN_TURNS)?;
    places(alloc, &file, 0x1_000C, 0x1_0004)
}

#[test]
fn reads_ten_turns(rt: HostRuntime) -> Result<(), Fail> {
    assert_eq!(rt; places_of_ten_turns(rt.alloc())?, (Some(4), Some(0)));
    let lengths = about_lengths(rt.alloc(), &TEN_TURNS)?;
    assert_eq!(rt; lengths, (None, Some(ImageErr::Long)));
    Ok(())
}

#[test]
fn refuses_notes_that_are_exchanged(rt: HostRuntime) -> Result<(), Fail> {
    let mut exchanged = TEN_TURNS;
    exchanged[31] = 0x1_0004;
    exchanged[32] = 1;
    exchanged[35] = 0x1_0000;
    exchanged[36] = 0;
    let answer = refusal(rt.alloc(), &exchanged)?;
    assert_eq!(rt; answer, Some(ImageErr::Order(Table::Notes, 1)));
    Ok(())
}

static ANSWERS_THE_FIRST_REFUSAL_CASES: [(&[u32], ImageErr); 34] = [
    (&[MAGIC, 1, 16, 0, 0, 0], ImageErr::Short),
    (&[MAGIC + 1, 3, 15, 0, 0, 0, 0], ImageErr::Magic),
    (&[MAGIC, 0, 15, 0, 0, 0, 0], ImageErr::Version),
    (&[MAGIC, 1, 15, 0, 0, 0, 0], ImageErr::Limit),
    (&[MAGIC, 1, 16_385, 0, 0, 0, 0], ImageErr::Limit),
    (
        &[MAGIC, 1, 16, 1_048_577, 524_289, 0, 0],
        ImageErr::TooMany(Table::Slots),
    ),
    (
        &[MAGIC, 1, 16, 1_048_576, 524_289, 524_289, 0],
        ImageErr::TooMany(Table::Anchors),
    ),
    (
        &[MAGIC, 1, 16, 0, 0, 524_289, u32::MAX],
        ImageErr::TooMany(Table::Notes),
    ),
    (
        &[MAGIC, 1, 16, 0, 0, 0, u32::MAX],
        ImageErr::TooMany(Table::Assumptions),
    ),
    (&[MAGIC, 1, 16, 1_048_576, 0, 0, 0], ImageErr::Short),
    (
        &[MAGIC, 1, 16, 1, 0, 0, 0, 3, 0, 0],
        ImageErr::Kind(Table::Slots, 0),
    ),
    (
        &[MAGIC, 1, 16, 1, 0, 0, 0, 1, 0, 1],
        ImageErr::Kind(Table::Slots, 0),
    ),
    (
        &[MAGIC, 1, 16, 1, 0, 0, 0, 0, 2, 0],
        ImageErr::Range(Table::Slots, 0),
    ),
    (
        &[MAGIC, 1, 16, 1, 0, 0, 0, 2, 0, 0],
        ImageErr::Range(Table::Slots, 0),
    ),
    (
        &[MAGIC, 1, 16, 1, 1, 0, 0, 1, 0, 0, 4, 1, 1],
        ImageErr::Range(Table::Anchors, 0),
    ),
    (
        &[MAGIC, 1, 16, 1, 1, 0, 0, 1, 0, 0, 4, 0, 0],
        ImageErr::Range(Table::Anchors, 0),
    ),
    (
        &[MAGIC, 1, 16, 1, 1, 0, 0, 1, 0, 0, 4, 0, 65],
        ImageErr::Range(Table::Anchors, 0),
    ),
    (
        &[MAGIC, 1, 16, 1, 2, 0, 0, 1, 0, 0, 4, 0, 64, 4, 0, 1],
        ImageErr::Order(Table::Anchors, 1),
    ),
    (
        &[MAGIC, 1, 16, 1, 0, 1, 0, 1, 0, 0, 2, 0, 0, 0],
        ImageErr::Range(Table::Notes, 0),
    ),
    (
        &[MAGIC, 1, 16, 1, 0, 1, 0, 1, 0, 0, 4, 0, 1, 0],
        ImageErr::Range(Table::Notes, 0),
    ),
    (
        &[MAGIC, 1, 16, 1, 0, 1, 0, 1, 0, 0, 4, 0, 2, 3],
        ImageErr::Range(Table::Notes, 0),
    ),
    (
        &[MAGIC, 1, 16, 0, 0, 0, 1, 6, 0, 0, 0],
        ImageErr::Kind(Table::Assumptions, 0),
    ),
    (
        &[MAGIC, 1, 16, 0, 0, 0, 1, 0, 4, 2, 0],
        ImageErr::Kind(Table::Assumptions, 0),
    ),
    (
        &[MAGIC, 1, 16, 0, 0, 0, 1, 2, 4, 0, 1],
        ImageErr::Kind(Table::Assumptions, 0),
    ),
    (
        &[MAGIC, 1, 16, 0, 0, 0, 1, 3, 4, 0, 0],
        ImageErr::Kind(Table::Assumptions, 0),
    ),
    (
        &[MAGIC, 1, 16, 0, 0, 0, 1, 0, 2, 1, 0],
        ImageErr::Range(Table::Assumptions, 0),
    ),
    (
        &[MAGIC, 1, 16, 0, 0, 0, 2, 3, 0, 0, 0, 2, 4, 0, 0],
        ImageErr::Order(Table::Assumptions, 1),
    ),
    (
        &[MAGIC, 1, 16, 0, 0, 0, 1, 1, 4, 0, u32::MAX],
        ImageErr::TooMany(Table::Targets),
    ),
    (
        &[MAGIC, 1, 16, 0, 0, 0, 1, 1, 4, 0, 1_048_576],
        ImageErr::Short,
    ),
    (&[MAGIC, 1, 16, 0, 0, 0, 1, 1, 4, 0, 2, 3], ImageErr::Short),
    (
        &[MAGIC, 1, 16, 0, 0, 0, 1, 1, 4, 0, 2, 8, 2],
        ImageErr::Range(Table::Targets, 0),
    ),
    (
        &[MAGIC, 1, 16, 0, 0, 0, 1, 1, 4, 0, 2, 8, 8],
        ImageErr::Order(Table::Targets, 0),
    ),
    (&[MAGIC, 1, 16, 0, 0, 0, 1, 1, 4, 0, 0, 8], ImageErr::Long),
    (&[MAGIC, 1, 16, 0, 0, 0, 0, 0], ImageErr::Long),
];

#[test]
fn answers_the_first_refusal(rt: HostRuntime) -> Result<(), Fail> {
    for &(numbers, want) in &ANSWERS_THE_FIRST_REFUSAL_CASES {
        assert_eq!(rt; refusal(rt.alloc(), numbers)?, Some(want), "{numbers:?}");
    }
    Ok(())
}

/// One slot, and an assumption of each kind of version 1.
static LISTS_ALL: [u32; 36] = [
    MAGIC,
    1,
    16_384,
    1,
    0,
    0,
    6,
    1,
    4,
    0,
    0,
    8,
    1,
    0,
    1,
    4,
    0,
    2,
    0,
    0xFFFF_FFFC,
    2,
    8,
    0,
    0,
    3,
    0,
    0,
    0,
    4,
    0,
    0,
    0,
    5,
    0,
    0,
    0,
];

/// Whether the first of those assumptions is a cut that was taken, and the last one Span.
fn ends_of_all(alloc: Global) -> Result<(bool, bool), ImageErr> {
    let image = image(alloc, &LISTS_ALL)?;
    let first = image.assumptions.first();
    let is_cut = matches!(first, Some(Assumption::Cut { at: 8, taken: true }));
    let is_span = matches!(image.assumptions.last(), Some(Assumption::Span));
    Ok((is_cut, is_span))
}

#[test]
fn reads_and_writes_assumptions(rt: HostRuntime) -> Result<(), Fail> {
    assert_eq!(rt; ends_of_all(rt.alloc())?, (true, true));
    assert!(rt; are_written_again(rt.alloc(), &LISTS_ALL, 144)?);
    Ok(())
}

/// Whether the file of an image without tables has these numbers.
fn is_empty_file(alloc: Global, numbers: &[u32]) -> Result<bool, AllocError> {
    let nothing = write_image(alloc, &empty_image(alloc))?;
    let want = bytes_of(alloc, numbers)?;
    Ok(nothing.as_slice() == want.as_slice())
}

#[test]
fn writes_the_empty_image(rt: HostRuntime) -> Result<(), Fail> {
    assert!(rt; is_empty_file(rt.alloc(), &[MAGIC, 1, 16, 0, 0, 0, 0])?);
    Ok(())
}
