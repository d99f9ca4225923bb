//! Profiles of small programs, made by hand, and parts of images.

ghost use Rattle.std.specs.Prelude.{◌≤◌};
ghost use Rattle.distiller.specs.Asked.{IsInRange};

use dist_image::{Anchor, Image, Slot};
use distiller::Options;
use profile_data::{Profile, read_profile};
use std::alloc::{AllocError, Global};
use std::test::Fail;

/// A row without targets: its address, its flags, how often it was executed, and how often taken.
pub(crate) type Counts = (u32, u32, u64, u64);

/// The rows of the run of `COMPARE_LOOP`.
pub(crate) static NEVER_ROWS: [Counts; 9] = [
    (0x1_0000, 0, 1, 0),
    (0x1_0004, 0, 10, 0),
    (0x1_0008, 0, 10, 0),
    (0x1_000C, 0, 10, 0),
    (0x1_0010, 0, 10, 9),
    (0x1_0014, 0, 1, 0),
    (0x1_001C, 0, 1, 0),
    (0x1_0020, 0, 1, 0),
    (0x1_0024, 0, 1, 0),
];

/// The rows of the run of `HELLO`, where short writes are counted.
pub(crate) static HELLO_ROWS: [Counts; 9] = [
    (0x1_0000, 0, 1, 0),
    (0x1_0004, 0, 1, 0),
    (0x1_0008, 0, 1, 0),
    (0x1_000C, 0, 1, 0),
    (0x1_0010, 0, 1, 0),
    (0x1_0014, 0, 1, 1),
    (0x1_0018, 0, 1, 0),
    (0x1_001C, 0, 1, 0),
    (0x1_0020, 0, 1, 0),
];

/// The call and the exit of `STORE_FOR_WRITE`, each where a task begins.
pub(crate) static CALL_AND_EXIT: [Slot; 4] = [
    Slot::Fork { anchor: 0 },
    Slot::Exec {
        origin: 0x1_0018,
        word: 0x73,
    },
    Slot::Fork { anchor: 1 },
    Slot::Exec {
        origin: 0x1_0024,
        word: 0x73,
    },
];

/// The bytes of a row, with its targets.
fn put_row(bytes: &mut Vec<u8>, row: Counts, targets: &[u32]) -> Result<(), AllocError> {
    let (pc, flags, executed, taken) = row;
    bytes.extend_from_slice(&pc.to_le_bytes())?;
    bytes.extend_from_slice(&flags.to_le_bytes())?;
    bytes.extend_from_slice(&executed.to_le_bytes())?;
    bytes.extend_from_slice(&taken.to_le_bytes())?;
    bytes.extend_from_slice(&(targets.len() as u64).to_le_bytes()[..4])?;
    for target in targets {
        bytes.extend_from_slice(&target.to_le_bytes())?;
    }
    Ok(())
}

/// The profile of so many steps that has these rows; the last one has the targets.
pub(crate) fn profile(
    alloc: Global,
    steps: u64,
    rows: &[Counts],
    targets: &[u32],
) -> Result<Profile, Fail> {
    let mut bytes = Vec::new(alloc);
    bytes.extend_from_slice(b"MSPF\x01\0\0\0")?;
    bytes.extend_from_slice(&steps.to_le_bytes())?;
    bytes.extend_from_slice(&0_u32.to_le_bytes())?;
    bytes.extend_from_slice(&(rows.len() as u64).to_le_bytes()[..4])?;
    if let Some((last, others)) = rows.split_last() {
        for row in others {
            put_row(&mut bytes, *row, &[])?;
        }
        put_row(&mut bytes, *last, targets)?;
    }
    Ok(read_profile(alloc, &bytes)?)
}

/// The default options, but for the most steps of a task.
pub(crate) fn options(limit: u32) -> Options
    requires least { 16 ≤ limit }
    requires most { limit ≤ 16_384 }
    ensures { IsInRange result }
{
    Options {
        rare: 10,
        hot: 2,
        goal: 200,
        limit,
    }
}

/// An anchor by its fields.
pub(crate) fn anchor(pc: u32, slot: u32, count: u32) -> Anchor {
    Anchor { pc, slot, count }
}

/// Whether an image has these slots and no other ones.
pub(crate) fn has_slots(image: &Image, slots: &[Slot]) -> bool {
    *image.slots.as_slice() == *slots
}

/// Whether an image has these anchors and no other ones.
pub(crate) fn has_anchors(image: &Image, anchors: &[Anchor]) -> bool {
    *image.anchors.as_slice() == *anchors
}

/// Whether what an image assumes is printed so.
pub(crate) fn assumes(alloc: Global, image: &Image, listed: &str) -> Result<bool, Fail> {
    let found = format!(in alloc; "{:?}", image.assumptions)?;
    Ok(found.as_str() == listed)
}
