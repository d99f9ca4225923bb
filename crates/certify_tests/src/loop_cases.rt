//! The image of a loop, and what becomes of it where a few of its words are changed.

use crate::making::{answer_to_file, no};
use certify::Fit;
use std::test::Fail;
use test_programs::images::COMPARE_NEVER_TRUE;
use test_programs::programs::COMPARE_LOOP;

/// How many assumptions the file says that there are.
const COUNT: usize = 6;

/// The kind and the number of slot 2, the `Fork` of the second anchor.
const FORK: (usize, usize) = (13, 14);

/// The address and the word of slot 3.
const BODY: (usize, usize) = (17, 18);

/// The slot of the second anchor.
const ANCHOR_SLOT: usize = 32;

/// The assumption of the branch, and where the next ones begin.
const CUT: usize = 70;

const CODE: usize = 74;

const WITHIN: usize = 78;

const SPAN: usize = 82;

/// Where the slot and the two masks of a note stand in the file. The notes are those of the
/// addresses 0x10000 to 0x10014 and 0x1001C to 0x10024.
const NOTE_SLOTS: [usize; 9] = [35, 39, 43, 47, 51, 55, 59, 63, 67];

const LIVE: [usize; 9] = [36, 40, 44, 48, 52, 56, 60, 64, 68];

const NEED: [usize; 9] = [37, 41, 45, 49, 53, 57, 61, 65, 69];

/// What becomes of the image with these changes: the address and the number of the first rule that it
/// breaks.
type Case = (&'static str, &'static [(usize, u32)], u32, u32);

/// Each breaks one rule alone.
static ONE_RULE: [Case; 17] = [
    // In place of what isn't listed a store is said to be dead where none is.
    ("no Code", &[(CODE, 2), (CODE + 1, 0x1_0000)], 0, 1),
    (
        "no Within",
        &[(CODE, 2), (CODE + 1, 0x1_0000), (WITHIN, 3)],
        0,
        1,
    ),
    (
        "no Span",
        &[(CODE, 2), (CODE + 1, 0x1_0000), (WITHIN, 3), (SPAN, 4)],
        0,
        1,
    ),
    (
        "another slot than the note",
        &[(ANCHOR_SLOT, 0)],
        0x1_0004,
        2,
    ),
    ("the fork of another anchor", &[(FORK.1, 0)], 0x1_0004, 2),
    ("no fork", &[(FORK.0, 1), (FORK.1, 0x1_0008)], 0x1_0004, 2),
    (
        "the slot of the jump before it",
        &[(NOTE_SLOTS[6], 5)],
        0x1_001C,
        3,
    ),
    ("another word", &[(BODY.1, 0xFFF2_8313)], 0x1_000C, 3),
    (
        "the word at another address",
        &[(BODY.0, 0x1_0010)],
        0x1_000C,
        3,
    ),
    // The register of the comparison at the anchor is needed behind it, from turn to turn.
    (
        "a needed word is passed",
        &[
            (NEED[0], 0x40),
            (NEED[1], 0x60),
            (NEED[2], 0x60),
            (NEED[3], 0x60),
            (NEED[4], 0x60),
        ],
        0x1_0004,
        4,
    ),
    (
        "what the branch reads isn't live",
        &[(LIVE[2], 0x20)],
        0x1_0008,
        6,
    ),
    (
        "nor what is read at the anchor",
        &[(LIVE[1], 0)],
        0x1_0004,
        6,
    ),
    (
        "nor what is live behind the jump",
        &[(LIVE[6], 0x800)],
        0x1_0014,
        6,
    ),
    (
        "what a word reads isn't needed",
        &[(NEED[3], 0)],
        0x1_000C,
        7,
    ),
    (
        "nor what is needed behind the passed branch",
        &[(NEED[2], 0)],
        0x1_0008,
        7,
    ),
    (
        "nor what is needed behind the jump",
        &[(NEED[6], 0x800)],
        0x1_0014,
        7,
    ),
    (
        "nor what is live at the anchor",
        &[
            (LIVE[0], 0x40),
            (NEED[0], 0x40),
            (LIVE[1], 0x60),
            (LIVE[3], 0x60),
            (LIVE[4], 0x60),
        ],
        0x1_0004,
        7,
    ),
];

/// Each breaks several rules, at one address or at several.
static SEVERAL_RULES: [Case; 8] = [
    // The slot of 0x10008 is not that of 0x1000C. So the third rule is broken there, and at the anchor before it.
    ("two lost notes", &[(NOTE_SLOTS[2], 4)], 0x1_0004, 3),
    // Nothing is cut and nothing is needed at a note that is lost.
    (
        "a lost note",
        &[
            (NOTE_SLOTS[3], 4),
            (CUT, 2),
            (CUT + 1, 0x1_0000),
            (CUT + 2, 0),
            (NEED[2], 0),
        ],
        0x1_0008,
        3,
    ),
    ("both masks", &[(LIVE[2], 0x20), (NEED[2], 0)], 0x1_0008, 6),
    (
        "both masks, and no cut",
        &[
            (LIVE[2], 0x20),
            (NEED[2], 0),
            (CUT, 2),
            (CUT + 1, 0x1_0000),
            (CUT + 2, 0),
        ],
        0x1_0008,
        4,
    ),
    (
        "an anchor and its lost note",
        &[(ANCHOR_SLOT, 0), (NOTE_SLOTS[2], 4)],
        0x1_0004,
        2,
    ),
    (
        "an anchor before a note",
        &[(ANCHOR_SLOT, 0), (NEED[3], 0)],
        0x1_0004,
        2,
    ),
    // A register that is live at 0x10004 is not before it.
    (
        "an anchor behind a note",
        &[(ANCHOR_SLOT, 0), (LIVE[1], 0x60)],
        0x1_0000,
        6,
    ),
    (
        "the list and an anchor",
        &[(CODE, 2), (CODE + 1, 0x1_0000), (ANCHOR_SLOT, 0)],
        0,
        1,
    ),
];

#[test]
fn the_image_of_the_loop(rt: HostRuntime) -> Result<(), Fail> {
    let found = answer_to_file(rt.alloc(), &COMPARE_LOOP, &COMPARE_NEVER_TRUE, &[])?;
    assert_eq!(rt; found, Fit::Yes);
    Ok(())
}

#[test]
fn a_file_without_its_cut(rt: HostRuntime) -> Result<(), Fail> {
    let mut file = Vec::from_slice(rt.alloc(), &COMPARE_NEVER_TRUE[..CUT])?;
    file.extend_from_slice(&COMPARE_NEVER_TRUE[CODE..])?;
    let found = answer_to_file(rt.alloc(), &COMPARE_LOOP, &file, &[(COUNT, 3)])?;
    assert_eq!(rt; found, no(0x1_0008, 4));
    Ok(())
}

#[test]
fn one_rule_is_broken(rt: HostRuntime) -> Result<(), Fail> {
    for &(name, changes, pc, rule) in &ONE_RULE {
        let found = answer_to_file(rt.alloc(), &COMPARE_LOOP, &COMPARE_NEVER_TRUE, changes)?;
        assert_eq!(rt; found, no(pc, rule), "at {name:?}");
    }
    Ok(())
}

#[test]
fn several_rules_are_broken(rt: HostRuntime) -> Result<(), Fail> {
    for &(name, changes, pc, rule) in &SEVERAL_RULES {
        let found = answer_to_file(rt.alloc(), &COMPARE_LOOP, &COMPARE_NEVER_TRUE, changes)?;
        assert_eq!(rt; found, no(pc, rule), "at {name:?}");
    }
    Ok(())
}
