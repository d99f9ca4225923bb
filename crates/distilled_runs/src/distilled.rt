//! Replays beside distilled images: with an image that fits, nothing is squashed as long as the run
//! meets its list.

use crate::commands::{Line, REPLAY, left_so, perform, replays_so};
use std::alloc::{AllocError, Global};
use std::test::Fail;
use test_programs::images::*;
use test_programs::programs::*;

/// Of the program whose input decides, by its run without input: ten slots, three anchors, and a branch
/// of which the taken side is cut.
static INPUT_IS_EMPTY: [u32; 118] = [
    0x5053534D, 1, 64, 10, 3, 14, 4, 2, 0, 0, 0, 0x10010, 115, 2, 1, 0, 0, 0x10014, 0x58303, 0,
    0x10018, 0x00A00293, 2, 2, 0, 0, 0x10020, 0xFFF28293, 0, 0x10024, 0xFE029CE3, 0, 0x1002C,
    0x0080006F, 0, 0x10038, 115, 0x10000, 0, 2, 0x10014, 2, 2, 0x1001C, 5, 2, 0x10000, 0, 0, 0,
    0x10004, 1, 0, 0, 0x10008, 1, 0, 0, 0x1000C, 1, 0, 0, 0x10010, 1, 0, 0, 0x10014, 2, 0x800,
    0x800, 0x10018, 4, 64, 64, 0x1001C, 5, 96, 96, 0x10020, 6, 96, 96, 0x10024, 7, 96, 96, 0x10028,
    8, 0, 0, 0x1002C, 8, 0, 0, 0x10034, 9, 0, 0, 0x10038, 9, 0, 0, 0, 0x1001C, 1, 0, 3, 0, 0, 0, 4,
    0, 0, 0, 5, 0, 0, 0,
];

/// The events of a run by four slaves.
const FOUR_SLAVES: &str =
    "1 restart\n23 master\n5 slave 0\n8 slave 1\n8 slave 2\n8 slave 3\n4 commit\n11 master
8 slave 0\n8 slave 1\n2 commit\n1 serial\n";

/// What is put of them.
static BY_FOUR_SLAVES: [Line; 39] = [
    ("started 00010000", 1),
    ("moved", 4),
    ("forked 1", 1),
    ("moved", 5),
    ("forked 2", 1),
    ("moved", 5),
    ("forked 3", 1),
    ("moved", 5),
    ("stalled", 1),
    ("stepped", 4),
    ("done reached", 1),
    ("stepped", 7),
    ("done reached", 1),
    ("stepped", 7),
    ("done reached", 1),
    ("stepped", 7),
    ("done reached", 1),
    ("committed 5 dropped 0", 1),
    ("committed 8 dropped 0", 3),
    ("forked 4", 1),
    ("moved", 5),
    ("forked 5", 1),
    ("moved", 3),
    ("halted call", 1),
    ("stepped", 7),
    ("done reached", 1),
    ("stepped", 7),
    ("done met", 1),
    ("committed 8 dropped 0", 1),
    ("committed 7 dropped 0", 1),
    ("ended exit 0", 1),
    ("position 45", 1),
    ("tasks 6", 1),
    ("by-tasks 44", 1),
    ("serial 1", 1),
    ("squashed 0", 1),
    ("dropped 0", 1),
    ("end exit 0", 1),
    ("output 0", 1),
];

#[test]
fn four_slaves_run_a_loop_ahead(rt: HostRuntime) -> Result<(), Fail> {
    assert!(rt;
        replays_so(
            rt.alloc(),
            REPLAY,
            &COMPARE_LOOP,
            &COMPARE_NEVER_TRUE,
            FOUR_SLAVES,
            &BY_FOUR_SLAVES
        )?
    );
    Ok(())
}

/// What is put of a replay where the input breaks the list.
static LIST_IS_BROKEN: [Line; 16] = [
    ("stepped", 5),
    ("started 00010014", 1),
    ("moved", 5),
    ("forked 1", 1),
    ("stepped", 5),
    ("done met", 1),
    ("committed 5 dropped 1", 1),
    ("ended exit 5", 1),
    ("position 11", 1),
    ("tasks 1", 1),
    ("by-tasks 5", 1),
    ("serial 6", 1),
    ("squashed 0", 1),
    ("dropped 1", 1),
    ("end exit 5", 1),
    ("output 0", 1),
];

#[test]
fn an_input_that_breaks_the_list_drops_a_task(rt: HostRuntime) -> Result<(), Fail> {
    let words = &["replay", "p", "m", "e", "--input", "i"];
    let events = "5 serial\n1 restart\n6 master\n6 slave 0\n1 commit\n1 serial\n";
    assert!(rt;
        replays_so(
            rt.alloc(),
            words,
            &INPUT_DECIDES,
            &INPUT_IS_EMPTY,
            events,
            &LIST_IS_BROKEN
        )?
    );
    Ok(())
}

/// The image of the program that stores a byte for a write, by the profile of its run.
fn image_of_store(alloc: Global) -> Result<Vec<u8>, AllocError> {
    let profile = perform(
        alloc,
        &["profile", "p", "r"],
        &STORE_FOR_WRITE,
        b"",
        b"",
        b"",
    )?
    .report;
    let words = ["distill", "p", "m", "r"];
    Ok(perform(alloc, &words, &STORE_FOR_WRITE, &profile, b"", b"")?.report)
}

/// Whether the list of that image names the store.
fn lists_the_store(alloc: Global, image: &[u8]) -> Result<bool, AllocError> {
    let shown = perform(alloc, &["show", "m"], &STORE_FOR_WRITE, image, b"", b"")?;
    Ok(
        shown
            .out
            .ends_with(b"\ndead 00010008\ncode\nwithin\nspan\n"),
    )
}

/// Whether a run beside that image puts the byte.
fn puts_the_byte(alloc: Global, image: &[u8]) -> Result<bool, AllocError> {
    let words = ["run", "p", "--image", "m", "--report", "r"];
    let left = perform(alloc, &words, &STORE_FOR_WRITE, image, b"", b"")?;
    Ok(left_so(&left, b"A", 0, ""))
}

#[test]
fn a_byte_that_a_write_call_alone_reads_is_put_beside_an_image(
    rt: HostRuntime,
) -> Result<(), Fail> {
    let alloc = rt.alloc();
    let image = image_of_store(alloc)?;
    assert!(rt; lists_the_store(alloc, &image)?);
    assert!(rt; puts_the_byte(alloc, &image)?);
    Ok(())
}
