//! Tasks that print: replays beside images made by hand, and from a profile with calls counted to a run
//! beside the image that is made of it.

use crate::commands::{
    Line, REPLAY, perform, put_so, replays_so, reported_so, set, text_of, told_so,
};
use command_fixtures::outside_world::Left;
use std::alloc::{AllocError, Global};
use std::test::Fail;
use test_programs::programs::*;

/// The word that begins every image.
const MAGIC: u32 = 0x5053534D;

/// By hand: one anchor at the start, and the call at 0x00010014 is one that a task does.
static WRITES_AT_14: [u32; 22] = [
    MAGIC, 2, 16, 2, 1, 1, 0, 1, 2, 0, 0, 0, 0x10014, 0x00000073, 0x10000, 0, 1, 0x10000, 0, 0, 0,
    0x10014,
];

/// By hand, for the program whose stored byte a call alone puts: the master leaves out the store, and
/// the second task begins before the first has done it.
static WRITES_AT_18: [u32; 39] = [
    MAGIC, 2, 16, 4, 2, 3, 0, 1, 2, 0, 0, 0, 0x10000, 0x000205B7, 1, 0x1000C, 0, 2, 1, 0, 0x10000,
    0, 1, 0x1000C, 3, 1, 0x10000, 0, 0, 0, 0x10004, 2, 0, 0, 0x1000C, 3, 0, 0, 0x10018,
];

/// What is put where a task prints and is committed; the last line is what it printed.
static PRINTED: [Line; 14] = [
    ("started 00010000", 1),
    ("stepped", 8),
    ("done met", 1),
    ("committed 8 dropped 0", 1),
    ("ended exit 0", 1),
    ("position 9", 1),
    ("tasks 1", 1),
    ("by-tasks 8", 1),
    ("serial 1", 1),
    ("squashed 0", 1),
    ("dropped 0", 1),
    ("end exit 0", 1),
    ("output 3", 1),
    ("hi", 1),
];

#[test]
fn a_task_prints_and_its_commit_shows_it(rt: HostRuntime) -> Result<(), Fail> {
    let events = "1 restart\n9 slave 0\n1 commit\n1 serial\n";
    assert!(rt; replays_so(rt.alloc(), REPLAY, &HELLO, &WRITES_AT_14, events, &PRINTED)?);
    Ok(())
}

/// What is put where it isn't committed.
static NOT_COMMITTED: [Line; 11] = [
    ("started 00010000", 1),
    ("stepped", 8),
    ("done met", 1),
    ("position 0", 1),
    ("tasks 0", 1),
    ("by-tasks 0", 1),
    ("serial 0", 1),
    ("squashed 0", 1),
    ("dropped 0", 1),
    ("end none", 1),
    ("output 0", 1),
];

#[test]
fn what_no_commit_appended_is_not_shown(rt: HostRuntime) -> Result<(), Fail> {
    let events = "1 restart\n9 slave 0\n";
    assert!(rt;
        replays_so(
            rt.alloc(),
            REPLAY,
            &HELLO,
            &WRITES_AT_14,
            events,
            &NOT_COMMITTED
        )?
    );
    Ok(())
}

/// What is put where a task stops before a long write.
static STOPPED: [Line; 12] = [
    ("started 00010000", 1),
    ("stepped", 5),
    ("done met", 1),
    ("committed 5 dropped 0", 1),
    ("position 5", 1),
    ("tasks 1", 1),
    ("by-tasks 5", 1),
    ("serial 0", 1),
    ("squashed 0", 1),
    ("dropped 0", 1),
    ("end none", 1),
    ("output 0", 1),
];

#[test]
fn a_long_write_stops_a_task(rt: HostRuntime) -> Result<(), Fail> {
    let events = "1 restart\n6 slave 0\n1 commit\n";
    assert!(rt;
        replays_so(
            rt.alloc(),
            REPLAY,
            &WRITE_70_000,
            &WRITES_AT_14,
            events,
            &STOPPED
        )?
    );
    Ok(())
}

/// What is put where the second task showed another byte than the first stores.
static SQUASHED: [Line; 17] = [
    ("started 00010000", 1),
    ("moved", 2),
    ("forked 1", 1),
    ("stepped", 6),
    ("done met", 1),
    ("stepped", 2),
    ("done reached", 1),
    ("committed 3 dropped 0", 1),
    (
        "squashed byte 00020000 predicted 00000000 found 00000041",
        1,
    ),
    ("position 3", 1),
    ("tasks 1", 1),
    ("by-tasks 3", 1),
    ("serial 0", 1),
    ("squashed 1", 1),
    ("dropped 0", 1),
    ("end none", 1),
    ("output 0", 1),
];

#[test]
fn a_shown_byte_that_differs_squashes(rt: HostRuntime) -> Result<(), Fail> {
    let events = "1 restart\n3 master\n7 slave 1\n3 slave 0\n2 commit\n";
    assert!(rt;
        replays_so(
            rt.alloc(),
            REPLAY,
            &STORE_FOR_WRITE,
            &WRITES_AT_18,
            events,
            &SQUASHED
        )?
    );
    Ok(())
}

/// Whether a replay beside an image where tasks have so many steps leaves this status and line.
fn limited_so(alloc: Global, limit: u32, status: u8, line: &str) -> Result<bool, AllocError> {
    let mut words = WRITES_AT_14.to_vec(alloc)?;
    set(&mut words, 2, limit);
    let image = bytes_of(alloc, &words)?;
    let left = perform(alloc, REPLAY, &HELLO, &image, b"", b"")?;
    Ok(told_so(&left, status, line))
}

#[test]
fn a_task_of_version_2_has_4_096_steps_at_most(rt: HostRuntime) -> Result<(), Fail> {
    let alloc = rt.alloc();
    assert!(rt; limited_so(alloc, 4_096, 0, "")?);
    assert!(rt; limited_so(alloc, 4_097, 117, "mssp: image m: limit\n")?);
    Ok(())
}

/// The image of a program, by its profile with calls counted, or without. Tasks are to take 14 steps.
pub(crate) fn image_of(alloc: Global, program: &[u32], calls: &str) -> Result<Vec<u8>, AllocError> {
    let words = ["profile", "p", "r", "--calls", calls];
    let profile = perform(alloc, &words, program, b"", b"", b"")?.report;
    let words = [
        "distill", "p", "m", "r", "--rare", "0", "--hot", "2", "--goal", "14", "--limit", "64",
    ];
    Ok(perform(alloc, &words, program, &profile, b"", b"")?.report)
}

/// Whether the run of a program meets, by this line, what the image by its own profile assumes.
fn meets(alloc: Global, program: &[u32], calls: &str, line: &str) -> Result<bool, AllocError> {
    let image = image_of(alloc, program, calls)?;
    let left = perform(alloc, &["check", "p", "m"], program, &image, b"", b"")?;
    Ok(put_so(&left, 0, line.as_bytes()))
}

#[test]
fn a_run_meets_what_its_own_profile_gives(rt: HostRuntime) -> Result<(), Fail> {
    let alloc = rt.alloc();
    assert!(rt; meets(alloc, &HELLO, "1", "met 9\n")?);
    assert!(rt; meets(alloc, &HELLO, "0", "met 9\n")?);
    assert!(rt; meets(alloc, &PRINTS_TEN, "1", "met 74\n")?);
    assert!(rt; meets(alloc, &PRINTS_TEN, "0", "met 74\n")?);
    Ok(())
}

/// The report of a run whose tasks print ten bytes.
static TEN_PRINTED: [Line; 8] = [
    ("position 74", 1),
    ("tasks 6", 1),
    ("by-tasks 73", 1),
    ("serial 1", 1),
    ("squashed 0", 1),
    ("dropped 0", 1),
    ("end exit 0", 1),
    ("output 10", 1),
];

/// Whether a command left the ten bytes and this report.
fn left_ten(left: &Left, report: &[u8]) -> bool {
    reported_so(left, 0, report) && left.out.as_slice() == [0x93; 10].as_slice()
}

/// Whether a run beside the image that is made of its profile leaves the ten bytes and that report.
fn tasks_print_ten(alloc: Global) -> Result<bool, AllocError> {
    let want = text_of(alloc, &TEN_PRINTED)?;
    let image = image_of(alloc, &PRINTS_TEN, "1")?;
    let words = ["run", "p", "--image", "m", "--report", "r"];
    let left = perform(alloc, &words, &PRINTS_TEN, &image, b"", b"")?;
    Ok(left_ten(&left, &want))
}

#[test]
fn ten_bytes_are_printed_by_tasks(rt: HostRuntime) -> Result<(), Fail> {
    assert!(rt; tasks_print_ten(rt.alloc())?);
    Ok(())
}
