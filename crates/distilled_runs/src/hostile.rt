//! Images that mean no good, event by event, and an output that tears.

use crate::commands::{Line, REPLAY, files, left_so, replays_so, told_so};
use command_fixtures::outside_world::{Fails, Files, Left, SURE, perform_over, perform_torn};
use std::alloc::{AllocError, Global};
use std::test::Fail;
use test_programs::hostile_images::*;
use test_programs::images::*;
use test_programs::programs::*;

const SPENT_EVENTS: &str = "1 serial
1 restart
69 master
2 slave 0
1 commit
1 restart
";

/// What is put of them.
static SPENT: [Line; 16] = [
    ("stepped", 1),
    ("started 00010004", 1),
    ("moved", 68),
    ("halted spent", 1),
    ("stepped", 1),
    ("done reached", 1),
    ("committed 2 dropped 0", 1),
    ("idle", 1),
    ("position 3", 1),
    ("tasks 1", 1),
    ("by-tasks 2", 1),
    ("serial 1", 1),
    ("squashed 0", 1),
    ("dropped 0", 1),
    ("end none", 1),
    ("output 0", 1),
];

#[test]
fn a_master_that_never_forks_is_spent(rt: HostRuntime) -> Result<(), Fail> {
    assert!(rt;
        replays_so(
            rt.alloc(),
            REPLAY,
            &TEN_TURNS_LOOP,
            &SPENT_BEHIND_A_FORK,
            SPENT_EVENTS,
            &SPENT
        )?
    );
    Ok(())
}

const FORKED_EVENTS: &str = "1 serial
1 restart
6 master
2 slave 0
2 slave 1
2 commit
";

/// What is put of them.
static FORKED: [Line; 22] = [
    ("stepped", 1),
    ("started 00010004", 1),
    ("forked 1", 1),
    ("moved", 1),
    ("forked 2", 1),
    ("forked 3", 1),
    ("moved", 1),
    ("stalled", 1),
    ("stepped", 1),
    ("done reached", 1),
    ("stepped", 1),
    ("done reached", 1),
    ("committed 2 dropped 0", 1),
    ("squashed x5 predicted 0000000a found 00000009", 1),
    ("position 3", 1),
    ("tasks 1", 1),
    ("by-tasks 2", 1),
    ("serial 1", 1),
    ("squashed 1", 1),
    ("dropped 0", 1),
    ("end none", 1),
    ("output 0", 1),
];

#[test]
fn tasks_at_one_pc_are_squashed_by_their_values(rt: HostRuntime) -> Result<(), Fail> {
    assert!(rt;
        replays_so(
            rt.alloc(),
            REPLAY,
            &TEN_TURNS_LOOP,
            &TWO_FORKS_AT_ONE_PC,
            FORKED_EVENTS,
            &FORKED
        )?
    );
    Ok(())
}

const SINK_FAULT: &str = "mssp: sink fault\n";

/// A program, an image and the events that lead to tasks at one pc.
fn forked(alloc: Global, program: &[u32], image: &[u32]) -> Result<Files, AllocError> {
    let image = bytes_of(alloc, image)?;
    files(alloc, program, &image, FORKED_EVENTS.as_bytes(), b"")
}

/// Whether a run of a program that writes three bytes, with room for two, leaves those.
fn two_bytes_fit(alloc: Global) -> Result<bool, AllocError> {
    let left = perform_torn(alloc, &["run", "p"], forked(alloc, &HELLO, &TEN_TURNS)?, 2)?;
    Ok(left_so(&left, b"hi", 113, SINK_FAULT))
}

/// Whether a fault of the output is told, where what was put before it is a beginning of the whole.
fn is_told(left: &Left, whole: &[u8]) -> bool {
    told_so(left, 113, SINK_FAULT) && whole.starts_with(&left.out)
}

/// Whether that beginning has so many bytes.
fn is_torn(left: &Left, whole: &[u8], room: usize) -> bool {
    is_told(left, whole) && left.out.len() == room
}

/// Whether a command with room for so many bytes leaves as many of the whole.
fn torn_so(alloc: Global, words: &[&str], whole: &[u8], room: usize) -> Result<bool, AllocError> {
    let files = forked(alloc, &TEN_TURNS_LOOP, &TEN_TURNS)?;
    let left = perform_torn(alloc, words, files, room as u64)?;
    Ok(is_torn(&left, whole, room))
}

/// Whether a command that puts lines, torn at each byte, leaves a beginning of the whole.
fn each_beginning_is_left(alloc: Global, words: &[&str]) -> Result<bool, AllocError> {
    let files = forked(alloc, &TEN_TURNS_LOOP, &TEN_TURNS)?;
    let whole = perform_over(alloc, words, files, SURE)?.out;
    let mut is_left = true;
    for room in 0..whole.len() {
        is_left = is_left && torn_so(alloc, words, &whole, room)?;
    }
    Ok(is_left)
}

#[test]
fn a_torn_output_holds_what_fits(rt: HostRuntime) -> Result<(), Fail> {
    let alloc = rt.alloc();
    assert!(rt; two_bytes_fit(alloc)?);
    assert!(rt; each_beginning_is_left(alloc, REPLAY)?);
    assert!(rt; each_beginning_is_left(alloc, &["show", "m"])?);
    assert!(rt; each_beginning_is_left(alloc, &["check", "p", "m"])?);
    assert!(rt; each_beginning_is_left(alloc, &["certify", "p", "m"])?);
    Ok(())
}

/// Performs a command over a program that prints twice, where this call of the output fails.
fn put(alloc: Global, words: &[&str], out: u64) -> Result<Left, AllocError> {
    let files = forked(alloc, &HELLO_TWICE, &EXIT_7_CALL)?;
    perform_over(alloc, words, files, Fails { out, ..SURE })
}

/// Whether a command that puts something, and has this status where nothing fails, tells of each put that
/// fails; there are fewer than 63.
fn each_fault_is_told(alloc: Global, words: &[&str], status: u8) -> Result<bool, AllocError> {
    let whole = put(alloc, words, 0)?;
    let mut told = whole.status == status;
    let mut failed = 0;
    for out in 1..64 {
        let left = put(alloc, words, out)?;
        if left.status == status {
            break;
        }
        failed = out;
        told = told && is_told(&left, &whole.out);
    }
    Ok(told && 0 < failed && failed < 63)
}

#[test]
fn each_put_fails_in_turn(rt: HostRuntime) -> Result<(), Fail> {
    let alloc = rt.alloc();
    assert!(rt; each_fault_is_told(alloc, &["run", "p"], 0)?);
    assert!(rt; each_fault_is_told(alloc, REPLAY, 0)?);
    assert!(rt; each_fault_is_told(alloc, &["show", "m"], 0)?);
    assert!(rt; each_fault_is_told(alloc, &["check", "p", "m"], 0)?);
    assert!(rt; each_fault_is_told(alloc, &["certify", "p", "m"], 1)?);
    Ok(())
}
