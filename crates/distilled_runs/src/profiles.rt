//! `profile`, `distill` and `check`: from a run to an image of its program, and to what the image
//! assumes.

use crate::commands::{files, left_report, left_so, perform, set};
use command_fixtures::outside_world::{Fails, perform_over};
use std::alloc::{AllocError, Global};
use std::test::Fail;
use test_programs::images::*;
use test_programs::profiles::COMPARE_LOOP_PROFILE;
use test_programs::programs::*;

/// Whether a command that makes a profile leaves this status and line, and a profile of these numbers, where
/// the first call of the output and this call of the store fail.
fn profiled_so(
    alloc: Global,
    store: u64,
    status: u8,
    line: &str,
    numbers: &[u32],
) -> Result<bool, AllocError> {
    let fails = Fails {
        store,
        out: 1,
        err: 0,
    };
    let want = bytes_of(alloc, numbers)?;
    let files = files(alloc, &COMPARE_LOOP, b"", b"", b"")?;
    let left = perform_over(alloc, &["profile", "p", "r"], files, fails)?;
    Ok(left_report(&left, status, line, &want))
}

#[test]
fn a_profile_is_written_or_a_fault_is_told(rt: HostRuntime) -> Result<(), Fail> {
    let alloc = rt.alloc();
    assert!(rt; profiled_so(alloc, 0, 0, "", &COMPARE_LOOP_PROFILE)?);
    assert!(rt; profiled_so(alloc, 2, 112, "mssp: store fault r\n", &[])?);
    Ok(())
}

/// Whether a command that makes an image of the loop by this profile leaves this status, line and image.
fn distilled_so(
    alloc: Global,
    profile: &[u32],
    status: u8,
    line: &str,
    image: &[u8],
) -> Result<bool, AllocError> {
    let words = [
        "distill", "p", "m", "r", "--rare", "0", "--hot", "2", "--goal", "8", "--limit", "64",
    ];
    let profile = bytes_of(alloc, profile)?;
    let left = perform(alloc, &words, &COMPARE_LOOP, &profile, b"", b"")?;
    Ok(left_report(&left, status, line, image))
}

/// Whether the image by its own profile is the one without the compare, of 344 bytes.
fn is_distilled(alloc: Global) -> Result<bool, Fail> {
    let want = written(alloc, &COMPARE_NEVER_TRUE)?;
    Ok(want.len() == 344 && distilled_so(alloc, &COMPARE_LOOP_PROFILE, 0, "", &want)?)
}

/// Whether its own profile is refused where it has a step more.
fn a_longer_run_is_refused(alloc: Global) -> Result<bool, AllocError> {
    let mut longer = COMPARE_LOOP_PROFILE.to_vec(alloc)?;
    set(&mut longer, 2, 46);
    distilled_so(alloc, &longer, 118, "mssp: profile m: sum\n", b"")
}

#[test]
fn a_profile_is_distilled_or_refused(rt: HostRuntime) -> Result<(), Fail> {
    let alloc = rt.alloc();
    assert!(rt; is_distilled(alloc)?);
    let empty = [0x4650534D, 1, 0, 0, 0, 0];
    assert!(rt; distilled_so(alloc, &empty, 118, "mssp: profile m: empty\n", b"")?);
    assert!(rt; a_longer_run_is_refused(alloc)?);
    Ok(())
}

/// An image that assumes of a branch that it is never taken, and nothing else.
static NEVER_TAKEN: [u32; 11] = [0x5053534D, 1, 64, 0, 0, 0, 1, 0, 0x1001C, 1, 0];

/// Whether a run with the input `A` is checked by this answer and status.
fn checked_so(
    alloc: Global,
    program: &[u32],
    image: &[u32],
    answer: &str,
    status: u8,
) -> Result<bool, AllocError> {
    let words = ["check", "p", "m", "--input", "i"];
    let image = bytes_of(alloc, image)?;
    let left = perform(alloc, &words, program, &image, b"", b"A")?;
    Ok(left_so(&left, answer.as_bytes(), status, ""))
}

#[test]
fn a_run_is_checked(rt: HostRuntime) -> Result<(), Fail> {
    let alloc = rt.alloc();
    assert!(rt; checked_so(alloc, &COMPARE_LOOP, &COMPARE_NEVER_TRUE, "met 45\n", 0)?);
    assert!(rt;
        checked_so(
            alloc,
            &INPUT_DECIDES,
            &NEVER_TAKEN,
            "broken 7 cut 0001001c\n",
            1
        )?
    );
    assert!(rt; checked_so(alloc, &EXIT_7, &NEVER_TAKEN, "met 3\n", 0)?);
    Ok(())
}
