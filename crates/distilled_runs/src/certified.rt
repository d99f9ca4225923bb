//! `certify`: whether an image fits, and which rule it breaks first.

use crate::commands::{files, left_so, set};
use crate::printing::image_of;
use command_fixtures::outside_world::{Fails, Left, SURE, perform_over};
use std::alloc::{AllocError, Global};
use std::test::Fail;
use test_programs::images::*;
use test_programs::programs::*;

fn certify(alloc: Global, program: &[u32], image: &[u8], fails: Fails) -> Result<Left, AllocError> {
    let files = files(alloc, program, image, b"", b"")?;
    perform_over(alloc, &["certify", "p", "m"], files, fails)
}

/// Whether an image of these bytes is certified by this answer and status.
fn certified_so(
    alloc: Global,
    program: &[u32],
    image: &[u8],
    answer: &str,
    status: u8,
) -> Result<bool, AllocError> {
    let left = certify(alloc, program, image, SURE)?;
    Ok(left_so(&left, answer.as_bytes(), status, ""))
}

/// Whether an image of these words is.
fn words_certified_so(
    alloc: Global,
    program: &[u32],
    image: &[u32],
    answer: &str,
    status: u8,
) -> Result<bool, AllocError> {
    let image = bytes_of(alloc, image)?;
    certified_so(alloc, program, &image, answer, status)
}

/// Whether the image of the compare that is never true breaks rule 7 where nothing is needed at 0x0001000C.
fn a_need_is_missed(alloc: Global) -> Result<bool, AllocError> {
    let mut words = COMPARE_NEVER_TRUE.to_vec(alloc)?;
    set(&mut words, 49, 0);
    words_certified_so(alloc, &COMPARE_LOOP, &words, "unfit 0001000c rule 7\n", 1)
}

/// The image of the compare that is never true, without the branch's cut side.
fn without_its_cut(alloc: Global) -> Result<Vec<u32>, AllocError> {
    let mut words = COMPARE_NEVER_TRUE[..70].to_vec(alloc)?;
    words.extend_from_slice(&COMPARE_NEVER_TRUE[74..])?;
    set(&mut words, 6, 3);
    Ok(words)
}

/// Whether that image breaks rule 4.
fn a_cut_is_missed(alloc: Global) -> Result<bool, AllocError> {
    let words = without_its_cut(alloc)?;
    words_certified_so(alloc, &COMPARE_LOOP, &words, "unfit 00010008 rule 4\n", 1)
}

/// Whether the image that is made of a program that prints fits it.
fn a_made_image_fits(alloc: Global) -> Result<bool, AllocError> {
    let image = image_of(alloc, &HELLO, "1")?;
    certified_so(alloc, &HELLO, &image, "fits\n", 0)
}

#[test]
fn images_fit_or_break_a_rule(rt: HostRuntime) -> Result<(), Fail> {
    let alloc = rt.alloc();
    assert!(rt; words_certified_so(alloc, &COMPARE_LOOP, &COMPARE_NEVER_TRUE, "fits\n", 0)?);
    let answer = "unfit 00000000 rule 1\n";
    assert!(rt; words_certified_so(alloc, &TEN_TURNS_LOOP, &TEN_TURNS, answer, 1)?);
    assert!(rt; a_need_is_missed(alloc)?);
    assert!(rt; a_cut_is_missed(alloc)?);
    assert!(rt; a_made_image_fits(alloc)?);
    Ok(())
}

/// Whether a command where these calls fail leaves this status and line.
fn faults_so(
    alloc: Global,
    store: u64,
    out: u64,
    status: u8,
    line: &str,
) -> Result<bool, AllocError> {
    let image = bytes_of(alloc, &COMPARE_NEVER_TRUE)?;
    let left = certify(alloc, &COMPARE_LOOP, &image, Fails { store, out, err: 0 })?;
    Ok(left_so(&left, b"", status, line))
}

#[test]
fn refusals_and_faults_of_certify_are_told(rt: HostRuntime) -> Result<(), Fail> {
    let alloc = rt.alloc();
    assert!(rt; faults_so(alloc, 1, 0, 112, "mssp: store fault p\n")?);
    assert!(rt; faults_so(alloc, 2, 0, 112, "mssp: store fault m\n")?);
    assert!(rt; faults_so(alloc, 0, 1, 113, "mssp: sink fault\n")?);
    let left = certify(alloc, &COMPARE_LOOP, b"MSSP", SURE)?;
    assert!(rt; left_so(&left, b"", 117, "mssp: image m: short\n"));
    Ok(())
}
