//! `show`, over images that are accepted and refused.

use crate::left::{leaves_so, set, told_so};
use command_fixtures::outside_world::{Fails, Left, SURE, perform};
use std::alloc::{AllocError, Global};
use std::test::Fail;
use test_programs::images::*;
use test_programs::programs::bytes_of;

const SHOW: &[&str] = &["show", "p"];

/// Whether an image is shown by this text, this status and this line.
fn shown_so(
    alloc: Global,
    image: Vec<u8>,
    text: &str,
    status: u8,
    line: &str,
) -> Result<bool, AllocError> {
    leaves_so(
        alloc,
        SHOW,
        image,
        Vec::new(alloc),
        SURE,
        (text, status, line),
    )
}

/// Whether the distilled image, of 344 bytes, is shown by its text.
fn is_shown(alloc: Global) -> Result<bool, Fail> {
    let image = written(alloc, &COMPARE_NEVER_TRUE)?;
    if image.len() != 344 {
        return Ok(false);
    }
    Ok(shown_so(alloc, image, COMPARE_NEVER_TRUE_TEXT, 0, "")?)
}

#[test]
fn shows_a_distilled_image(rt: HostRuntime) -> Result<(), Fail> {
    assert!(rt; is_shown(rt.alloc())?);
    Ok(())
}

/// An image where the pcs and slots of the first two notes are exchanged.
fn with_exchanged_notes(alloc: Global) -> Result<Vec<u8>, AllocError> {
    let mut numbers = TEN_TURNS.to_vec(alloc)?;
    numbers.swap(31, 35);
    numbers.swap(32, 36);
    bytes_of(alloc, &numbers)
}

/// Whether it is refused.
fn exchanged_notes_are_refused(alloc: Global) -> Result<bool, AllocError> {
    let image = with_exchanged_notes(alloc)?;
    shown_so(alloc, image, "", 117, "mssp: image p: order notes 1\n")
}

#[test]
fn notes_that_are_exchanged_are_refused(rt: HostRuntime) -> Result<(), Fail> {
    assert!(rt; exchanged_notes_are_refused(rt.alloc())?);
    Ok(())
}

/// Whether a command left this status and line, and a text unless it refused the image.
fn is_refused_or_shown(left: &Left, status: u8, line: &str) -> bool {
    told_so(left, status, line) && left.out.is_empty() == (status == 117)
}

/// Whether an image of these bytes leaves that.
fn bytes_so(alloc: Global, image: Vec<u8>, status: u8, line: &str) -> Result<bool, AllocError> {
    let left = perform(alloc, SHOW, image, Vec::new(alloc), SURE)?;
    Ok(is_refused_or_shown(&left, status, line))
}

/// Whether an image that is made so long does.
fn length_so(alloc: Global, length: usize, status: u8, line: &str) -> Result<bool, Fail> {
    let mut image = written(alloc, &TEN_TURNS)?;
    image.resize(length, 0)?;
    Ok(bytes_so(alloc, image, status, line)?)
}

static AN_IMAGE_HAS_ITS_LENGTH_CASES: [(usize, u8, &str); 3] = [
    (220, 0, ""),
    (219, 117, "mssp: image p: short\n"),
    (221, 117, "mssp: image p: long\n"),
];

#[test]
fn an_image_has_its_length(rt: HostRuntime) -> Result<(), Fail> {
    let alloc = rt.alloc();
    for &(length, status, line) in &AN_IMAGE_HAS_ITS_LENGTH_CASES {
        assert!(rt; length_so(alloc, length, status, line)?, "{length}");
    }
    Ok(())
}

/// The distilled image with other numbers at some places.
fn changed(alloc: Global, changes: &[(usize, u32)]) -> Result<Vec<u8>, AllocError> {
    let mut numbers = COMPARE_NEVER_TRUE.to_vec(alloc)?;
    for &(place, number) in changes {
        set(&mut numbers, place, number);
    }
    bytes_of(alloc, &numbers)
}

static A_REFUSED_IMAGE_IS_TOLD_BY_ITS_FIRST_FAULT_CASES: [(&[(usize, u32)], &str); 21] = [
    (&[(0, 0x4D53_5350)], "mssp: image p: magic\n"),
    (&[(1, 3)], "mssp: image p: version\n"),
    (&[(2, 15)], "mssp: image p: limit\n"),
    (&[(3, 1_048_577)], "mssp: image p: too many slots\n"),
    (&[(4, 524_289)], "mssp: image p: too many anchors\n"),
    (&[(5, 524_289)], "mssp: image p: too many notes\n"),
    (&[(6, 1_048_577)], "mssp: image p: too many assumptions\n"),
    (
        &[(70, 1), (72, 0), (73, 1_048_577)],
        "mssp: image p: too many targets\n",
    ),
    (&[(13, 3)], "mssp: image p: kind slots 2\n"),
    (&[(72, 2)], "mssp: image p: kind assumptions 0\n"),
    (&[(11, 0x10001)], "mssp: image p: range slots 1\n"),
    (&[(30, 65)], "mssp: image p: range anchors 0\n"),
    (&[(68, 1)], "mssp: image p: range notes 8\n"),
    (&[(71, 0x1000A)], "mssp: image p: range assumptions 0\n"),
    (
        &[(70, 1), (72, 0), (73, 1)],
        "mssp: image p: range targets 0\n",
    ),
    (&[(31, 0x10000)], "mssp: image p: order anchors 1\n"),
    (&[(38, 0x10000)], "mssp: image p: order notes 1\n"),
    (&[(78, 3)], "mssp: image p: order assumptions 2\n"),
    (
        &[(70, 1), (72, 0), (73, 2), (74, 8), (75, 8)],
        "mssp: image p: order targets 0\n",
    ),
    (&[(6, 3)], "mssp: image p: long\n"),
    (&[(6, 5)], "mssp: image p: short\n"),
];

/// Whether the distilled image with these changes is refused by this line.
fn refused_so(alloc: Global, changes: &[(usize, u32)], line: &str) -> Result<bool, AllocError> {
    let image = changed(alloc, changes)?;
    shown_so(alloc, image, "", 117, line)
}

#[test]
fn a_refused_image_is_told_by_its_first_fault(rt: HostRuntime) -> Result<(), Fail> {
    let alloc = rt.alloc();
    // places of numbers, with what is put there
    for &(changes, line) in &A_REFUSED_IMAGE_IS_TOLD_BY_ITS_FIRST_FAULT_CASES {
        assert!(rt; refused_so(alloc, changes, line)?, "{line}");
    }
    Ok(())
}

/// Whether a command left so many bytes of a text, and this status and line.
fn left_beginning(left: &Left, text: &str, put: usize, status: u8, line: &str) -> bool {
    told_so(left, status, line) && left.out.len() == put && text.as_bytes().starts_with(&left.out)
}

/// Whether a command over the distilled image leaves that of its text where these calls fail.
fn text_stops_so(
    alloc: Global,
    image: Vec<u8>,
    fails: Fails,
    put: usize,
    status: u8,
    line: &str,
) -> Result<bool, AllocError> {
    let left = perform(alloc, SHOW, image, Vec::new(alloc), fails)?;
    Ok(left_beginning(&left, COMPARE_NEVER_TRUE_TEXT, put, status, line))
}

/// Whether the text of the distilled image stops so where these calls fail.
fn stops_so(alloc: Global, fails: Fails, put: usize, status: u8, line: &str) -> Result<bool, Fail> {
    let image = written(alloc, &COMPARE_NEVER_TRUE)?;
    Ok(text_stops_so(alloc, image, fails, put, status, line)?)
}

// the numbers of the calls of the store, the output and the line that fail, and the bytes that were put
static FAULTS_OF_THE_OUTSIDE_STOP_THE_TEXT_CASES: [([u64; 3], usize, u8, &str); 6] = [
    ([1, 0, 0], 0, 112, "mssp: store fault p\n"),
    ([1, 1, 1], 0, 112, ""),
    ([0, 1, 0], 0, 113, "mssp: sink fault\n"),
    ([0, 2, 0], 9, 113, "mssp: sink fault\n"),
    ([0, 2, 1], 9, 113, ""),
    ([2, 6, 1], 736, 0, ""),
];

#[test]
fn faults_of_the_outside_stop_the_text(rt: HostRuntime) -> Result<(), Fail> {
    let alloc = rt.alloc();
    for &([store, out, err], put, status, line) in &FAULTS_OF_THE_OUTSIDE_STOP_THE_TEXT_CASES {
        let fails = Fails { store, out, err };
        assert!(rt;
            stops_so(alloc, fails, put, status, line)?,
            "{store} {out} {err}"
        );
    }
    Ok(())
}

/// Whether an image longer than the limit is told to be too long, and nothing is put.
fn is_too_long(alloc: Global) -> Result<bool, AllocError> {
    let image = vec![in alloc; 0u8; 67_108_865]?;
    shown_so(alloc, image, "", 115, "mssp: too long p\n")
}

#[test]
fn an_image_is_read_up_to_its_limit(rt: HostRuntime) -> Result<(), Fail> {
    assert!(rt; is_too_long(rt.alloc())?);
    Ok(())
}
