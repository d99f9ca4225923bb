//! `values`, and `distill` with a list of values: loads that gave one value become constants, and what
//! the image lists of them is checked.

use crate::commands::{files, left_report, left_so, perform, put_so, store_fault_so};
use command_fixtures::outside_world::{Fails, Left, perform_over};
use std::alloc::{AllocError, Global};
use std::test::Fail;
use test_programs::profiles::COMPARE_LOOP_PROFILE;
use test_programs::programs::*;

/// The word that begins every list of values.
const MAGIC: u32 = 0x5650534D;

/// The numbers of a profile of a run without steps.
const EMPTY: &[u32] = &[0x4650534D, 1, 0, 0, 0, 0];

/// A list of no values.
const NO_VALUES: &[u32] = &[MAGIC, 1, 0];

/// A list of another version.
const OTHER_VERSION: &[u32] = &[MAGIC, 2, 0];

/// The list of values of [`ONE_VALUE`].
static ONE_VALUE_ROWS: [u32; 5] = [MAGIC, 1, 1, 0x10008, 0];

/// Four loads, each executed once: of a word to which no one word sets a register, of a byte to register
/// 0, of a byte with its sign, and of a byte without it.
static FOUR_LOADS: [u32; 8] = [
    0x00000397, 0x01C3A303, 0x01C38003, 0x01C38303, 0x01D3C303, 0x05D00893, 0x00000073, 0x123456FF,
];

/// The profile or the values of a program's run, by which command is named.
fn found(alloc: Global, command: &str, program: &[u32]) -> Result<Left, AllocError> {
    let words = [command, "p", "r", "--input", "i"];
    perform(alloc, &words, program, b"", b"", b"")
}

/// The image of a program by the profile of its run, with this list of values.
fn image_with(alloc: Global, program: &[u32], values: &[u8]) -> Result<Vec<u8>, AllocError> {
    let profile = found(alloc, "profile", program)?.report;
    let words = ["distill", "p", "m", "r", "--values", "e", "--rare", "0"];
    Ok(perform(alloc, &words, program, &profile, values, b"")?.report)
}

/// The image of a program with a list of values of these numbers.
fn image_with_rows(alloc: Global, program: &[u32], rows: &[u32]) -> Result<Vec<u8>, AllocError> {
    let values = bytes_of(alloc, rows)?;
    image_with(alloc, program, &values)
}

/// What a command puts that reads a program and this image.
fn told(
    alloc: Global,
    command: &str,
    program: &[u32],
    image: &[u8],
    input: &str,
) -> Result<Left, AllocError> {
    let words = [command, "p", "m", "--input", "i"];
    perform(alloc, &words, program, image, b"", input.as_bytes())
}

/// Whether a program's run has a list of values of these numbers.
fn listed_so(alloc: Global, program: &[u32], rows: &[u32]) -> Result<bool, AllocError> {
    let want = bytes_of(alloc, rows)?;
    let left = found(alloc, "values", program)?;
    Ok(left_report(&left, 0, "", &want))
}

#[test]
fn loads_of_one_value_are_listed(rt: HostRuntime) -> Result<(), Fail> {
    let alloc = rt.alloc();
    assert!(rt; listed_so(alloc, &ONE_VALUE, &ONE_VALUE_ROWS)?);
    assert!(rt; listed_so(alloc, &HELLO, NO_VALUES)?);
    let rows = [MAGIC, 1, 2, 0x1000C, 0xFFFF_FFFF, 0x10010, 0x56];
    assert!(rt; listed_so(alloc, &FOUR_LOADS, &rows)?);
    assert!(rt; listed_so(alloc, &REPLACES_A_LOAD, NO_VALUES)?);
    assert!(rt; listed_so(alloc, &INPUT_DECIDES, &[MAGIC, 1, 1, 0x10014, 0])?);
    Ok(())
}

/// Whether the text of an image ends in the list that has a load's value.
fn is_shown(alloc: Global, image: &[u8]) -> Result<bool, AllocError> {
    let left = perform(alloc, &["show", "m"], &ONE_VALUE, image, b"", b"")?;
    Ok(
        left.out
            .ends_with(b"\ncode\nwithin\nspan\nsame 00010008 00000000\n"),
    )
}

/// Whether an image fits the loop that loads one value.
fn fits(alloc: Global, image: &[u8]) -> Result<bool, AllocError> {
    let left = perform(alloc, &["certify", "p", "m"], &ONE_VALUE, image, b"", b"")?;
    Ok(left.out.as_slice() == "fits\n".as_bytes())
}

/// Whether the run of that loop is checked by this answer and status.
fn checked_so(alloc: Global, image: &[u8], answer: &str, status: u8) -> Result<bool, AllocError> {
    let left = told(alloc, "check", &ONE_VALUE, image, "")?;
    Ok(put_so(&left, status, answer.as_bytes()))
}

/// An image with the value 1 in its end, behind which the number of targets ends the file.
fn with_value_1(image: &mut Vec<u8>) -> Result<(), AllocError> {
    image.truncate(image.len().saturating_sub(8));
    image.extend_from_slice(&[1, 0, 0, 0, 0, 0, 0, 0])
}

#[test]
fn a_load_becomes_a_constant_and_is_checked(rt: HostRuntime) -> Result<(), Fail> {
    let alloc = rt.alloc();
    let mut image = image_with_rows(alloc, &ONE_VALUE, &ONE_VALUE_ROWS)?;
    assert!(rt; is_shown(alloc, &image)?);
    assert!(rt; fits(alloc, &image)?);
    assert!(rt; checked_so(alloc, &image, "met 45\n", 0)?);
    with_value_1(&mut image)?;
    assert!(rt; checked_so(alloc, &image, "broken 2 same 00010008\n", 1)?);
    Ok(())
}

/// The image of the program whose input decides, with the list of values of its run without input.
fn image_without_input(alloc: Global) -> Result<Vec<u8>, AllocError> {
    let values = found(alloc, "values", &INPUT_DECIDES)?.report;
    image_with(alloc, &INPUT_DECIDES, &values)
}

/// Whether a run with this input is checked by an answer that begins so, and by this status.
fn answer_begins_so(
    alloc: Global,
    image: &[u8],
    input: &str,
    answer: &str,
    status: u8,
) -> Result<bool, AllocError> {
    let left = told(alloc, "check", &INPUT_DECIDES, image, input)?;
    Ok(left.out.starts_with(answer.as_bytes()) && left.status == status)
}

/// Whether a run with this input beside that image has this status.
fn runs_so(alloc: Global, image: &[u8], input: &str, status: u8) -> Result<bool, AllocError> {
    let words = ["run", "p", "--input", "i", "--image", "m", "--report", "r"];
    let left = perform(alloc, &words, &INPUT_DECIDES, image, b"", input.as_bytes())?;
    Ok(left.status == status)
}

#[test]
fn another_input_loads_another_value(rt: HostRuntime) -> Result<(), Fail> {
    let alloc = rt.alloc();
    let image = image_without_input(alloc)?;
    assert!(rt; answer_begins_so(alloc, &image, "", "met ", 0)?);
    assert!(rt; answer_begins_so(alloc, &image, "A", "broken 5 same 00010014\n", 1)?);
    assert!(rt; runs_so(alloc, &image, "", 0)?);
    assert!(rt; runs_so(alloc, &image, "A", 5)?);
    Ok(())
}

/// The image of the four loads without a list of values.
fn image_of_four_loads(alloc: Global) -> Result<Vec<u8>, AllocError> {
    let profile = found(alloc, "profile", &FOUR_LOADS)?.report;
    let words = ["distill", "p", "m", "r", "--rare", "0"];
    Ok(perform(alloc, &words, &FOUR_LOADS, &profile, b"", b"")?.report)
}

/// Whether the image of the four loads is the same with a list of these numbers.
fn play_no_part(alloc: Global, rows: &[u32]) -> Result<bool, AllocError> {
    let without = image_of_four_loads(alloc)?;
    Ok(image_with_rows(alloc, &FOUR_LOADS, rows)? == without)
}

/// Whether the image of the loop that loads one value is another one with the list of that value.
fn plays_a_part(alloc: Global) -> Result<bool, AllocError> {
    let unset = image_with_rows(alloc, &ONE_VALUE, NO_VALUES)?;
    Ok(image_with_rows(alloc, &ONE_VALUE, &ONE_VALUE_ROWS)? != unset)
}

#[test]
fn values_of_no_analysed_load_play_no_part(rt: HostRuntime) -> Result<(), Fail> {
    let alloc = rt.alloc();
    assert!(rt; play_no_part(alloc, NO_VALUES)?);
    // an instruction that is no load, a load of register 0, and a pc that isn't executed
    let rows = [MAGIC, 1, 3, 0x10000, 5, 0x10008, 0, 0x20000, 0];
    assert!(rt; play_no_part(alloc, &rows)?);
    // nor does a load that nothing needs, but one that is needed does
    assert!(rt; play_no_part(alloc, &[MAGIC, 1, 1, 0x1000C, 0xFFFF_FFFF])?);
    assert!(rt; plays_a_part(alloc)?);
    Ok(())
}

/// Lists of values, and the lines by which they are refused.
static REFUSED_LISTS: [(&[u8], &str); 8] = [
    (b"MSPV\x01\0\0\0\0\0\0", "mssp: values e: short\n"),
    (
        b"MSPV\x01\0\0\0\x01\0\0\0\x08\0\x01\0\0\0\0",
        "mssp: values e: short\n",
    ),
    (b"MSPF\x02\0\0\0\0\0\0\0", "mssp: values e: magic\n"),
    (b"MSPV\x02\0\0\0\x01\0\x08\0", "mssp: values e: version\n"),
    (b"MSPV\x01\0\0\0\x01\0\x08\0", "mssp: values e: too many\n"),
    (
        b"MSPV\x01\0\0\0\x01\0\0\0\x08\0\x01\0\x01\x08\0\0",
        "mssp: values e: range 0\n",
    ),
    (
        b"MSPV\x01\0\0\0\x02\0\0\0\x08\0\0\0\0\0\0\0\x08\0\0\0\0\0\0\0",
        "mssp: values e: order 1\n",
    ),
    (b"MSPV\x01\0\0\0\0\0\0\0\0", "mssp: values e: long\n"),
];

/// Whether a list of values is refused by this line, with no image.
fn refused_so(alloc: Global, values: &[u8], line: &str) -> Result<bool, AllocError> {
    let profile = bytes_of(alloc, &COMPARE_LOOP_PROFILE)?;
    let words = ["distill", "p", "m", "r", "--values", "e"];
    let left = perform(alloc, &words, &COMPARE_LOOP, &profile, values, b"")?;
    Ok(left_report(&left, 123, line, b""))
}

#[test]
fn lists_of_values_are_refused(rt: HostRuntime) -> Result<(), Fail> {
    let alloc = rt.alloc();
    for &(values, line) in &REFUSED_LISTS {
        assert!(rt; refused_so(alloc, values, line)?, "{line}");
    }
    Ok(())
}

/// Whether `distill` over the files of these names, a program and a list, leaves this status and line; its
/// profile and the list `e` have these numbers.
fn distils_so(
    alloc: Global,
    [program, list]: [&str; 2],
    profile: &[u32],
    values: &[u32],
    status: u8,
    line: &str,
) -> Result<bool, AllocError> {
    let words = ["distill", program, "m", "r", "--values", list];
    let profile = bytes_of(alloc, profile)?;
    let values = bytes_of(alloc, values)?;
    let left = perform(alloc, &words, &COMPARE_LOOP, &profile, &values, b"")?;
    Ok(left_so(&left, b"", status, line))
}

/// The names of a program and a list, the numbers of a profile and of the list `e`, and what `distill` leaves
/// of them.
static EARLIER_FILES: [([&str; 2], &[u32], &[u32], u8, &str); 6] = [
    (
        ["i", "e"],
        &[],
        OTHER_VERSION,
        116,
        "mssp: program i: short\n",
    ),
    (
        ["p", "e"],
        &[],
        OTHER_VERSION,
        118,
        "mssp: profile m: short\n",
    ),
    (
        ["p", "e"],
        EMPTY,
        OTHER_VERSION,
        123,
        "mssp: values e: version\n",
    ),
    (
        ["p", "e"],
        EMPTY,
        NO_VALUES,
        118,
        "mssp: profile m: empty\n",
    ),
    (["v", "e"], EMPTY, NO_VALUES, 111, "mssp: absent v\n"),
    (["p", "v"], EMPTY, &[], 111, "mssp: absent v\n"),
];

#[test]
fn earlier_files_are_refused_first(rt: HostRuntime) -> Result<(), Fail> {
    let alloc = rt.alloc();
    for &(names, profile, values, status, line) in &EARLIER_FILES {
        assert!(rt;
            distils_so(alloc, names, profile, values, status, line)?,
            "{line}"
        );
    }
    assert!(rt; distils_so(alloc, ["p", "e"], &COMPARE_LOOP_PROFILE, NO_VALUES, 0, "")?);
    Ok(())
}

/// Words of a command, the call of the store that fails, and the name that is told.
static STORE_FAULTS: [(&[&str], u64, &str); 7] = [
    (&["values", "p", "r", "--input", "i"], 1, "p"),
    (&["values", "p", "r", "--input", "i"], 2, "i"),
    (&["values", "p", "r", "--input", "i"], 3, "r"),
    (&["distill", "p", "m", "r", "--values", "e"], 1, "p"),
    (&["distill", "p", "m", "r", "--values", "e"], 2, "m"),
    (&["distill", "p", "m", "r", "--values", "e"], 3, "e"),
    (&["distill", "p", "m", "r", "--values", "e"], 4, "r"),
];

/// Whether a command over a profile and a list of no values, where the first call of the output and this call
/// of the store fail, tells the fault by this file's name, and leaves no report.
fn faults_so(alloc: Global, words: &[&str], store: u64, name: &str) -> Result<bool, AllocError> {
    let fails = Fails {
        store,
        out: 1,
        err: 0,
    };
    let profile = bytes_of(alloc, &COMPARE_LOOP_PROFILE)?;
    let values = bytes_of(alloc, NO_VALUES)?;
    let files = files(alloc, &COMPARE_LOOP, &profile, &values, b"")?;
    let left = perform_over(alloc, words, files, fails)?;
    store_fault_so(alloc, &left, name)
}

#[test]
fn faults_of_the_store_are_told(rt: HostRuntime) -> Result<(), Fail> {
    let alloc = rt.alloc();
    for &(words, store, name) in &STORE_FAULTS {
        assert!(rt; faults_so(alloc, words, store, name)?, "{words:?} {name}");
    }
    Ok(())
}
