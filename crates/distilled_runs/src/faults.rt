//! Faults of the store: each of a command's calls fails once, and its line names the file of that call.

use crate::commands::{files, store_fault_so, told_so};
use command_fixtures::outside_world::{Fails, Left, SURE, perform_over};
use std::alloc::{AllocError, Global};
use std::test::Fail;
use test_programs::images::*;
use test_programs::profiles::COMPARE_LOOP_PROFILE;
use test_programs::programs::*;

/// The words of each command that reads files, and the names of the files in the order of its calls.
/// The file `m` is an image, but for `distill` a profile.
static CALLS: [(&[&str], &[&str]); 11] = [
    (&["run", "p"], &["p"]),
    (&["run", "p", "--input", "i"], &["p", "i"]),
    (&["run", "p", "--report", "r"], &["p", "r"]),
    (
        &["run", "p", "--input", "i", "--image", "m", "--report", "r"],
        &["p", "m", "i", "r"],
    ),
    (
        &["replay", "p", "m", "e", "--input", "i"],
        &["p", "m", "e", "i"],
    ),
    (&["profile", "p", "r", "--input", "i"], &["p", "i", "r"]),
    (&["distill", "p", "m", "r"], &["p", "m", "r"]),
    (&["check", "p", "m", "--input", "i"], &["p", "m", "i"]),
    (&["show", "m"], &["m"]),
    (&["certify", "p", "m"], &["p", "m"]),
    (&["profile", "p", "r", "--calls", "1"], &["p", "r"]),
];

/// The numbers of the file `m` of the command of these words.
fn numbers_of(words: &[&str]) -> &'static [u32] {
    match words {
        ["distill", ..] => &COMPARE_LOOP_PROFILE,
        _ => &COMPARE_NEVER_TRUE,
    }
}

/// Performs the command of these words, where this call of the store fails.
fn fault(alloc: Global, words: &[&str], store: u64) -> Result<Left, AllocError> {
    let image = bytes_of(alloc, numbers_of(words))?;
    let files = files(alloc, &COMPARE_LOOP, &image, b"1 serial\n", b"")?;
    perform_over(alloc, words, files, Fails { store, ..SURE })
}

/// Whether a fault of that call is told by this file's name.
fn told_by(alloc: Global, words: &[&str], store: u64, name: &str) -> Result<bool, AllocError> {
    let left = fault(alloc, words, store)?;
    store_fault_so(alloc, &left, name)
}

/// Whether each call, of which there are as many as names, is told by its file's name.
fn each_is_told(alloc: Global, words: &[&str], names: &[&str]) -> Result<bool, AllocError> {
    let mut told = true;
    for (place, name) in names.iter().enumerate() {
        told = told && told_by(alloc, words, place as u64 + 1, name)?;
    }
    Ok(told)
}

/// Whether there is no call of that number, so that nothing fails.
fn no_call(alloc: Global, words: &[&str], store: u64) -> Result<bool, AllocError> {
    let left = fault(alloc, words, store)?;
    Ok(told_so(&left, 0, ""))
}

#[test]
fn each_call_of_the_store_is_told_by_its_file(rt: HostRuntime) -> Result<(), Fail> {
    let alloc = rt.alloc();
    for &(words, names) in &CALLS {
        assert!(rt; each_is_told(alloc, words, names)?, "{words:?}");
        assert!(rt; no_call(alloc, words, names.len() as u64 + 1)?, "{words:?}");
    }
    Ok(())
}
