//! What a command is performed over, and what it left, compared with what is wanted.

use command_fixtures::outside_world::{Fails, Files, Left, perform, perform_over};
use std::alloc::{AllocError, Global};
use test_programs::programs::{bytes_of, frame};

/// Performs a command over a program and an image of these words, these events and the input `abc`, where
/// these calls fail.
pub(crate) fn perform_beside(
    alloc: Global,
    words: &[&str],
    program: &[u32],
    image: &[u32],
    events: &[u8],
    fails: Fails,
) -> Result<Left, AllocError> {
    let files = Files {
        program: frame(alloc, program)?,
        image: bytes_of(alloc, image)?,
        events: events.to_vec(alloc)?,
        input: b"abc".to_vec(alloc)?,
    };
    perform_over(alloc, words, files, fails)
}

/// Whether a command over the bytes of a program and an input, where these calls fail, leaves these bytes,
/// this status and this line.
pub(crate) fn leaves_so(
    alloc: Global,
    words: &[&str],
    program: Vec<u8>,
    input: Vec<u8>,
    fails: Fails,
    (out, status, line): (&str, u8, &str),
) -> Result<bool, AllocError> {
    let left = perform(alloc, words, program, input, fails)?;
    Ok(left_so(&left, out, status, line))
}

/// Whether a command left these bytes, this line and this status.
pub(crate) fn left_so(left: &Left, out: &str, status: u8, line: &str) -> bool {
    left.out.as_slice() == out.as_bytes() && told_so(left, status, line)
}

/// Whether a command left this line and this status.
pub(crate) fn told_so(left: &Left, status: u8, line: &str) -> bool {
    left.status == status && left.err.as_slice() == line.as_bytes()
}

/// Sets the word at a place.
pub(crate) fn set(words: &mut [u32], place: usize, word: u32) {
    if let Some(old) = words.get_mut(place) {
        *old = word;
    }
}
