//! Commands over files of a program, an image, events and an input, and what they leave, compared with what
//! is wanted.

use command_fixtures::outside_world::{Files, Left, SURE, perform_over};
use std::alloc::{AllocError, Global};
use test_programs::programs::{bytes_of, frame};

pub(crate) const REPLAY: &[&str] = &["replay", "p", "m", "e"];

/// A program of these words, and the files `m`, `e` and `i` of these bytes.
pub(crate) fn files(
    alloc: Global,
    program: &[u32],
    image: &[u8],
    events: &[u8],
    input: &[u8],
) -> Result<Files, AllocError> {
    Ok(Files {
        program: frame(alloc, program)?,
        image: image.to_vec(alloc)?,
        events: events.to_vec(alloc)?,
        input: input.to_vec(alloc)?,
    })
}

/// Performs a command over those files.
pub(crate) fn perform(
    alloc: Global,
    words: &[&str],
    program: &[u32],
    image: &[u8],
    events: &[u8],
    input: &[u8],
) -> Result<Left, AllocError> {
    let files = files(alloc, program, image, events, input)?;
    perform_over(alloc, words, files, SURE)
}

/// Whether a command left these bytes, this status and this line.
pub(crate) fn left_so(left: &Left, out: &[u8], status: u8, line: &str) -> bool {
    left.status == status && left.out.as_slice() == out && left.err.as_slice() == line.as_bytes()
}

/// Whether a command left this status and these bytes.
pub(crate) fn put_so(left: &Left, status: u8, out: &[u8]) -> bool {
    left.status == status && left.out.as_slice() == out
}

/// Whether a command left this status and this line.
pub(crate) fn told_so(left: &Left, status: u8, line: &str) -> bool {
    left.status == status && left.err.as_slice() == line.as_bytes()
}

/// Whether a command left this status and this report.
pub(crate) fn reported_so(left: &Left, status: u8, report: &[u8]) -> bool {
    left.status == status && left.report.as_slice() == report
}

/// Whether a command left this status, line and report, and no other bytes.
pub(crate) fn left_report(left: &Left, status: u8, line: &str, report: &[u8]) -> bool {
    left_so(left, b"", status, line) && left.report.as_slice() == report
}

/// Whether a command left the line of a fault of the store at this file, and no report.
pub(crate) fn store_fault_so(alloc: Global, left: &Left, name: &str) -> Result<bool, AllocError> {
    let line = format!(in alloc; "mssp: store fault {name}\n")?;
    Ok(told_so(left, 112, &line) && left.report.is_empty())
}

/// Sets the word at a place.
pub(crate) fn set(words: &mut [u32], place: usize, word: u32) {
    if let Some(old) = words.get_mut(place) {
        *old = word;
    }
}

/// A line of a text, and how many times it stands there.
pub(crate) type Line = (&'static str, u8);

/// A text of such lines.
pub(crate) fn text_of(alloc: Global, lines: &[Line]) -> Result<Vec<u8>, AllocError> {
    let mut text = Vec::new(alloc);
    for &(line, count) in lines {
        add(&mut text, line, count)?;
    }
    Ok(text)
}

/// Adds a line to a text, so many times.
fn add(text: &mut Vec<u8>, line: &str, count: u8) -> Result<(), AllocError> {
    for _ in 0..count {
        text.extend_from_slice(line.as_bytes())?;
        text.push(b'\n')?;
    }
    Ok(())
}

/// Whether a replay of these events over a program and an image, with the input `A`, puts these lines.
pub(crate) fn replays_so(
    alloc: Global,
    words: &[&str],
    program: &[u32],
    image: &[u32],
    events: &str,
    lines: &[Line],
) -> Result<bool, AllocError> {
    let want = text_of(alloc, lines)?;
    let image = bytes_of(alloc, image)?;
    let left = perform(alloc, words, program, &image, events.as_bytes(), b"A")?;
    Ok(put_so(&left, 0, &want))
}
