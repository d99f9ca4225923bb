//! Programs and images from their words, and what `certify` answers to them.

ghost use Rattle.std.specs.Prelude.{IfOk};
ghost use Rattle.dist_image.specs.Image.{IsImage};

use certify::{Fit, certify};
use dist_image::{Image, read_image};
use std::alloc::{AllocError, Global};
use std::test::Fail;
use test_programs::programs::program;

/// The first word of an image's file.
pub(crate) const MAGIC: u32 = 0x5053_534D;

/// What an image of the version 1 or 2 holds, entry by entry, as the words of its file.
#[derive(Clone, Copy)]
pub(crate) struct Tables<'a> {
    pub version: u32,
    /// Kind and two words: those of [`exec`] and [`fork`], or 1, a target and 0.
    pub slots: &'a [[u32; 3]],
    /// Address, slot and count.
    pub anchors: &'a [[u32; 3]],
    /// Address, slot, live and needed registers.
    pub notes: &'a [[u32; 4]],
    /// Kind, address and value.
    pub assumptions: &'a [[u32; 3]],
    /// Those of an assumption of the kind 1.
    pub targets: &'a [u32],
    /// Only in version 2.
    pub writes: &'a [u32],
}

/// The assumptions of no single address.
pub(crate) const WHOLE: [[u32; 3]; 3] = [[3, 0, 0], [4, 0, 0], [5, 0, 0]];

/// A slot that does a word.
pub(crate) fn exec(origin: u32, word: u32) -> [u32; 3] {
    [0, origin, word]
}

/// The slot of an anchor.
pub(crate) fn fork(anchor: u32) -> [u32; 3] {
    [2, anchor, 0]
}

/// Appends words, the lowest byte of each first.
fn put(bytes: &mut Vec<u8>, words: &[u32]) -> Result<(), AllocError> {
    for word in words {
        bytes.extend_from_slice(&word.to_le_bytes())?;
    }
    Ok(())
}

/// Appends how many there are, in four bytes.
fn put_count(bytes: &mut Vec<u8>, count: usize) -> Result<(), AllocError> {
    bytes.extend_from_slice(&(count as u64).to_le_bytes()[..4])?;
    Ok(())
}

/// Appends the assumptions, and the targets behind those of the kind 1.
fn put_assumptions(bytes: &mut Vec<u8>, t: &Tables<'_>) -> Result<(), AllocError> {
    for assumption in t.assumptions {
        put(bytes, assumption.as_slice())?;
        let targets = if assumption[0] == 1 { t.targets } else { &[] };
        put_count(bytes, targets.len())?;
        put(bytes, targets)?;
    }
    Ok(())
}

/// The file of an image.
fn file_of(alloc: Global, t: &Tables<'_>) -> Result<Vec<u8>, AllocError> {
    let mut bytes = Vec::new(alloc);
    put(&mut bytes, &[MAGIC, t.version, 64])?;
    put_count(&mut bytes, t.slots.len())?;
    put_count(&mut bytes, t.anchors.len())?;
    put_count(&mut bytes, t.notes.len())?;
    put_count(&mut bytes, t.assumptions.len())?;
    if t.version == 2 {
        put_count(&mut bytes, t.writes.len())?;
    }
    for slot in t.slots {
        put(&mut bytes, slot.as_slice())?;
    }
    for anchor in t.anchors {
        put(&mut bytes, anchor.as_slice())?;
    }
    for note in t.notes {
        put(&mut bytes, note.as_slice())?;
    }
    put_assumptions(&mut bytes, t)?;
    put(&mut bytes, t.writes)?;
    Ok(bytes)
}

/// The image in a file.
fn image(alloc: Global, bytes: &[u8]) -> Result<Image, Fail>
    ensures { IfOk result IsImage }
{
    Ok(read_image(alloc, bytes)?)
}

/// The answer to an image of the program that has these words.
pub(crate) fn answer(alloc: Global, words: &[u32], t: &Tables<'_>) -> Result<Fit, Fail> {
    let p = program(alloc, words)?;
    let bytes = file_of(alloc, t)?;
    let image = image(alloc, &bytes)?;
    Ok(certify(&p, &image))
}

/// The answer to the image whose file has these words, with others at some places.
pub(crate) fn answer_to_file(
    alloc: Global,
    words: &[u32],
    file: &[u32],
    changes: &[(usize, u32)],
) -> Result<Fit, Fail> {
    let p = program(alloc, words)?;
    let mut changed = Vec::from_slice(alloc, file)?;
    for (place, word) in changes {
        if *place < changed.len() {
            changed[*place] = *word;
        }
    }
    let mut bytes = Vec::new(alloc);
    put(&mut bytes, &changed)?;
    let image = image(alloc, &bytes)?;
    Ok(certify(&p, &image))
}

/// The answer that a rule is broken at an address.
pub(crate) fn no(pc: u32, rule: u32) -> Fit {
    Fit::No { pc, rule }
}
