//! Reads an image.

ghost use Rattle.std.specs.Prelude.{◌≡◌, ◌≢◌, IfOk, IfErr, MatchResult, map, Ok, Err};
ghost use Rattle.dist_image.specs.Image.{Distilled, IsImage, premise};
ghost use Rattle.dist_image.specs.Bytes.{bytes_of};
ghost use Rattle.dist_image.specs.Reading.{Gives, slots_in, anchors_in, notes_in, premises_in, writes_in, image_from};
ghost use Rattle.dist_image.specs.Reading as spec;

use crate::entry::{next_anchor, next_assumption, next_note, next_slot};
use crate::error::{ImageErr, Table};
use crate::header::next_header;
use crate::image::{Anchor, Assumption, Image, Note, Slot};
use std::alloc::Global;
use word_format::{AddressErr, read_addresses};

/// The image that a file holds.
///
/// # Errors
///
/// The first test of the file that fails, as [`ImageErr`] tells, or `Memory`.
pub fn read_image(alloc: Global, bytes: &[u8]) -> Result<Image, ImageErr>
    // What is read is an image, and the file has its bytes and no others.
    ensures found { IfOk result (λ image. IsImage image × (bytes.now ≡ bytes_of image)) }

    // The bytes of an image are read as that image.
    ensures only { (image : Distilled) → IsImage image → bytes.now ≡ bytes_of image →
        MatchResult result (λ read. read ≡ image) (λ e. e ≡ ImageErr.Memory) }

    // It is what the tests of the format give, one after the other.
    ensures exact { IfOk result (λ image. image_from bytes.now ≡ Ok image) }
    ensures refused { IfErr result (λ e. e ≢ ImageErr.Memory → image_from bytes.now ≡ Err e) }
{
    image_in(alloc, bytes)
}

/// Reads all of the bytes.
#[tactic(auto, unfolding(crate::specs::Reading::image_from))]
fn image_in(alloc: Global, bytes: &[u8]) -> Result<Image, ImageErr>
    ensures { Gives (λ image. image) result (image_from bytes.now) }
{
    let (header, rest) = next_header(bytes)?;
    let (slots, rest) = read_slots(alloc, header.anchors, header.slots, rest)?;
    let (anchors, rest) = read_anchors(alloc, header.slots, header.anchors, rest)?;
    let (notes, rest) = read_notes(alloc, header.slots, header.notes, rest)?;
    let (assumptions, rest) = read_assumptions(alloc, header.version, header.assumptions, rest)?;
    let (writes, rest) = read_writes(alloc, header.writes, rest)?;
    if !rest.is_empty() {
        return Err(ImageErr::Long);
    }
    Ok(Image {
        version: header.version,
        limit: header.limit,
        slots,
        anchors,
        notes,
        assumptions,
        writes,
    })
}

fn read_slots(
    alloc: Global,
    anchors: u32,
    count: u32,
    bytes: &[u8],
) -> Result<(Vec<Slot>, &[u8]), ImageErr>
    ensures { Gives (λ x. (x.0.items, x.1.now)) result (slots_in anchors count bytes.now) }
{
    let mut slots = Vec::new(alloc);
    let mut rest = bytes;
    for number in 0..count {
        let (slot, after) = next_slot(anchors, number, rest)?;
        slots.push(slot)?;
        rest = after;
    }
    Ok((slots, rest))
}

fn read_anchors(
    alloc: Global,
    slots: u32,
    count: u32,
    bytes: &[u8],
) -> Result<(Vec<Anchor>, &[u8]), ImageErr>
    ensures { Gives (λ x. (x.0.items, x.1.now)) result (anchors_in slots count bytes.now) }
{
    let mut anchors = Vec::new(alloc);
    let mut rest = bytes;
    let mut due = 0;
    for number in 0..count {
        let (anchor, after) = next_anchor(slots, number, due, rest)?;
        anchors.push(anchor)?;
        due = u64::from(anchor.pc) + 1;
        rest = after;
    }
    Ok((anchors, rest))
}

fn read_notes(
    alloc: Global,
    slots: u32,
    count: u32,
    bytes: &[u8],
) -> Result<(Vec<Note>, &[u8]), ImageErr>
    ensures { Gives (λ x. (x.0.items, x.1.now)) result (notes_in slots count bytes.now) }
{
    let mut notes = Vec::new(alloc);
    let mut rest = bytes;
    let mut due = 0;
    for number in 0..count {
        let (note, after) = next_note(slots, number, due, rest)?;
        notes.push(note)?;
        due = u64::from(note.pc) + 1;
        rest = after;
    }
    Ok((notes, rest))
}

fn read_assumptions(
    alloc: Global,
    version: u32,
    count: u32,
    bytes: &[u8],
) -> Result<(Vec<Assumption>, &[u8]), ImageErr>
    ensures { Gives (λ x. (map premise x.0.items, x.1.now)) result (premises_in version count bytes.now) }
{
    let mut assumptions = Vec::new(alloc);
    let mut rest = bytes;
    let mut due = 0;
    let mut targets = 0;
    for number in 0..count {
        let (assumption, after) = next_assumption(alloc, version, number, due, targets, rest)?;
        due = assumption.key() + 1;
        targets += assumption.targets().len();
        assumptions.push(assumption)?;
        rest = after;
    }
    Ok((assumptions, rest))
}

fn read_writes(alloc: Global, count: u32, bytes: &[u8]) -> Result<(Vec<u32>, &[u8]), ImageErr>
    ensures { Gives (λ x. (x.0.items, x.1.now)) result (writes_in count bytes.now) }
{
    match read_addresses(alloc, count, bytes) {
        Ok(writes) => Ok(writes),
        Err(error) => Err(writes_err(error)),
    }
}

/// The error of the writes.
fn writes_err(error: AddressErr) -> ImageErr
    ensures { result ≡ spec.writes_err error }
{
    match error {
        AddressErr::Short => ImageErr::Short,
        AddressErr::Range(number) => ImageErr::Range(Table::Writes, number),
        AddressErr::Order(number) => ImageErr::Order(Table::Writes, number),
        AddressErr::Memory => ImageErr::Memory,
    }
}
