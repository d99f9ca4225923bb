//! Writes an image.

ghost use Rattle.std.specs.Prelude.{◌≡◌, ◌<◌, ◌^◌, ◌++◌, length, map, IfOk, OnOk};
ghost use Rattle.dist_image.specs.Image.{IsImage, premise, targets_of, target_count};
ghost use Rattle.word_format.specs.Bytes.{words};
ghost use Rattle.dist_image.specs.Bytes.{header_words, slot_words, anchor_words, note_words, premise_words, table_bytes, bytes_of};

use crate::header::FIRST_VERSION;
use crate::image::{Anchor, Assumption, Image, Note, Slot};
use std::alloc::{AllocError, Global};
use word_format::put_words;

/// The bytes of an image.
///
/// # Errors
///
/// Only where no memory was left.
pub fn write_image(alloc: Global, i: &Image) -> Result<Vec<u8>, AllocError>
    requires { IsImage i.now }
    ensures { IfOk result (λ bytes. bytes.items ≡ bytes_of i.now) }
{
    let mut out = Vec::new(alloc);
    put_header(&mut out, i)?;
    put_slots(&mut out, &i.slots)?;
    put_anchors(&mut out, &i.anchors)?;
    put_notes(&mut out, &i.notes)?;
    put_assumptions(&mut out, &i.assumptions)?;
    put_words(&mut out, &i.writes)?;
    Ok(out)
}

/// Puts the header. Only from the second version on it counts the writes.
fn put_header(out: &mut Vec<u8>, i: &Image) -> Result<(), AllocError>
    requires { IsImage i.now }
    ensures { OnOk result (out.new.items ≡ out.old.items ++ words (header_words i.now)) }
{
    put_words(
        out,
        &[
            u32::from_le_bytes(*b"MSSP"),
            i.version,
            i.limit,
            i.slots.len() as u32,
            i.anchors.len() as u32,
            i.notes.len() as u32,
            i.assumptions.len() as u32,
        ],
    )?;
    if i.version != FIRST_VERSION {
        put_words(out, &[i.writes.len() as u32])?;
    }
    Ok(())
}

fn put_slots(out: &mut Vec<u8>, slots: &[Slot]) -> Result<(), AllocError>
    ensures { OnOk result (out.new.items ≡ out.old.items ++ table_bytes slot_words slots.now) }
{
    for slot in slots {
        put_slot(out, slot)?;
    }
    Ok(())
}

fn put_slot(out: &mut Vec<u8>, slot: &Slot) -> Result<(), AllocError>
    ensures { OnOk result (out.new.items ≡ out.old.items ++ words (slot_words slot.now)) }
{
    match *slot {
        Slot::Exec { origin, word } => put_words(out, &[0, origin, word]),
        Slot::Go { target } => put_words(out, &[1, target, 0]),
        Slot::Fork { anchor } => put_words(out, &[2, anchor, 0]),
    }
}

fn put_anchors(out: &mut Vec<u8>, anchors: &[Anchor]) -> Result<(), AllocError>
    ensures { OnOk result (out.new.items ≡ out.old.items ++ table_bytes anchor_words anchors.now) }
{
    for anchor in anchors {
        put_words(out, &[anchor.pc, anchor.slot, anchor.count])?;
    }
    Ok(())
}

fn put_notes(out: &mut Vec<u8>, notes: &[Note]) -> Result<(), AllocError>
    ensures { OnOk result (out.new.items ≡ out.old.items ++ table_bytes note_words notes.now) }
{
    for note in notes {
        put_words(out, &[note.pc, note.slot, note.live, note.need])?;
    }
    Ok(())
}

fn put_assumptions(out: &mut Vec<u8>, assumptions: &[Assumption]) -> Result<(), AllocError>
    requires { target_count (map premise assumptions.now) < 2 ^ 32 }
    ensures { OnOk result (out.new.items ≡ out.old.items
        ++ table_bytes premise_words (map premise assumptions.now)) }
{
    for assumption in assumptions {
        put_assumption(out, assumption)?;
    }
    Ok(())
}

fn put_assumption(out: &mut Vec<u8>, assumption: &Assumption) -> Result<(), AllocError>
    requires { length (targets_of (premise assumption.now)) < 2 ^ 32 }
    ensures { OnOk result (out.new.items ≡ out.old.items
        ++ words (premise_words (premise assumption.now))) }
{
    match assumption {
        Assumption::Cut { at, taken } => put_words(out, &[0, *at, u32::from(*taken), 0]),
        Assumption::Targets { at, to } => {
            put_words(out, &[1, *at, 0, to.len() as u32])?;
            put_words(out, to)
        }
        Assumption::Dead { at } => put_words(out, &[2, *at, 0, 0]),
        Assumption::Code => put_words(out, &[3, 0, 0, 0]),
        Assumption::Within => put_words(out, &[4, 0, 0, 0]),
        Assumption::Span => put_words(out, &[5, 0, 0, 0]),
        Assumption::Same { at, value } => put_words(out, &[6, *at, *value, 0]),
    }
}
