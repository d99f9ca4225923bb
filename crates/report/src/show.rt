//! The text of an image.
ghost use Rattle.std.specs.Prelude.{◌≡◌, ◌++◌, map, OnOk};
ghost use Rattle.dist_image.specs.Image.{premise};
ghost use Rattle.report.specs.Puts.{PutsText};
ghost use Rattle.report.specs.Text.{hex_word, spaced};
ghost use Rattle.report.specs.Show.{slot_line, anchor_line, note_line, kind_word, place_words, detail_words, premise_line, write_line, head_text, places_text, facts_text, image_text};

use crate::putting::{Entry, put_lines};
use crate::text::{Word, push_line, push_words};
use dist_image::{Anchor, Assumption, Image, Note, Slot};
use outside::{Sink, SinkErr};
use std::alloc::{AllocError, Global};

impl Entry for Slot {
    ghost text = { slot_line };

    fn push(&self, out: &mut Vec<u8>, number: u64) -> Result<(), AllocError> {
        let number = Word::Number(number);
        match *self {
            Slot::Exec { origin, word } => push_line(
                out,
                "slot",
                &[
                    number,
                    Word::Text("exec"),
                    Word::Hex(origin),
                    Word::Hex(word),
                ],
            ),
            Slot::Go { target } => {
                push_line(out, "slot", &[number, Word::Text("go"), Word::Hex(target)])
            }
            Slot::Fork { anchor } => push_line(
                out,
                "slot",
                &[number, Word::Text("fork"), Word::Number(u64::from(anchor))],
            ),
        }
    }
}

impl Entry for Anchor {
    ghost text = { anchor_line };

    fn push(&self, out: &mut Vec<u8>, number: u64) -> Result<(), AllocError> {
        let words = [
            Word::Number(number),
            Word::Text("pc"),
            Word::Hex(self.pc),
            Word::Text("slot"),
            Word::Number(u64::from(self.slot)),
            Word::Text("count"),
            Word::Number(u64::from(self.count)),
        ];
        push_line(out, "anchor", &words)
    }
}

impl Entry for Note {
    ghost text = { λ _ note. note_line note };

    fn push(&self, out: &mut Vec<u8>, _number: u64) -> Result<(), AllocError> {
        let words = [
            Word::Hex(self.pc),
            Word::Text("slot"),
            Word::Number(u64::from(self.slot)),
            Word::Text("live"),
            Word::Hex(self.live),
            Word::Text("need"),
            Word::Hex(self.need),
        ];
        push_line(out, "note", &words)
    }
}

/// The kind of an assumption.
pub(crate) fn kind(assumption: &Assumption) -> &'static str
    ensures { result.now ≡ kind_word (premise assumption.now) }
{
    match assumption {
        Assumption::Cut { .. } => "cut",
        Assumption::Targets { .. } => "targets",
        Assumption::Dead { .. } => "dead",
        Assumption::Code => "code",
        Assumption::Within => "within",
        Assumption::Span => "span",
        Assumption::Same { .. } => "same",
    }
}

/// Puts the address that an assumption speaks of, if there is one.
pub(crate) fn push_place(out: &mut Vec<u8>, assumption: &Assumption) -> Result<(), AllocError>
    ensures { OnOk result (out.new.items
        ≡ out.old.items ++ spaced (place_words (premise assumption.now))) }
{
    match assumption {
        Assumption::Cut { at, .. }
        | Assumption::Targets { at, .. }
        | Assumption::Dead { at }
        | Assumption::Same { at, .. } => push_words(out, &[Word::Hex(*at)]),
        Assumption::Code | Assumption::Within | Assumption::Span => Ok(()),
    }
}

fn push_targets(out: &mut Vec<u8>, targets: &[u32]) -> Result<(), AllocError>
    ensures { OnOk result (out.new.items ≡ out.old.items ++ spaced (map hex_word targets.now)) }
{
    for target in targets {
        push_words(out, &[Word::Hex(*target)])?;
    }
    Ok(())
}

// Puts what an assumption says of its address.
fn push_detail(out: &mut Vec<u8>, assumption: &Assumption) -> Result<(), AllocError>
    ensures { OnOk result (out.new.items
        ≡ out.old.items ++ spaced (detail_words (premise assumption.now))) }
{
    match assumption {
        Assumption::Cut { taken: true, .. } => push_words(out, &[Word::Text("taken")]),
        Assumption::Cut { taken: false, .. } => push_words(out, &[Word::Text("fallen")]),
        Assumption::Targets { to, .. } => push_targets(out, to),
        Assumption::Same { value, .. } => push_words(out, &[Word::Hex(*value)]),
        _ => Ok(()),
    }
}

impl Entry for Assumption {
    ghost text = { λ _ assumption. premise_line (premise assumption) };

    fn push(&self, out: &mut Vec<u8>, _number: u64) -> Result<(), AllocError> {
        out.extend_from_slice(kind(self).as_bytes())?;
        push_place(out, self)?;
        push_detail(out, self)?;
        out.extend_from_slice(b"\n")
    }
}

/// The address of a call at which a task may print.
impl Entry for u32 {
    ghost text = { λ _ pc. write_line pc };

    fn push(&self, out: &mut Vec<u8>, _number: u64) -> Result<(), AllocError> {
        push_line(out, "writes", &[Word::Hex(*self)])
    }
}

// Puts the version, unless it is the first, and the limit.
fn push_head(out: &mut Vec<u8>, version: u32, limit: u32) -> Result<(), AllocError>
    ensures { OnOk result (out.new.items ≡ out.old.items ++ head_text version limit) }
{
    if version != 1 {
        push_line(out, "version", &[Word::Number(u64::from(version))])?;
    }
    push_line(out, "limit", &[Word::Number(u64::from(limit))])
}

fn put_head<O: Sink>(alloc: Global, o: &mut O, version: u32, limit: u32) -> Result<(), SinkErr>
    ensures { PutsText (O.told o.old) (O.told o.new) (O.faults o.old) (O.faults o.new)
        (head_text version limit) result }
{
    let mut out = Vec::new(alloc);
    match push_head(&mut out, version, limit) {
        Ok(()) => o.put(alloc, &out),
        Err(_) => Err(SinkErr::Memory),
    }
}

// Puts the head of an image, its slots and its anchors.
fn put_places<O: Sink>(alloc: Global, o: &mut O, i: &Image) -> Result<(), SinkErr>
    ensures { PutsText (O.told o.old) (O.told o.new) (O.faults o.old) (O.faults o.new)
        (places_text i.now) result }
{
    put_head(alloc, o, i.version, i.limit)?;
    put_lines(alloc, o, &i.slots)?;
    put_lines(alloc, o, &i.anchors)
}

// Puts the notes of an image, its assumptions and its writes.
fn put_facts<O: Sink>(alloc: Global, o: &mut O, i: &Image) -> Result<(), SinkErr>
    ensures { PutsText (O.told o.old) (O.told o.new) (O.faults o.old) (O.faults o.new)
        (facts_text i.now) result }
{
    put_lines(alloc, o, &i.notes)?;
    put_lines(alloc, o, &i.assumptions)?;
    put_lines(alloc, o, &i.writes)
}

/// Puts the text of an image: a line for its version, unless that is the first, for its limit, and for
/// each entry.
///
/// # Errors
///
/// `Failed` only where the sink failed, and `Memory`. A part of the text may have been put then.
pub fn put_image<O: Sink>(alloc: Global, o: &mut O, i: &Image) -> Result<(), SinkErr>
    ensures { PutsText (O.told o.old) (O.told o.new) (O.faults o.old) (O.faults o.new)
        (image_text i.now) result }
{
    put_places(alloc, o, i)?;
    put_facts(alloc, o, i)
}
