//! Reads one entry of a table, and tests it.
//!
//! Each reader takes the bytes from the entry on, and gives those after it. `number` is the entry's
//! number in its table, from 0 on.

ghost use Rattle.std.specs.Prelude.{◌≡◌, ◌+◌, ◌*◌, ◌^◌, ◌≤◌};
ghost use Rattle.dist_image.specs.Image.{premise, key_of, targets_of};
ghost use Rattle.dist_image.specs.Reading.{Gives};
ghost use Rattle.dist_image.specs.Reading as spec;

use crate::error::{ImageErr, Table};
use crate::header::{FIRST_VERSION, MOST, next_word};
use crate::image::{Anchor, Assumption, Note, Slot};
use std::alloc::Global;
use word_format::{AddressErr, is_aligned, read_addresses};

/// The step from one kind of assumption to the next, among the keys by which assumptions are ordered.
pub const KIND: u64 = 1 << 32;

/// The greatest count of an anchor.
const MOST_ARRIVALS: u32 = 64;

/// What stands before the targets of an assumption.
#[derive(Clone, Copy, Debug)]
pub(crate) struct Head {
    pub kind: u32,
    pub at: u32,
    pub value: u32,
    /// The number of its targets.
    pub targets: u32,
}

/// Whether a set of registers is without register 0.
fn is_mask(registers: u32) -> bool
    ensures { result ≡ spec.is_mask registers }
{
    registers % 2 == 0
}

/// Reads a slot, in an image with this number of anchors.
#[tactic(auto, unfolding(crate::specs::Reading::next_slot))]
pub(crate) fn next_slot(anchors: u32, number: u32, bytes: &[u8]) -> Result<(Slot, &[u8]), ImageErr>
    ensures { Gives (λ x. (x.0, x.1.now)) result (spec.next_slot anchors number bytes.now) }
{
    let (kind, rest) = next_word(bytes)?;
    let (a, rest) = next_word(rest)?;
    let (b, rest) = next_word(rest)?;
    let slot = admit_slot(anchors, number, slot_from(kind, a, b))?;
    Ok((slot, rest))
}

/// The slot of a kind and two numbers, if the kind is known and what has no meaning for it is 0.
fn slot_from(kind: u32, a: u32, b: u32) -> Option<Slot>
    ensures { result ≡ spec.slot_from kind a b }
{
    match kind {
        0 => Some(Slot::Exec { origin: a, word: b }),
        1 if b == 0 => Some(Slot::Go { target: a }),
        2 if b == 0 => Some(Slot::Fork { anchor: a }),
        _ => None,
    }
}

/// Tests a slot.
fn admit_slot(anchors: u32, number: u32, slot: Option<Slot>) -> Result<Slot, ImageErr>
    ensures { Gives (λ x. x) result (spec.admit_slot anchors number slot) }
{
    match slot {
        None => Err(ImageErr::Kind(Table::Slots, number)),
        Some(slot) => {
            if is_slot(anchors, slot) {
                Ok(slot)
            } else {
                Err(ImageErr::Range(Table::Slots, number))
            }
        }
    }
}

/// Whether a slot is in range.
fn is_slot(anchors: u32, slot: Slot) -> bool
    ensures { result ≡ spec.is_slot anchors slot }
{
    match slot {
        Slot::Exec { origin, .. } => is_aligned(origin),
        Slot::Go { target } => is_aligned(target),
        Slot::Fork { anchor } => anchor < anchors,
    }
}

/// Reads an anchor, in an image with this number of slots. Its address is at least `due`.
#[tactic(auto, unfolding(crate::specs::Reading::next_anchor))]
pub(crate) fn next_anchor(
    slots: u32,
    number: u32,
    due: u64,
    bytes: &[u8],
) -> Result<(Anchor, &[u8]), ImageErr>
    ensures { Gives (λ x. (x.0, x.1.now)) result (spec.next_anchor slots number due bytes.now) }
{
    let (pc, rest) = next_word(bytes)?;
    let (slot, rest) = next_word(rest)?;
    let (count, rest) = next_word(rest)?;
    let anchor = admit_anchor(slots, number, due, Anchor { pc, slot, count })?;
    Ok((anchor, rest))
}

/// Tests an anchor.
fn admit_anchor(slots: u32, number: u32, due: u64, anchor: Anchor) -> Result<Anchor, ImageErr>
    ensures { Gives (λ x. x) result (spec.admit_anchor slots number due anchor) }
{
    if !(is_aligned(anchor.pc)
        && anchor.slot < slots
        && (1..=MOST_ARRIVALS).contains(&anchor.count))
    {
        return Err(ImageErr::Range(Table::Anchors, number));
    }
    if u64::from(anchor.pc) < due {
        return Err(ImageErr::Order(Table::Anchors, number));
    }
    Ok(anchor)
}

/// Reads a note, in an image with this number of slots. Its address is at least `due`.
#[tactic(auto, unfolding(crate::specs::Reading::next_note))]
pub(crate) fn next_note(
    slots: u32,
    number: u32,
    due: u64,
    bytes: &[u8],
) -> Result<(Note, &[u8]), ImageErr>
    ensures { Gives (λ x. (x.0, x.1.now)) result (spec.next_note slots number due bytes.now) }
{
    let (pc, rest) = next_word(bytes)?;
    let (slot, rest) = next_word(rest)?;
    let (live, rest) = next_word(rest)?;
    let (need, rest) = next_word(rest)?;
    let note = Note {
        pc,
        slot,
        live,
        need,
    };
    let note = admit_note(slots, number, due, note)?;
    Ok((note, rest))
}

/// Tests a note.
fn admit_note(slots: u32, number: u32, due: u64, note: Note) -> Result<Note, ImageErr>
    ensures { Gives (λ x. x) result (spec.admit_note slots number due note) }
{
    if !(is_aligned(note.pc) && note.slot < slots && is_mask(note.live) && is_mask(note.need)) {
        return Err(ImageErr::Range(Table::Notes, number));
    }
    if u64::from(note.pc) < due {
        return Err(ImageErr::Order(Table::Notes, number));
    }
    Ok(note)
}

/// Reads an assumption in an image of this version. Its key is at least `due`, and `before` targets were
/// listed before it.
#[tactic(auto, unfolding(crate::specs::Reading::next_premise))]
pub(crate) fn next_assumption(
    alloc: Global,
    version: u32,
    number: u32,
    due: u64,
    before: usize,
    bytes: &[u8],
) -> Result<(Assumption, &[u8]), ImageErr>
    requires { before ≤ 1_048_576 }
    ensures { Gives (λ x. (premise x.0, x.1.now)) result
        (spec.next_premise version number (due, before) bytes.now) }
{
    let (head, rest) = next_head(version, number, due, before, bytes)?;
    let (to, rest) = targets_in(alloc, number, head.targets, rest)?;
    Ok((assumption_from(head, to), rest))
}

/// Reads what stands before the targets of an assumption.
#[tactic(auto, unfolding(crate::specs::Reading::next_head))]
fn next_head(
    version: u32,
    number: u32,
    due: u64,
    before: usize,
    bytes: &[u8],
) -> Result<(Head, &[u8]), ImageErr>
    requires { before ≤ 1_048_576 }
    ensures { Gives (λ x. (x.0, x.1.now)) result (spec.next_head version number due before bytes.now) }
{
    let (kind, rest) = next_word(bytes)?;
    let (at, rest) = next_word(rest)?;
    let (value, rest) = next_word(rest)?;
    let (targets, rest) = next_word(rest)?;
    let head = Head {
        kind,
        at,
        value,
        targets,
    };
    let head = admit_head(version, number, due, before, rest.len(), head)?;
    Ok((head, rest))
}

/// Tests what stands before the targets of an assumption. `left` bytes come after it.
fn admit_head(
    version: u32,
    number: u32,
    due: u64,
    before: usize,
    left: usize,
    head: Head,
) -> Result<Head, ImageErr>
    requires { before ≤ 1_048_576 }
    ensures { Gives (λ x. x) result (spec.admit_head version number due before left head) }
{
    if !has_form(version, head) {
        return Err(ImageErr::Kind(Table::Assumptions, number));
    }
    if !is_aligned(head.at) {
        return Err(ImageErr::Range(Table::Assumptions, number));
    }
    if key(head.kind, head.at) < due {
        return Err(ImageErr::Order(Table::Assumptions, number));
    }
    if before + head.targets as usize > MOST as usize {
        return Err(ImageErr::TooMany(Table::Targets));
    }
    if left < 4 * head.targets as usize {
        return Err(ImageErr::Short);
    }
    Ok(head)
}

/// Whether the version knows the kind, and the other numbers have a meaning for it.
fn has_form(version: u32, head: Head) -> bool
    ensures { result ≡ spec.has_form version head }
{
    match head.kind {
        0 => head.value <= 1 && head.targets == 0,
        1 => head.value == 0,
        2 => head.value == 0 && head.targets == 0,
        6 => version != FIRST_VERSION && head.targets == 0,
        kind => kind <= 5 && head.at == 0 && head.value == 0 && head.targets == 0,
    }
}

/// The number by which assumptions are ordered: by their kinds first, and then by their addresses.
fn key(kind: u32, at: u32) -> u64
    ensures { result ≡ 2 ^ 32 * kind + at }
{
    KIND * u64::from(kind) + u64::from(at)
}

/// The assumption that these numbers and targets are.
fn assumption_from(head: Head, to: Vec<u32>) -> Assumption
    ensures { premise result ≡ spec.premise_from head to.items }
{
    let at = head.at;
    match head.kind {
        0 => Assumption::Cut {
            at,
            taken: head.value == 1,
        },
        1 => Assumption::Targets { at, to },
        2 => Assumption::Dead { at },
        3 => Assumption::Code,
        4 => Assumption::Within,
        5 => Assumption::Span,
        _ => Assumption::Same {
            at,
            value: head.value,
        },
    }
}

/// Reads the targets of the assumption of this number.
fn targets_in(
    alloc: Global,
    number: u32,
    count: u32,
    bytes: &[u8],
) -> Result<(Vec<u32>, &[u8]), ImageErr>
    ensures { Gives (λ x. (x.0.items, x.1.now)) result (spec.targets_in number count bytes.now) }
{
    match read_addresses(alloc, count, bytes) {
        Ok(targets) => Ok(targets),
        Err(error) => Err(targets_err(number, error)),
    }
}

/// The error of the targets of the assumption of this number.
fn targets_err(number: u32, error: AddressErr) -> ImageErr
    ensures { result ≡ spec.targets_err number error }
{
    match error {
        AddressErr::Short => ImageErr::Short,
        AddressErr::Range(_) => ImageErr::Range(Table::Targets, number),
        AddressErr::Order(_) => ImageErr::Order(Table::Targets, number),
        AddressErr::Memory => ImageErr::Memory,
    }
}

impl Assumption {
    /// The number by which assumptions are ordered.
    pub(crate) fn key(&self) -> u64
        ensures { result ≡ key_of (premise self.now) }
    {
        match self {
            Assumption::Cut { at, .. } => key(0, *at),
            Assumption::Targets { at, .. } => key(1, *at),
            Assumption::Dead { at } => key(2, *at),
            Assumption::Code => key(3, 0),
            Assumption::Within => key(4, 0),
            Assumption::Span => key(5, 0),
            Assumption::Same { at, .. } => key(6, *at),
        }
    }

    /// The targets that it lists.
    pub(crate) fn targets(&self) -> &[u32]
        ensures { result.now ≡ targets_of (premise self.now) }
    {
        match self {
            Assumption::Targets { to, .. } => to.as_slice(),
            _ => &[],
        }
    }
}
