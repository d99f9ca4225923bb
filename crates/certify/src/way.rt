//! How the distilled program does the word of a note.

ghost use Rattle.std.specs.Prelude.{◌≡◌, ℕ, ◌↔◌, IsTrue, Some, slice_get};
ghost use Rattle.rv_word.specs.Meaning.{meaning};
ghost use Rattle.rv_word.specs.Spelling.{IsWellFormed};
ghost use Rattle.dist_image.specs.declared.image.Slot.TheVariants.{Go, Fork};
ghost use Rattle.dist_image.specs.Image.{IsImage, slot_of};
ghost use Rattle.fitting.specs.Fits.{is_anchor_pc, body_place, set_word};
ghost use Rattle.certify.specs.Ways.{word_done, IsWay, IsSetBy};

use crate::assumed::value_at;
use crate::passing::goes_on;
use dist_image::{Image, Note, Slot, anchor_at, slot_of};
use fitting::set_word;
use rv_word::Inst;

/// In which way the distilled program does the word of a note.
#[derive(Clone, Copy, Debug, PartialEq, Eq)]
pub(crate) enum Way {
    /// By the word itself.
    Kept,
    /// By a word that sets the register of a load to the load's one value.
    Set,
    /// Not at all: the master goes on where the word leads.
    Passed,
    /// The master comes to another place.
    Lost,
}

/// Whether an anchor stands at an address.
pub(crate) fn is_anchor(image: &Image, pc: u32) -> bool
    requires { IsImage image.now }
    ensures { result ≡ is_anchor_pc image.now pc }
{
    match anchor_at(image, pc) {
        Some(number) => image.anchors.get(number as usize).is_some(),
        None => false,
    }
}

/// The place of the slot that stands for the note's own word: after the `Fork` at an anchor's address.
fn body_place(image: &Image, note: &Note) -> usize
    requires { IsImage image.now }
    ensures { result ≡ body_place image.now note.now }
{
    let slot = note.slot as usize;
    if is_anchor(image, note.pc) {
        slot + 1
    } else {
        slot
    }
}

/// The word that the slot at a place does at this address, if it does one there.
fn word_done(image: &Image, place: usize, pc: u32) -> Option<u32>
    ensures { result ≡ word_done pc (slice_get image.now.slots place) }
{
    match image.slots.get(place) {
        Some(Slot::Exec { origin, word }) if *origin == pc => Some(*word),
        _ => None,
    }
}

/// Whether this is the word that sets the register of the load at an address to its one value.
fn is_set(image: &Image, pc: u32, i: &Inst, done: Option<u32>) -> bool
    requires image { IsImage image.now }
    requires well_formed { IsWellFormed i.now }
    ensures { IsTrue result ↔ IsSetBy image.now pc i.now done }
{
    done.is_some() && done == set_word(value_at(image, pc), i)
}

/// Whether the slot at a place goes on at this address.
fn goes_to(image: &Image, place: usize, pc: u32) -> bool
    ensures { IsTrue result ↔ (slice_get image.now.slots place ≡ Some (Go pc)) }
{
    match image.slots.get(place) {
        Some(Slot::Go { target }) => *target == pc,
        _ => false,
    }
}

/// Whether the slot at a place is the `Fork` of the anchor of this number.
pub(crate) fn forks(image: &Image, place: usize, number: u32) -> bool
    ensures { IsTrue result ↔ (slice_get image.now.slots place ≡ Some (Fork number)) }
{
    match image.slots.get(place) {
        Some(Slot::Fork { anchor }) => *anchor == number,
        _ => false,
    }
}

/// Whether the slot of the note at this address stands at a place.
pub(crate) fn stands_at(image: &Image, place: usize, pc: u32) -> bool
    requires { IsImage image.now }
    ensures { IsTrue result ↔ (slot_of image.now pc ≡ Some place) }
{
    match slot_of(image, pc) {
        Some(slot) => slot as usize == place,
        None => false,
    }
}

/// In which way the word of a note is done.
pub(crate) fn way_of(image: &Image, note: &Note, word: u32, i: &Inst) -> Way
    requires image { IsImage image.now }
    requires means { i.now ≡ meaning word }
    requires well_formed { IsWellFormed i.now }
    ensures { (words : ℕ → ℕ) → words note.now.pc ≡ word → IsWay words image.now note.now result }
{
    let place = body_place(image, note);
    let done = word_done(image, place, note.pc);
    let on = goes_on(image, note.pc, i);
    if done == Some(word) {
        Way::Kept
    } else if is_set(image, note.pc, i, done) {
        Way::Set
    } else if goes_to(image, place, on) || stands_at(image, place, on) {
        Way::Passed
    } else {
        Way::Lost
    }
}
