//! Which rule a note breaks, and whether an anchor keeps its own.

ghost use Rattle.std.specs.Prelude.{◌≡◌, ℕ, true, ◌↔◌, IsTrue};
ghost use Rattle.rv_word.specs.Spelling.{IsWellFormed};
ghost use Rattle.dist_image.specs.Image.{IsImage};
ghost use Rattle.fitting.specs.Fits.{IsWithin, IsWithinBut};
ghost use Rattle.certify.specs.declared.way.Way.TheVariants.{Lost};
ghost use Rattle.certify.specs.Answers.{IsForked};
ghost use Rattle.certify.specs.Parts.{IsLeast};
ghost use Rattle.certify.specs.Ways.{IsAllowedIn, IsNeeded, IsAnchored};

use crate::masks::{Masks, masks_at, masks_behind};
use crate::passing::{goes_on, is_aimed, may_pass};
use crate::registers::{Used, is_within, is_within_but, used_by};
use crate::way::{Way, forks, is_anchor, stands_at, way_of};
use dist_image::{Anchor, Image, Note};
use rv_word::{Inst, decode};

/// Whether the master comes to another place.
fn is_lost(way: Way) -> bool
    ensures { IsTrue result ↔ (way ≡ Lost) }
{
    matches!(way, Way::Lost)
}

/// Whether an instruction that is passed over may be.
fn is_allowed(image: &Image, pc: u32, i: &Inst, way: Way) -> bool
    requires image { IsImage image.now }
    requires well_formed { IsWellFormed i.now }
    ensures { IsTrue result ↔ IsAllowedIn way image.now pc i.now }
{
    match way {
        Way::Passed => {
            let behind = masks_at(image, goes_on(image, pc, i));
            may_pass(image, pc, behind.need, i)
        }
        _ => true,
    }
}

/// Whether no live register is left out.
fn live_fits(live: u32, used: Used, behind: Masks) -> bool
    ensures { IsTrue result ↔ (IsWithin used.reads live × IsWithinBut used.writes behind.live live) }
{
    is_within(used.reads, live) && is_within_but(used.writes, behind.live, live)
}

/// Whether no needed register is left out, but for those that are needed at an anchor's address.
fn is_needed(need: u32, used: Used, behind: Masks, way: Way) -> bool
    ensures { IsTrue result ↔ IsNeeded way used.reads used.writes behind.need need }
{
    match way {
        Way::Kept => {
            is_within(used.reads, need) && is_within_but(used.writes, behind.need, need)
        }
        Way::Set => is_within_but(used.writes, behind.need, need),
        Way::Passed | Way::Lost => is_within(behind.need, need),
    }
}

/// Whether what is live at a note is needed, if its address is an anchor's.
fn anchor_fits(image: &Image, note: &Note) -> bool
    requires { IsImage image.now }
    ensures { IsTrue result ↔ IsAnchored image.now note.now }
{
    !is_anchor(image, note.pc) || is_within(note.live, note.need)
}

/// Whether no needed register is left out.
fn need_fits(image: &Image, note: &Note, used: Used, behind: Masks, way: Way) -> bool
    requires { IsImage image.now }
    ensures { IsTrue result ↔ (IsNeeded way used.reads used.writes behind.need note.now.need
        × IsAnchored image.now note.now) }
{
    is_needed(note.need, used, behind, way) && anchor_fits(image, note)
}

/// The least of the rules from the third on that a note breaks, if it breaks one. The program has this
/// word at its address.
pub(crate) fn broken_rule(image: &Image, note: &Note, word: u32) -> Option<u32>
    requires { IsImage image.now }
    ensures { (words : ℕ → ℕ) → words note.now.pc ≡ word → IsLeast words image.now note.now result }
{
    let i = decode(word);
    let way = way_of(image, note, word, &i);
    if is_lost(way) {
        return Some(3);
    }
    if !is_allowed(image, note.pc, &i, way) {
        return Some(4);
    }
    if !is_aimed(image, note.pc, &i) {
        return Some(5);
    }
    let used = used_by(image, note.pc, &i);
    let behind = masks_behind(image, note.pc, &i);
    if !live_fits(note.live, used, behind) {
        return Some(6);
    }
    if !need_fits(image, note, used, behind, way) {
        return Some(7);
    }
    None
}

/// Whether an anchor has a note, both have the same slot, and that is the anchor's `Fork`.
pub(crate) fn is_forked(image: &Image, number: u32, anchor: &Anchor) -> bool
    requires { IsImage image.now }
    ensures { IsTrue result ↔ IsForked image.now number anchor.now }
{
    let slot = anchor.slot as usize;
    stands_at(image, slot, anchor.pc) && forks(image, slot, number)
}
