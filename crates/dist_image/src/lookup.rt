//! What an image has at a program counter, and under a key, by binary search.

ghost use Rattle.std.specs.Prelude.{◌≡◌, is_some};
ghost use Rattle.std.specs.Option.{option_map, option_copied};
ghost use Rattle.dist_image.specs.Image.{IsImage, premise};
ghost use Rattle.dist_image.specs.Image as spec;

use crate::image::{Assumption, Image};

/// The number of the slot at an address: that of its note. None where the address has no note.
///
/// Takes no memory, and looks at no more notes than the logarithm of their number.
pub fn slot_of(i: &Image, pc: u32) -> Option<u32>
    requires { IsImage i.now }
    ensures { result ≡ spec.slot_of i.now pc }
{
    let notes = i.notes.as_slice();
    match notes.binary_search_by_key(&pc, |note| note.pc) {
        Ok(place) => Some(notes[place].slot),
        Err(_) => None,
    }
}

/// The number of the anchor at an address. None where no anchor stands there.
///
/// Takes no memory, and looks at no more anchors than the logarithm of their number.
pub fn anchor_at(i: &Image, pc: u32) -> Option<u32>
    requires { IsImage i.now }
    ensures { result ≡ spec.anchor_at i.now pc }
{
    match i.anchors.binary_search_by_key(&pc, |anchor| anchor.pc) {
        Ok(place) => Some(place as u32),
        Err(_) => None,
    }
}

/// Whether a task may print at an address: whether it is one of the writes.
///
/// Takes no memory, and looks at no more writes than the logarithm of their number.
pub fn prints_at(i: &Image, pc: u32) -> bool
    requires { IsImage i.now }
    ensures { result ≡ spec.prints_at i.now pc }
{
    match i.writes.binary_search_by_key(&pc, |at| *at) {
        Ok(_) => true,
        Err(_) => false,
    }
}

/// The assumption that an image lists under a key, if it lists one. Keys are those by which assumptions
/// are ordered: the number of the kind times `KIND`, and the address, or 0 where there is none.
///
/// Takes no memory, and looks at no more assumptions than the logarithm of their number.
pub fn keyed(i: &Image, key: u64) -> Option<&Assumption>
    requires { IsImage i.now }
    ensures { option_map premise (option_copied result) ≡ spec.keyed key i.now.assumptions }
{
    let all = i.assumptions.as_slice();
    match all.binary_search_by_key(&key, |x| x.key()) {
        Ok(place) => Some(&all[place]),
        Err(_) => None,
    }
}

/// Whether an image lists an assumption under a key.
pub fn lists(i: &Image, key: u64) -> bool
    requires { IsImage i.now }
    ensures { result ≡ is_some (spec.keyed key i.now.assumptions) }
{
    keyed(i, key).is_some()
}
