//! Where the notes of addresses lie, as far as that is remembered.
ghost use Rattle.std.specs.Prelude.{◌≡◌, ◌<◌, length, slice_get, Some, IfSome};
ghost use Rattle.dist_image.specs.Image.{IsImage, slot_of};

use dist_image::Image;

/// For each of 64 kinds of addresses the place, among an image's notes, of the one that was found
/// last.
///
/// A place is looked at before it is used, so that nothing has to be known of it. 64 neighbouring
/// instructions are of different kinds: a loop that is no longer finds each of its slots at once.
#[derive(Drop)]
pub(crate) struct Places {
    near: [u32; 64],
}

// One of 64 kinds of addresses.
#[inline(always)]
fn kind(pc: u32) -> usize
    ensures { result < 64 }
{
    (pc / 4 % 64) as usize
}

// The slot of the note at a place, if that note is the one of an address.
#[inline(always)]
fn slot_there(image: &Image, place: usize, pc: u32) -> Option<u32>
    requires { IsImage image.now }
    ensures { IfSome result (λ slot. slot_of image.now pc ≡ Some slot) }
{
    match image.notes.get(place) {
        Some(note) if note.pc == pc => Some(note.slot),
        _ => None,
    }
}

impl Places {
    /// Nothing is remembered.
    pub(crate) fn new() -> Places {
        Places { near: [0; 64] }
    }

    /// The number of the slot at an address: that of its note. None where the address has no note.
    #[inline(always)]
    pub(crate) fn slot_at(&mut self, image: &Image, pc: u32) -> Option<u32>
        requires { IsImage image.now }
        ensures { result ≡ slot_of image.now pc }
    {
        match slot_there(image, self.near[kind(pc)] as usize, pc) {
            Some(slot) => Some(slot),
            None => self.find(image, pc),
        }
    }

    // The same where the place isn't remembered: the note behind that of the address before is tried, and
    // else the notes are searched.
    #[inline(never)]
    fn find(&mut self, image: &Image, pc: u32) -> Option<u32>
        requires { IsImage image.now }
        ensures { result ≡ slot_of image.now pc }
    {
        let next = self.near[kind(pc.wrapping_sub(4))].saturating_add(1);
        match slot_there(image, next as usize, pc) {
            Some(slot) => {
                self.near[kind(pc)] = next;
                Some(slot)
            }
            None => self.search(image, pc),
        }
    }

    // The same by a search.
    fn search(&mut self, image: &Image, pc: u32) -> Option<u32>
        requires { IsImage image.now }
        ensures { result ≡ slot_of image.now pc }
    {
        let notes = image.notes.as_slice();
        match notes.binary_search_by_key(&pc, |note| note.pc) {
            Ok(place) => {
                self.near[kind(pc)] = place as u32;
                Some(notes[place].slot)
            }
            Err(_) => None,
        }
    }
}
