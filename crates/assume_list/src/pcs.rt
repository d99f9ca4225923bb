//! What an image says of addresses, with the answers kept for those that were asked about last.

ghost use Rattle.std.specs.Prelude.{◌≡◌, ℕ, ◌<◌, ◌≤◌, Some, not, nat_eq, IfOk};
ghost use Rattle.dist_image.specs.Image.{IsImage, prints_at};
ghost use Rattle.image_semantics.specs.World.{count_of};
ghost use Rattle.fitting.specs.Fits.{is_analysed};
ghost use Rattle.rv_semantics.specs.Prints.{asks};
ghost use Rattle.assume_list.specs.Marks.{dead_in};
ghost use Rattle.assume_list.specs.Places.{Tells, AreKnown};

use crate::instruction::is_call;
use crate::sight::{claims_dead, count_of, is_analysed};
use dist_image::{Image, prints_at};
use rv_word::Inst;
use std::alloc::{AllocError, Global};

/// How many answers are kept: one for the low bits of an address.
const PLACES: usize = 4_096;

/// What an image says of an address.
#[derive(Clone, Copy)]
pub(crate) struct Said {
    pub pc: u32,
    /// It has a note.
    pub noted: bool,
    /// The count of the anchor there, if there is one.
    pub count: Option<u32>,
    /// A task may print there.
    pub prints: bool,
    /// A store there is claimed dead.
    pub dead: bool,
}

/// What an image says of the addresses that were asked about last.
#[derive(Drop)]
pub(crate) struct Pcs {
    pub said: Vec<Said>,
}

// By the tables of the image.
fn look_up(image: &Image, pc: u32) -> Said
    requires { IsImage image.now }
    ensures pc { result.pc ≡ pc }
    ensures tells { Tells image.now result }
{
    Said {
        pc,
        noted: is_analysed(image, pc),
        count: count_of(image, pc),
        prints: prints_at(image, pc),
        dead: claims_dead(image, pc),
    }
}

impl Pcs {
    /// What is said of the address 0 alone.
    pub(crate) fn new(alloc: Global, image: &Image) -> Result<Self, AllocError>
        requires { IsImage image.now }
        ensures { IfOk result (λ pcs. AreKnown pcs image.now) }
    {
        let first = look_up(image, 0);
        Ok(Pcs {
            said: vec![in alloc; first; PLACES]?,
        })
    }

    // What the image says of an address, kept at this place.
    #[inline(never)]
    fn renew(&mut self, image: &Image, pc: u32, place: usize) -> Said
        requires image { IsImage image.now }
        requires known { AreKnown self.old image.now }
        requires place { place < 4_096 }
        ensures known { AreKnown self.new image.now }
        ensures pc { result.pc ≡ pc }
        ensures tells { Tells image.now result }
    {
        let said = look_up(image, pc);
        self.said[place] = said;
        said
    }

    // What the image says of an address.
    #[inline(always)]
    fn ask(&mut self, image: &Image, pc: u32) -> Said
        requires image { IsImage image.now }
        requires known { AreKnown self.old image.now }
        ensures known { AreKnown self.new image.now }
        ensures pc { result.pc ≡ pc }
        ensures tells { Tells image.now result }
    {
        let place = (pc / 4) as usize % PLACES;
        let said = self.said[place];
        if said.pc == pc {
            return said;
        }
        self.renew(image, pc, place)
    }

    /// Whether an address is analysed: it has a note.
    #[inline(always)]
    pub(crate) fn is_noted(&mut self, image: &Image, pc: u32) -> bool
        requires image { IsImage image.now }
        requires known { AreKnown self.old image.now }
        ensures known { AreKnown self.new image.now }
        ensures noted { result ≡ is_analysed image.now pc }
    {
        self.ask(image, pc).noted
    }

    /// Whether the instruction at an address is a call where a task may print.
    #[inline(always)]
    pub(crate) fn asks(&mut self, image: &Image, inst: Inst, pc: u32) -> bool
        requires image { IsImage image.now }
        requires known { AreKnown self.old image.now }
        ensures known { AreKnown self.new image.now }
        ensures asks { result ≡ asks (prints_at image.now) inst pc }
    {
        is_call(inst) && self.ask(image, pc).prints
    }

    /// Whether the image claims that a store at an address is dead.
    #[inline(always)]
    pub(crate) fn is_dead(&mut self, image: &Image, pc: u32) -> bool
        requires image { IsImage image.now }
        requires known { AreKnown self.old image.now }
        ensures known { AreKnown self.new image.now }
        ensures dead { result ≡ not (nat_eq (dead_in image.now.assumptions pc) 0) }
    {
        self.ask(image, pc).dead
    }

    /// The count of the anchor at an address, if one is there.
    #[inline(always)]
    pub(crate) fn count(&mut self, image: &Image, pc: u32) -> Option<u32>
        requires image { IsImage image.now }
        requires known { AreKnown self.old image.now }
        ensures known { AreKnown self.new image.now }
        ensures count { result ≡ count_of image.now pc }
        ensures some { (n : ℕ) → result ≡ Some n → 1 ≤ n }
    {
        self.ask(image, pc).count
    }
}
