//! What an image holds.

ghost use Rattle.std.specs.Prelude.{◌≡◌};
ghost use Rattle.dist_image.specs.Image.{nothing_known};

use std::alloc::Global;
use std::marker::Model;

/// What the master does at a place of the distilled program.
#[derive(Clone, Copy, Debug, Drop, PartialEq, Eq)]
pub enum Slot {
    /// Does one instruction, at the address `origin`, a multiple of 4.
    Exec { origin: u32, word: u32 },
    /// Goes on at the address `target`, a multiple of 4.
    Go { target: u32 },
    /// Is where the anchor of this number stands: a task may begin.
    Fork { anchor: u32 },
}

/// A place where tasks begin.
#[derive(Clone, Copy, Debug, Drop, PartialEq, Eq)]
pub struct Anchor {
    /// Its address, a multiple of 4.
    pub pc: u32,
    /// The number of its slot.
    pub slot: u32,
    /// At each how many-th arrival a task begins, from 1 to 64.
    pub count: u32,
}

/// What is known of an address of the program.
#[derive(Clone, Copy, Debug, Drop, PartialEq, Eq)]
pub struct Note {
    /// The address, a multiple of 4.
    pub pc: u32,
    /// The number of the slot where the distilled program goes on.
    pub slot: u32,
    /// The registers that are live in the program, a bit for each, without register 0.
    pub live: u32,
    /// The registers that the distilled program needs, a bit for each, without register 0.
    pub need: u32,
}

/// What a distilled program assumes of the run of the program.
#[derive(Debug, Drop)]
pub enum Assumption {
    /// The branch at `at` never goes the way `taken` tells.
    Cut { at: u32, taken: bool },
    /// The indirect jump at `at` goes to these addresses only, which rise.
    Targets { at: u32, to: Vec<u32> },
    /// What the store at `at` writes is never loaded.
    Dead { at: u32 },
    /// No analysed instruction is changed.
    Code,
    /// The run does not leave the analysed addresses.
    Within,
    /// The run comes from anchor to anchor within the task limit.
    Span,
    /// The load at `at` always loads `value`, extended to 32 bits.
    Same { at: u32, value: u32 },
}

/// An image: a version, a task limit and five tables. It need not fit any program.
///
/// An image of version 1 has no writes, and no assumption about what a load loads.
#[derive(Debug, Drop)]
pub struct Image {
    /// The version of the format, 1 or 2.
    pub version: u32,
    /// The most steps of a task: from 16 to 16,384, in version 2 to 4,096.
    pub limit: u32,
    /// At most 1,048,576 slots.
    pub slots: Vec<Slot>,
    /// At most 524,288 anchors, by rising addresses.
    pub anchors: Vec<Anchor>,
    /// At most 524,288 notes, by rising addresses.
    pub notes: Vec<Note>,
    /// At most 1,048,576 assumptions, with as many targets in all. They are ordered by their kinds, as
    /// [`Assumption`] lists them, and those of a kind by rising addresses.
    pub assumptions: Vec<Assumption>,
    /// At most 524,288 addresses, which rise: at a call that stands at one of them a task may print.
    pub writes: Vec<u32>,
}

impl Model for Image {
    ghost use Rattle.std.specs.Prelude.{map};
    ghost use Rattle.dist_image.specs.Image.{Distilled, premise};

    ghost Value = { Distilled };

    ghost view = { λ image. record {
      version = image.version;
      limit = image.limit;
      slots = image.slots.items;
      anchors = image.anchors.items;
      notes = image.notes.items;
      assumptions = map premise image.assumptions.items;
      writes = image.writes.items;
    } };
}

/// The image that knows nothing: version 1, limit 16, and no entries. Takes no memory.
pub fn empty_image(alloc: Global) -> Image
    ensures { result ≡ nothing_known }
{
    Image {
        version: 1,
        limit: 16,
        slots: Vec::new(alloc),
        anchors: Vec::new(alloc),
        notes: Vec::new(alloc),
        assumptions: Vec::new(alloc),
        writes: Vec::new(alloc),
    }
}
