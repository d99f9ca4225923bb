//! Programs, and the memory that they begin with.

ghost use Rattle.std.specs.Prelude.{◌≡◌, ◌≤◌};
ghost use Rattle.cells.specs.Bytes.{word_of};
ghost use Rattle.elf_reader.specs.Executable.{end_of, byte_in, memory_of, HasWords};

use std::marker::Model;

/// A part of the memory that a program begins with.
#[derive(Debug, Drop)]
pub struct Part {
    /// The address of its first byte.
    pub at: u32,
    /// Its bytes, as the file has them.
    pub bytes: Vec<u8>,
    /// How many zeros follow these bytes.
    pub zeros: u32,
}

impl Model for Part {
    ghost use Rattle.elf_reader.specs.Executable.{Segment};

    ghost Value = { Segment };

    ghost view = { λ part. record { at = part.at; bytes = part.bytes.items; zeros = part.zeros } };
}

/// A program, as its file gives it.
#[derive(Debug, Drop)]
pub struct Program {
    /// The address of the first instruction, a multiple of 4.
    pub entry: u32,
    /// At most 64 parts, each of which ends at the address 0xFFFFF000 or below. Where they overlap,
    /// later ones win, with their zeros too.
    pub parts: Vec<Part>,
    /// The first multiple of 4,096 that no part reaches past, or 0 where there is no part.
    pub first_break: u32,
}

impl Model for Program {
    ghost use Rattle.elf_reader.specs.Executable.{Executable, HaveBytes};

    ghost Value = { Executable };

    ghost view = { λ program. record {
      entry = program.entry;
      parts = program.parts.items;
      first_break = program.first_break;
    } };

    // Contracts see the parts as lists of numbers, which are bytes.
    ghost invariant = { λ program. HaveBytes program.parts.items };
}

impl Program {
    /// Each word of the memory that a program begins with has 32 bits, since each byte of it has 8.
    /// Does nothing: it is called where a proof needs that.
    pub fn has_words(&self)
        ensures { HasWords self.now }
    {
        let _ = &self.parts;
    }
}

impl Part {
    /// The address after the last one of the part.
    pub(crate) fn end(&self) -> u32
        requires { end_of self.now ≤ 0xFFFF_F000 }
        ensures { result ≡ end_of self.now }
    {
        self.at + self.bytes.len() as u32 + self.zeros
    }

    /// What the part has at an address, if it covers the address.
    fn byte_at(&self, address: u32) -> Option<u8>
        ensures { result ≡ byte_in self.now address }
    {
        let offset = address.checked_sub(self.at)? as usize;
        match self.bytes.get(offset) {
            Some(byte) => Some(*byte),
            None if offset < self.bytes.len() + self.zeros as usize => Some(0),
            None => None,
        }
    }
}

/// The word at an address, in the memory that a program begins with.
///
/// The lowest byte comes first, and after the last address comes 0. Takes no memory.
pub fn word_at(p: &Program, pc: u32) -> u32
    ensures { result ≡ word_of (memory_of p.now.parts) pc }
{
    let parts = p.parts.as_slice();
    u32::from_le_bytes([
        byte_at(parts, pc),
        byte_at(parts, pc.wrapping_add(1)),
        byte_at(parts, pc.wrapping_add(2)),
        byte_at(parts, pc.wrapping_add(3)),
    ])
}

/// The byte at an address: that of the last part that covers it.
fn byte_at(parts: &[Part], address: u32) -> u8
    ensures { result ≡ memory_of parts.now address }
{
    let mut below = parts;
    while let Some((part, rest)) = below.split_last() {
        if let Some(byte) = part.byte_at(address) {
            return byte;
        }
        below = rest;
    }
    0
}
