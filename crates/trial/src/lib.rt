//! Programs that a number makes: large inputs that anyone can repeat.
//!
//! A program is a sequence of blocks, each a loop over instructions that are drawn from the generator
//! PCG XSH RR 64/32. Each loop runs at least twice. The program stores its registers, writes the
//! stored bytes and exits.
#![tactic(auto)]

ghost use Rattle.std.specs.Prelude.{◌≡◌, ◌≤◌, IfOk, None};
ghost use Rattle.elf_reader.specs.Refusal.{refusal};
ghost use Rattle.trial.specs.Made.{words};
ghost use Rattle.trial.specs.File.{file_of, MadeIsAccepted};
ghost use Rattle.trial.specs.Rows.{MadeRows};

mod drawing;
mod file;
mod program;

use crate::file::file_of;
use crate::program::words;
use std::alloc::{AllocError, Global};

/// The ELF file of the program that a number makes with so many blocks, 1 to 10,000.
///
/// `read_elf` accepts it.
///
/// # Errors
///
/// Only where no memory was left.
pub fn make(alloc: Global, seed: u64, size: u32) -> Result<Vec<u8>, AllocError>
    requires some { 1 ≤ size }
    requires few { size ≤ 10_000 }
    ensures file { IfOk result (λ file. file.items ≡ file_of (words seed size)) }
    ensures accepted { IfOk result (λ file. refusal file.items ≡ None) }
{
    let words = words(alloc, seed, size)?;
    file_of(alloc, &words)
}

/// The file of each program that a number makes is accepted.
pub fn files_are_accepted()
    ensures { MadeIsAccepted }
{}

/// The programs of two numbers, as another program of the same rules makes them.
pub fn rows_are_worked()
    ensures { MadeRows }
{}
