//! Reads the static executables of RV32IM that a stock toolchain links, from their ELF files.
//!
//! A file is read as the System V ABI describes it, 32-bit, with the numbers of the RISC-V ELF
//! psABI. Only the file's header and its program headers count: sections, symbols and all other
//! fields are passed over.
#![tactic(auto)]

ghost use Rattle.std.specs.Prelude.{◌≡◌, ◌≢◌, IfOk, IfErr, IsErrOf, None, Some};
ghost use Rattle.elf_reader.specs.Executable.{IsProgram};
ghost use Rattle.elf_reader.specs.Refusal.{refusal};
ghost use Rattle.elf_reader.specs.Accepted.{program_of};

mod acceptance;
mod build;
mod error;
mod header;
mod program;

use crate::acceptance::accept;
use crate::build::{are_bytes, first_break, parts_of};
pub use error::ElfErr;
pub use program::{Part, Program, word_at};
use std::alloc::Global;

/// Reads the program of an ELF file.
///
/// The parts stand in the order of their program headers, those of type `PT_LOAD`. Headers of other
/// types are passed over, whatever their fields say, except that none may ask for an interpreter.
/// Memory is asked for only once the file is accepted, and for no zeros.
///
/// # Errors
///
/// The first refusal that stands, in the order of [`ElfErr`], or `Memory`.
pub fn read_elf(alloc: Global, bytes: &[u8]) -> Result<Program, ElfErr>
    ensures accepted { IfOk result (λ program.
        (refusal bytes.now ≡ None) × (program ≡ program_of bytes.now)) }
    ensures program { IfOk result IsProgram }
    ensures refused { IfErr result (λ e. e ≢ ElfErr.Memory → refusal bytes.now ≡ Some e) }

    // Want of memory comes only to a file that is accepted.
    ensures memory { IsErrOf result ElfErr.Memory → refusal bytes.now ≡ None }
{
    let header = accept(bytes)?;
    let parts = parts_of(alloc, bytes, &header)?;
    let first_break = first_break(&parts);
    are_bytes(bytes);
    Ok(Program {
        entry: header.e_entry,
        parts,
        first_break,
    })
}
