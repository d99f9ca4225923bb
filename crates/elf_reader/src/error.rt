//! Why a file is refused.

ghost use Rattle.std.specs.Prelude.{◌≡◌};
ghost use Rattle.elf_reader.specs.declared.error.ElfErr.TheVariants.{Memory};

use std::alloc::AllocError;
use thiserror::Error;

/// Why a file was not read, in the order in which the refusals are tested.
///
/// A number is that of a program header in its table, from 0 on, where headers of every type count.
#[derive(Clone, Copy, Debug, PartialEq, Eq, Error)]
pub enum ElfErr {
    /// The file has fewer than 52 bytes, the size of its header.
    #[error("fewer than 52 bytes")]
    Short,
    /// The first four bytes are not those of an ELF file.
    #[error("not an ELF file")]
    Magic,
    /// The file is not for 32 bits: `EI_CLASS` is not `ELFCLASS32`.
    #[error("not a 32-bit file")]
    Class,
    /// The file is not little-endian: `EI_DATA` is not `ELFDATA2LSB`.
    #[error("not little-endian")]
    Endian,
    /// `EI_VERSION` is not 1.
    #[error("unknown version")]
    Version,
    /// The file is no static executable: `e_type` is not `ET_EXEC`.
    #[error("not an executable")]
    Kind,
    /// The file is not for RISC-V: `e_machine` is not `EM_RISCV`.
    #[error("not for RISC-V")]
    Machine,
    /// `e_flags` asks for compressed code, for floats in registers or for RV32E.
    #[error("flags of an unsupported extension")]
    Flags,
    /// `e_entry` is not a multiple of 4.
    #[error("misaligned entry")]
    Entry,
    /// There are program headers, and they do not have 32 bytes each or their table ends past the
    /// file.
    #[error("malformed table of program headers")]
    Table,
    /// There are more than 64 program headers.
    #[error("more than 64 program headers")]
    TooMany,
    /// A program header asks for an interpreter.
    #[error("an interpreter is asked for")]
    Interp,
    /// The bytes of this segment end past the file.
    #[error("the bytes of program header {0} end past the file")]
    Outside(u32),
    /// This segment has more bytes in the file than in memory.
    #[error("program header {0} has more bytes in the file than in memory")]
    Larger(u32),
    /// This segment ends above the address 0xFFFFF000.
    #[error("program header {0} ends above 0xfffff000")]
    Wraps(u32),
    /// No memory was left.
    #[error("out of memory")]
    Memory,
}

impl From<AllocError> for ElfErr {
    ghost from_gives = { λ _ e. e ≡ Memory };

    fn from(_e: AllocError) -> ElfErr {
        ElfErr::Memory
    }
}
