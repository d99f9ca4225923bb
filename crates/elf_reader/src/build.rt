//! Makes the program of an accepted file.

ghost use Rattle.std.specs.Prelude.{◌≡◌, ◌≤◌, ◌+◌, length, map, max, unwrap_or, IfOk, All, None};
ghost use Rattle.std.specs.List.{reduce};
ghost use Rattle.elf_reader.specs.Executable.{end_of, first_break_of, AreBytes};
ghost use Rattle.elf_reader.specs.Header.{program_headers};
ghost use Rattle.elf_reader.specs.Refusal.{first_that_stands, faults, HasTable};
ghost use Rattle.elf_reader.specs.Accepted.{segment, segments};

use crate::header::{FileHeader, ProgramHeader};
use crate::program::Part;
use std::alloc::{AllocError, Global};

/// The size of a page: the break begins at a multiple of it.
const PAGE: u32 = 4096;

/// The bytes of a file are below 256: contracts see them as numbers. Does nothing.
pub(crate) fn are_bytes(file: &[u8])
    ensures { AreBytes file.now }
{}

/// The parts of an accepted file, in the order of their headers.
pub(crate) fn parts_of(
    alloc: Global,
    file: &[u8],
    header: &FileHeader,
) -> Result<Vec<Part>, AllocError>
    requires table { HasTable file.now header.now }
    requires accepted { first_that_stands (faults file.now header.now) ≡ None }
    ensures { IfOk result (λ parts.
        parts.items ≡ segments file.now (program_headers file.now header.now)) }
{
    let mut parts = Vec::new(alloc);
    for number in 0..header.e_phnum {
        let entry = ProgramHeader::read(file, header, number);
        if entry.p_type == ProgramHeader::PT_LOAD {
            parts.push(part_of(alloc, file, &entry)?)?;
        }
    }
    Ok(parts)
}

/// The part that a program header asks for. Its zeros take no memory.
fn part_of(alloc: Global, file: &[u8], entry: &ProgramHeader) -> Result<Part, AllocError>
    requires inside { entry.now.p_offset + entry.now.p_filesz ≤ length file.now }
    requires fits { entry.now.p_filesz ≤ entry.now.p_memsz }
    ensures { IfOk result (λ part. part ≡ segment file.now entry.now) }
{
    let from = entry.p_offset as usize;
    let to = from + entry.p_filesz as usize;
    Ok(Part {
        at: entry.p_vaddr,
        bytes: Vec::from_slice(alloc, &file[from..to])?,
        zeros: entry.p_memsz - entry.p_filesz,
    })
}

/// The first multiple of the page size that no part reaches past, or 0 where there is no part.
pub(crate) fn first_break(parts: &[Part]) -> u32
    requires { All (λ part. end_of part ≤ 0xFFFF_F000) parts.now }
    ensures { result ≡ first_break_of parts.now }
{
    greatest_end(parts).next_multiple_of(PAGE)
}

/// The address at which the highest part ends, or 0 where there is no part.
fn greatest_end(parts: &[Part]) -> u32
    requires { All (λ part. end_of part ≤ 0xFFFF_F000) parts.now }
    ensures end { result ≡ unwrap_or (reduce max (map end_of parts.now)) 0 }
    ensures below { result ≤ 0xFFFF_F000 }
{
    parts.iter().map(|part| part.end()).max().unwrap_or(0)
}
