//! Copies of programs.

ghost use Rattle.std.specs.Prelude.{◌≡◌, IfOk};

use elf_reader::{Part, Program};
use std::alloc::{AllocError, Global};

/// A copy of a part.
fn copy_part(part: &Part) -> Result<Part, AllocError>
    ensures { IfOk result (λ copy. copy ≡ part.now) }
{
    Ok(Part {
        at: part.at,
        bytes: part.bytes.clone()?,
        zeros: part.zeros,
    })
}

/// A copy of each part.
fn copy_parts(alloc: Global, parts: &[Part]) -> Result<Vec<Part>, AllocError>
    ensures { IfOk result (λ copy. copy.items ≡ parts.now) }
{
    let mut copy = Vec::new(alloc);
    for part in parts {
        copy.push(copy_part(part)?)?;
    }
    Ok(copy)
}

/// A copy of a program.
pub(crate) fn copy_program(alloc: Global, p: &Program) -> Result<Program, AllocError>
    ensures { IfOk result (λ copy. copy ≡ p.now) }
{
    Ok(Program {
        entry: p.entry,
        parts: copy_parts(alloc, &p.parts)?,
        first_break: p.first_break,
    })
}
