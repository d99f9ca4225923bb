//! The ELF file of a program.

ghost use Rattle.std.specs.Prelude.{◌≡◌, ◌≤◌, ◌++◌, length, IfOk, OnOk};
ghost use Rattle.trial.specs.File.{bytes_of, file_of};

use std::alloc::{AllocError, Global};

/// The header of a statically linked executable for RISC-V of 32 bits that begins at 0x0001_0000, with
/// one program header.
static FRONT: [u32; 13] = [
    0x464C_457F,
    0x0001_0101,
    0,
    0,
    0x00F3_0002,
    1,
    0x0001_0000,
    52,
    0,
    0,
    0x0020_0034,
    1,
    0,
];

/// Puts numbers at the end, the lowest byte of each first.
fn put_words(out: &mut Vec<u8>, numbers: &[u32]) -> Result<(), AllocError>
    ensures { OnOk result (out.new.items ≡ out.old.items ++ bytes_of numbers.now) }
{
    for number in numbers {
        out.extend_from_slice(&number.to_le_bytes())?;
    }
    Ok(())
}

/// The file that loads these words at 0x0001_0000 and begins there.
pub(crate) fn file_of(alloc: Global, words: &[u32]) -> Result<Vec<u8>, AllocError>
    requires { length words.now ≤ 1_000_000 }
    ensures { IfOk result (λ file. file.items ≡ file_of words.now) }
{
    let size = 4 * words.len() as u32;
    let loads = [1, 84, 0x0001_0000, 0x0001_0000, size, size, 5, 4];
    let mut out = Vec::new(alloc);
    put_words(&mut out, &FRONT)?;
    put_words(&mut out, &loads)?;
    put_words(&mut out, words)?;
    Ok(out)
}
