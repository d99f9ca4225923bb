//! Writes numbers, the lowest byte of each first.

ghost use Rattle.std.specs.Prelude.{◌≡◌, ◌++◌, OnOk};
ghost use Rattle.std.specs.Int.{w64, to_le_bytes};
ghost use Rattle.word_format.specs.Bytes.{words};

use std::alloc::AllocError;

/// Puts numbers of four bytes at the end.
///
/// # Errors
///
/// Only where no memory was left.
pub fn put_words(out: &mut Vec<u8>, numbers: &[u32]) -> Result<(), AllocError>
    ensures { OnOk result (out.new.items ≡ out.old.items ++ words numbers.now) }
{
    for number in numbers {
        out.extend_from_slice(&number.to_le_bytes())?;
    }
    Ok(())
}

/// Puts a number of eight bytes at the end.
///
/// # Errors
///
/// Only where no memory was left.
pub fn put_long(out: &mut Vec<u8>, number: u64) -> Result<(), AllocError>
    ensures { OnOk result (out.new.items ≡ out.old.items ++ to_le_bytes w64 number) }
{
    out.extend_from_slice(&number.to_le_bytes())
}
