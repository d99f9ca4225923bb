//! Writes a list of values.

ghost use Rattle.std.specs.Prelude.{◌≡◌, ◌++◌, IfOk, OnOk, Ok};
ghost use Rattle.std.specs.List.{flat_map};
ghost use Rattle.load_values.specs.Values.{AreValues};
ghost use Rattle.load_values.specs.Bytes.{row_bytes, bytes_of};
ghost use Rattle.load_values.specs.Reading.{values_from};

use crate::header::{MAGIC, VERSION};
use std::alloc::{AllocError, Global};
use word_format::put_words;

/// The bytes of a list of values: addresses of loads, which rise, and the value of each.
///
/// # Errors
///
/// Only where no memory was left.
pub fn write_values(alloc: Global, v: &[(u32, u32)]) -> Result<Vec<u8>, AllocError>
    requires { AreValues v.now }
    ensures bytes { IfOk result (λ bytes. bytes.items ≡ bytes_of v.now) }

    // So what is written is read as this list.
    ensures back { IfOk result (λ bytes. values_from bytes.items ≡ Ok v.now) }
{
    let mut out = Vec::new(alloc);
    put_words(&mut out, &[MAGIC, VERSION, v.len() as u32])?;
    put_rows(&mut out, v)?;
    Ok(out)
}

fn put_rows(out: &mut Vec<u8>, rows: &[(u32, u32)]) -> Result<(), AllocError>
    ensures { OnOk result (out.new.items ≡ out.old.items ++ flat_map row_bytes rows.now) }
{
    for (pc, value) in rows {
        put_words(out, &[*pc, *value])?;
    }
    Ok(())
}
