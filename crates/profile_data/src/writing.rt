//! Writes a profile.

ghost use Rattle.std.specs.Prelude.{◌≡◌, ◌<◌, ◌≤◌, ◌^◌, ◌++◌, length, IfOk, OnOk, Ok};
ghost use Rattle.std.specs.List.{flat_map};
ghost use Rattle.profile_data.specs.Profile.{target_count};
ghost use Rattle.profile_data.specs.Bytes.{head_bytes, header_bytes, row_bytes, bytes_of};
ghost use Rattle.profile_data.specs.Reading.{profile_from};

use crate::header::{MAGIC, VERSION};
use crate::profile::{Profile, Row};
use std::alloc::{AllocError, Global};
use word_format::{put_long, put_words};

/// The bytes of a profile.
///
/// # Errors
///
/// Only where no memory was left.
pub fn write_profile(alloc: Global, p: &Profile) -> Result<Vec<u8>, AllocError>
    ensures bytes { IfOk result (λ bytes. bytes.items ≡ bytes_of p.now) }

    // So what is written is read as this profile.
    ensures back { IfOk result (λ bytes. profile_from bytes.items ≡ Ok p.now) }
{
    let mut out = Vec::new(alloc);
    put_header(&mut out, p)?;
    put_rows(&mut out, p.rows())?;
    Ok(out)
}

fn put_header(out: &mut Vec<u8>, p: &Profile) -> Result<(), AllocError>
    ensures { OnOk result (out.new.items ≡ out.old.items ++ header_bytes p.now) }
{
    put_words(out, &[MAGIC])?;
    put_words(out, &[VERSION])?;
    put_long(out, p.steps())?;
    put_words(out, &[u32::from(p.ended())])?;
    put_words(out, &[p.len()])
}

fn put_rows(out: &mut Vec<u8>, rows: &[Row]) -> Result<(), AllocError>
    requires { target_count rows.now < 2 ^ 32 }
    ensures { OnOk result (out.new.items ≡ out.old.items ++ flat_map row_bytes rows.now) }
{
    for row in rows {
        put_row(out, row)?;
    }
    Ok(())
}

fn put_row(out: &mut Vec<u8>, row: &Row) -> Result<(), AllocError>
    requires { length row.now.targets < 2 ^ 32 }
    ensures { OnOk result (out.new.items ≡ out.old.items ++ row_bytes row.now) }
{
    put_head(out, row)?;
    put_words(out, &row.targets)
}

/// Puts the numbers before a row's targets.
fn put_head(out: &mut Vec<u8>, row: &Row) -> Result<(), AllocError>
    requires { length row.now.targets < 2 ^ 32 }
    ensures { OnOk result (out.new.items ≡ out.old.items ++ head_bytes row.now) }
{
    put_words(out, &[row.pc])?;
    put_words(out, &[u32::from(row.read) + 2 * u32::from(row.changed)])?;
    put_long(out, row.executed)?;
    put_long(out, row.taken)?;
    put_words(out, &[row.targets.len() as u32])
}
