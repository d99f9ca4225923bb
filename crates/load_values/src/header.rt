//! The header of the file.

ghost use Rattle.load_values.specs.Reading.{Gives};
ghost use Rattle.load_values.specs.Reading as spec;

use crate::error::ValuesErr;
use crate::field::next_word;

/// The text `MSPV`, as a number whose lowest byte comes first.
pub(crate) const MAGIC: u32 = 0x5650_534D;

/// The version of the format.
pub(crate) const VERSION: u32 = 1;

/// The size of the header in bytes.
const SIZE: usize = 12;

/// The greatest number of rows.
const MOST_ROWS: u32 = 524_288;

/// Reads the header at the front, and gives the number of rows and the bytes after it.
#[tactic(auto, unfolding(crate::specs::Reading::next_header))]
pub(crate) fn next_header(bytes: &[u8]) -> Result<(u32, &[u8]), ValuesErr>
    ensures { Gives (λ x. (x.0, x.1.now)) result (spec.next_header bytes.now) }
{
    if bytes.len() < SIZE {
        return Err(ValuesErr::Short);
    }
    let (magic, rest) = next_word(bytes)?;
    let (version, rest) = next_word(rest)?;
    let (rows, rest) = next_word(rest)?;
    let count = admit_header(magic, version, rows)?;
    Ok((count, rest))
}

/// Tests the header.
fn admit_header(magic: u32, version: u32, rows: u32) -> Result<u32, ValuesErr>
    ensures { Gives (λ x. x) result (spec.admit_header magic version rows) }
{
    if magic != MAGIC {
        return Err(ValuesErr::Magic);
    }
    if version != VERSION {
        return Err(ValuesErr::Version);
    }
    if rows > MOST_ROWS {
        return Err(ValuesErr::TooMany);
    }
    Ok(rows)
}
