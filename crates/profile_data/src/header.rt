//! The header of a profile's file.

ghost use Rattle.profile_data.specs.Reading.{Gives};
ghost use Rattle.profile_data.specs.Reading as spec;

use crate::error::ProfileErr;
use crate::field::{next_long, next_word};

/// The text `MSPF`, as a number whose lowest byte comes first.
pub(crate) const MAGIC: u32 = 0x4650_534D;

/// The version of the format.
pub(crate) const VERSION: u32 = 1;

/// The size of the header in bytes.
const SIZE: usize = 24;

/// The greatest number of rows.
const MOST_ROWS: u32 = 524_288;

/// The header, after its magic number and version.
#[derive(Clone, Copy, Debug)]
pub(crate) struct Header {
    pub steps: u64,
    /// Whether the run has ended: 1, or else 0.
    pub ended: u32,
    /// The number of rows.
    pub rows: u32,
}

/// Reads the header at the front, and gives the bytes after it.
#[tactic(auto, unfolding(crate::specs::Reading::next_header))]
pub(crate) fn next_header(bytes: &[u8]) -> Result<(Header, &[u8]), ProfileErr>
    ensures { Gives (λ x. (x.0, x.1.now)) result (spec.next_header bytes.now) }
{
    if bytes.len() < SIZE {
        return Err(ProfileErr::Short);
    }
    let (magic, rest) = next_word(bytes)?;
    let (version, rest) = next_word(rest)?;
    let (steps, rest) = next_long(rest)?;
    let (ended, rest) = next_word(rest)?;
    let (rows, rest) = next_word(rest)?;
    let header = Header { steps, ended, rows };
    let header = admit_header(magic, version, header)?;
    Ok((header, rest))
}

/// Tests the header.
fn admit_header(magic: u32, version: u32, header: Header) -> Result<Header, ProfileErr>
    ensures { Gives (λ x. x) result (spec.admit_header magic version header) }
{
    if magic != MAGIC {
        return Err(ProfileErr::Magic);
    }
    if version != VERSION {
        return Err(ProfileErr::Version);
    }
    if header.ended > 1 {
        return Err(ProfileErr::Mark);
    }
    if header.rows > MOST_ROWS {
        return Err(ProfileErr::TooMany);
    }
    Ok(header)
}
