//! The numbers of an image's file, and its header.

ghost use Rattle.std.specs.Prelude.{◌≡◌};
ghost use Rattle.dist_image.specs.Image.{most_steps};
ghost use Rattle.dist_image.specs.Reading.{Gives};
ghost use Rattle.dist_image.specs.Reading as spec;

use crate::error::{ImageErr, Table};

/// The text `MSSP`, as a number whose lowest byte comes first.
pub(crate) const MAGIC: u32 = 0x5053_534D;

/// The version that knows no writes and no loads of one value.
pub(crate) const FIRST_VERSION: u32 = 1;

/// The version that knows all.
const SECOND_VERSION: u32 = 2;

/// The size in bytes of what both versions have in their headers.
const SIZE: usize = 28;

/// The least task limit.
const LEAST_LIMIT: u32 = 16;

/// The greatest task limit of the first version.
const GREATEST_AT_FIRST: u32 = 16_384;

/// The greatest task limit of the second version, whose tasks keep more of what they read.
const GREATEST_LIMIT: u32 = 4_096;

/// The greatest number of slots, of assumptions, and of targets in all.
pub(crate) const MOST: u32 = 1_048_576;

/// The greatest number of anchors, of notes, and of writes.
const MOST_PLACES: u32 = 524_288;

/// The header, after its magic number.
#[derive(Clone, Copy, Debug)]
pub(crate) struct Header {
    pub version: u32,
    pub limit: u32,
    pub slots: u32,
    pub anchors: u32,
    pub notes: u32,
    pub assumptions: u32,
    pub writes: u32,
}

/// The number in the next four bytes, and the bytes after it.
pub(crate) fn next_word(bytes: &[u8]) -> Result<(u32, &[u8]), ImageErr>
    ensures { Gives (λ x. (x.0, x.1.now)) result (spec.next_word bytes.now) }
{
    word_format::next_word(ImageErr::Short, bytes)
}

/// Reads the header at the front, and gives the bytes after it.
#[tactic(auto, unfolding(crate::specs::Reading::next_header))]
pub(crate) fn next_header(bytes: &[u8]) -> Result<(Header, &[u8]), ImageErr>
    ensures { Gives (λ x. (x.0, x.1.now)) result (spec.next_header bytes.now) }
{
    if bytes.len() < SIZE {
        return Err(ImageErr::Short);
    }
    let (version, rest) = next_version(bytes)?;
    let (limit, rest) = next_word(rest)?;
    let (slots, rest) = next_word(rest)?;
    let (anchors, rest) = next_word(rest)?;
    let (notes, rest) = next_word(rest)?;
    let (assumptions, rest) = next_word(rest)?;
    let (writes, rest) = next_write_count(version, rest)?;
    let header = Header {
        version,
        limit,
        slots,
        anchors,
        notes,
        assumptions,
        writes,
    };
    let header = admit_header(header)?;
    Ok((header, rest))
}

/// Reads the magic number and the version, and gives the version.
#[tactic(auto, unfolding(crate::specs::Reading::next_version))]
fn next_version(bytes: &[u8]) -> Result<(u32, &[u8]), ImageErr>
    ensures { Gives (λ x. (x.0, x.1.now)) result (spec.next_version bytes.now) }
{
    let (magic, rest) = next_word(bytes)?;
    let (version, rest) = next_word(rest)?;
    let version = admit_version(magic, version)?;
    Ok((version, rest))
}

/// Tests the magic number and the version.
fn admit_version(magic: u32, version: u32) -> Result<u32, ImageErr>
    ensures { Gives (λ x. x) result (spec.admit_version magic version) }
{
    if magic != MAGIC {
        return Err(ImageErr::Magic);
    }
    if version != FIRST_VERSION && version != SECOND_VERSION {
        return Err(ImageErr::Version);
    }
    Ok(version)
}

/// Reads the number of writes. A file of the first version does not count them: it has none.
fn next_write_count(version: u32, bytes: &[u8]) -> Result<(u32, &[u8]), ImageErr>
    ensures { Gives (λ x. (x.0, x.1.now)) result (spec.next_write_count version bytes.now) }
{
    match version {
        FIRST_VERSION => Ok((0, bytes)),
        _ => next_word(bytes),
    }
}

/// The greatest task limit of a version.
fn greatest_limit(version: u32) -> u32
    ensures { result ≡ most_steps version }
{
    match version {
        FIRST_VERSION => GREATEST_AT_FIRST,
        _ => GREATEST_LIMIT,
    }
}

/// Tests the task limit and the numbers of entries.
fn admit_header(header: Header) -> Result<Header, ImageErr>
    ensures { Gives (λ x. x) result (spec.admit_header header) }
{
    if !(LEAST_LIMIT..=greatest_limit(header.version)).contains(&header.limit) {
        return Err(ImageErr::Limit);
    }
    if header.slots > MOST {
        return Err(ImageErr::TooMany(Table::Slots));
    }
    if header.anchors > MOST_PLACES {
        return Err(ImageErr::TooMany(Table::Anchors));
    }
    if header.notes > MOST_PLACES {
        return Err(ImageErr::TooMany(Table::Notes));
    }
    if header.assumptions > MOST {
        return Err(ImageErr::TooMany(Table::Assumptions));
    }
    if header.writes > MOST_PLACES {
        return Err(ImageErr::TooMany(Table::Writes));
    }
    Ok(header)
}
