//! The numbers of a profile's file, the lowest byte of each first.

ghost use Rattle.profile_data.specs.Reading.{Gives};
ghost use Rattle.profile_data.specs.Reading as spec;

use crate::error::ProfileErr;

/// The number in the next four bytes, and the bytes after it.
pub(crate) fn next_word(bytes: &[u8]) -> Result<(u32, &[u8]), ProfileErr>
    ensures { Gives (λ x. (x.0, x.1.now)) result (spec.next_word bytes.now) }
{
    word_format::next_word(ProfileErr::Short, bytes)
}

/// The number in the next eight bytes, and the bytes after it.
pub(crate) fn next_long(bytes: &[u8]) -> Result<(u64, &[u8]), ProfileErr>
    ensures { Gives (λ x. (x.0, x.1.now)) result (spec.next_long bytes.now) }
{
    word_format::next_long(ProfileErr::Short, bytes)
}
