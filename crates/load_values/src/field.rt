//! The numbers of the file, the lowest byte of each first.

ghost use Rattle.load_values.specs.Reading.{Gives};
ghost use Rattle.load_values.specs.Reading as spec;

use crate::error::ValuesErr;

/// The number in the next four bytes, and the bytes after it.
pub(crate) fn next_word(bytes: &[u8]) -> Result<(u32, &[u8]), ValuesErr>
    ensures { Gives (λ x. (x.0, x.1.now)) result (spec.next_word bytes.now) }
{
    word_format::next_word(ValuesErr::Short, bytes)
}
