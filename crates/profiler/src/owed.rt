//! What a tally owes: what the last position did, where want of memory kept it from being entered.

use crate::visit::Visit;
use access_trace::ByteRange;

/// What is left to enter.
#[derive(Clone, Copy, Debug)]
pub(crate) enum Owed {
    /// Nothing is left.
    Nothing,
    /// A position is not counted. What it reads may be noted already.
    Entry(Visit),
    /// A position is counted, and the bytes that it puts are to be marked. Some of them may be.
    Marks(ByteRange, u32),
}
