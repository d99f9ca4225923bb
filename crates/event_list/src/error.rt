//! Why a file is no list of events.

ghost use Rattle.std.specs.Prelude.{◌≡◌};
ghost use Rattle.event_list.specs.declared.error.EventErr.TheVariants.{Memory};

use std::alloc::{AllocError, AllocFailed};
use thiserror::Error;

/// Why a list of events was not read: the refusal of the first line that has one.
///
/// Lines are counted from 1.
#[derive(Clone, Copy, Debug, Drop, PartialEq, Eq, Error)]
pub enum EventErr {
    /// The line of this number is not empty, is no comment, and gives no event.
    #[error("line {0} gives no event")]
    Line(u64),
    /// The events up to the line of this number, repeats counted, are more than 100,000,000.
    #[error("too many events at line {0}")]
    TooMany(u64),
    /// No memory was left.
    #[error("out of memory")]
    Memory,
}

impl From<AllocError> for EventErr {
    ghost from_gives = { λ _ e. e ≡ Memory };

    fn from(_e: AllocError) -> EventErr {
        EventErr::Memory
    }
}

impl<T: Drop> From<AllocFailed<T>> for EventErr {
    ghost from_gives = { λ _ e. e ≡ Memory };

    fn from(_e: AllocFailed<T>) -> EventErr {
        EventErr::Memory
    }
}
