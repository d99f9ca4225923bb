//! Why a file is no profile.

ghost use Rattle.std.specs.Prelude.{◌≡◌};
ghost use Rattle.profile_data.specs.declared.error.ProfileErr.TheVariants.{Memory};

use std::alloc::{AllocError, AllocFailed};
use thiserror::Error;

/// Why a profile was not read: the first test that fails, from the front of the file.
///
/// A number is that of a row, from 0 on.
#[derive(Clone, Copy, Debug, Drop, PartialEq, Eq, Error)]
pub enum ProfileErr {
    /// The file ends within its header or a row.
    #[error("the file ends early")]
    Short,
    /// The file does not begin with `MSPF`.
    #[error("not a profile")]
    Magic,
    /// The version is not 1.
    #[error("unknown version")]
    Version,
    /// The mark of a run that has ended is neither 0 nor 1.
    #[error("unknown mark")]
    Mark,
    /// There are more than 524,288 rows, or more than 1,048,576 targets in all.
    #[error("too many rows or targets")]
    TooMany,
    /// A row with an unknown flag.
    #[error("row {0} has an unknown flag")]
    Kind(u32),
    /// A row with an address or a target that is not a multiple of 4, that was never executed, or
    /// whose branch was taken more often than it was executed.
    #[error("row {0} is out of range")]
    Range(u32),
    /// A row whose address an earlier row has.
    #[error("row {0} has the address of an earlier row")]
    Twice(u32),
    /// A row with a target that is not above the one before it.
    #[error("a target of row {0} is out of order")]
    Order(u32),
    /// The rows were not executed as often in all as there were steps.
    #[error("the rows do not add up to the steps")]
    Sum,
    /// Bytes follow the last row.
    #[error("bytes follow the last row")]
    Long,
    /// No memory was left.
    #[error("out of memory")]
    Memory,
}

impl From<AllocError> for ProfileErr {
    ghost from_gives = { λ _ e. e ≡ Memory };

    fn from(_e: AllocError) -> ProfileErr {
        ProfileErr::Memory
    }
}

impl<T: Drop> From<AllocFailed<T>> for ProfileErr {
    ghost from_gives = { λ _ e. e ≡ Memory };

    fn from(_e: AllocFailed<T>) -> ProfileErr {
        ProfileErr::Memory
    }
}
