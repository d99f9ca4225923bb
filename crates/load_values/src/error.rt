//! Why a file is no list of values, and why a run has none.

ghost use Rattle.std.specs.Prelude.{◌≡◌};

use std::alloc::{AllocError, AllocFailed};
use thiserror::Error;

/// Why a list of values was not read: the first test that fails, from the front of the file.
///
/// A number is that of a row, from 0 on.
#[derive(Clone, Copy, Debug, Drop, PartialEq, Eq, Error)]
pub enum ValuesErr {
    /// The file ends within its header or a row.
    #[error("the file ends early")]
    Short,
    /// The file does not begin with `MSPV`.
    #[error("not a list of values")]
    Magic,
    /// The version is not 1.
    #[error("unknown version")]
    Version,
    /// There are more than 524,288 rows.
    #[error("too many rows")]
    TooMany,
    /// A row with an address that is not a multiple of 4, or a value to which no one word sets a
    /// register.
    #[error("row {0} is out of range")]
    Range(u32),
    /// A row whose address is not above the one before it.
    #[error("row {0} is out of order")]
    Order(u32),
    /// Bytes follow the last row.
    #[error("bytes follow the last row")]
    Long,
    /// No memory was left.
    #[error("out of memory")]
    Memory,
}

impl From<AllocError> for ValuesErr {
    ghost use Rattle.load_values.specs.declared.error.ValuesErr.TheVariants.{Memory};

    ghost from_gives = { λ _ e. e ≡ Memory };

    fn from(_e: AllocError) -> ValuesErr {
        ValuesErr::Memory
    }
}

impl<T: Drop> From<AllocFailed<T>> for ValuesErr {
    ghost use Rattle.load_values.specs.declared.error.ValuesErr.TheVariants.{Memory};

    ghost from_gives = { λ _ e. e ≡ Memory };

    fn from(_e: AllocFailed<T>) -> ValuesErr {
        ValuesErr::Memory
    }
}

/// Why the loads of one value were not found.
#[derive(Clone, Copy, Debug, Drop, PartialEq, Eq, Error)]
pub enum FindErr {
    /// The run executes loads at more than 524,288 addresses.
    #[error("too many loads")]
    Wide,
    /// No memory was left.
    #[error("out of memory")]
    Memory,
}

impl From<AllocError> for FindErr {
    ghost use Rattle.load_values.specs.declared.error.FindErr.TheVariants.{Memory};

    ghost from_gives = { λ _ e. e ≡ Memory };

    fn from(_e: AllocError) -> FindErr {
        FindErr::Memory
    }
}

impl<T: Drop> From<AllocFailed<T>> for FindErr {
    ghost use Rattle.load_values.specs.declared.error.FindErr.TheVariants.{Memory};

    ghost from_gives = { λ _ e. e ≡ Memory };

    fn from(_e: AllocFailed<T>) -> FindErr {
        FindErr::Memory
    }
}
