//! Why a list of addresses is refused.

ghost use Rattle.std.specs.Prelude.{◌≡◌};
ghost use Rattle.word_format.specs.declared.error.AddressErr.TheVariants.{Memory};

use std::alloc::{AllocError, AllocFailed};
use thiserror::Error;

/// Why a list of addresses was not read: the first test that fails.
///
/// A number is that of an address in its list, from 0 on.
#[derive(Clone, Copy, Debug, Drop, PartialEq, Eq, Error)]
pub enum AddressErr {
    /// The bytes end within an address.
    #[error("the bytes end early")]
    Short,
    /// An address that is not a multiple of 4.
    #[error("address {0} is out of range")]
    Range(u32),
    /// An address that is not above the one before it.
    #[error("address {0} is out of order")]
    Order(u32),
    /// No memory was left.
    #[error("out of memory")]
    Memory,
}

impl From<AllocError> for AddressErr {
    ghost from_gives = { λ _ e. e ≡ Memory };

    fn from(_e: AllocError) -> AddressErr {
        AddressErr::Memory
    }
}

impl<T: Drop> From<AllocFailed<T>> for AddressErr {
    ghost from_gives = { λ _ e. e ≡ Memory };

    fn from(_e: AllocFailed<T>) -> AddressErr {
        AddressErr::Memory
    }
}
