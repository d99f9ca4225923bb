//! Why a trial has no text.

ghost use Rattle.std.specs.Prelude.{◌≡◌};
ghost use Rattle.trial_report.specs.declared.error.TrialErr.TheVariants.{Memory};

use std::alloc::AllocError;
use thiserror::Error;

/// Why a trial has no text.
#[derive(Clone, Copy, Debug, Drop, PartialEq, Eq, Error)]
pub enum TrialErr {
    /// The run of the program has more addresses or targets than a profile can hold.
    #[error("too many addresses or targets")]
    Wide,
    /// The profile has nothing that an image could be made of.
    #[error("the profile has no instruction to distil")]
    Empty,
    /// No memory was left.
    #[error("out of memory")]
    Memory,
}

impl From<AllocError> for TrialErr {
    ghost from_gives = { λ _ e. e ≡ Memory };

    fn from(_e: AllocError) -> TrialErr {
        TrialErr::Memory
    }
}
