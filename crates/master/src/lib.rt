//! The master: it does the slots of an image, ahead of the tasks, on registers and a memory of its own.
//!
//! What it does is a guess. Nothing that it does reaches the committed state, so it may follow any image.
#![tactic(auto)]

mod master;
mod places;
mod word;

pub use master::{Master, MasterDid};
pub use speculation::Why;
