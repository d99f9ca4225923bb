//! Runs and replays of a speculative machine: events are given to it one after the other, and what they
//! put is put as it comes.
#![tactic(auto)]

mod driving;
mod events;
mod speculating;

pub use driving::{drive, stand};
pub use events::put_replay;
pub use speculating::{Schedule, has_come, put_after, put_new, speculate, turn, write_report};
