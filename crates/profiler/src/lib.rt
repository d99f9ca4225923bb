//! Profiles of programs: a program is run, and what it did is counted at each address.
//!
//! The run goes on by one step after another. What a step does is seen from its word and the
//! registers before it, and is kept in a tally: the rows so far, and of each byte the store that wrote
//! it last.
#![tactic(auto)]

mod error;
mod owed;
mod profiling;
mod programs;
mod reading;
mod recorder;
mod recording;
mod rows;
mod table;
mod tally;
mod visit;

pub use error::ProfilingErr;
pub use profiling::profile;
pub use recorder::Recorder;
