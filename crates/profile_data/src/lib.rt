//! Profiles: what a run executed, and the file format that holds it.
//!
//! A profile counts the steps of a run, and has a row for each address that was executed. Nothing about
//! a profile is trusted: it need not be that of any program.
#![tactic(auto)]

mod entry;
mod error;
mod field;
mod header;
mod profile;
mod reading;
mod writing;

pub use error::ProfileErr;
pub use profile::{Profile, Row};
pub use reading::read_profile;
pub use writing::write_profile;
