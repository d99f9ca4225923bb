//! Loads that gave one value over a whole run, and the file format that holds them.
//!
//! A list has the address of each such load with its value, where one word sets a register to the
//! value. Nothing about a list that is read is trusted: it need not be that of any run.
#![tactic(auto)]

mod error;
mod field;
mod finding;
mod header;
mod loads;
mod reading;
mod row;
mod sight;
mod writing;

pub use error::{FindErr, ValuesErr};
pub use finding::find;
pub use reading::read_values;
pub use writing::write_values;
