//! Drives a speculative machine that adapts: rounds of events beside an image that is made anew of the
//! run so far.
#![tactic(auto)]

mod driver;
mod renewal;

pub use driver::speculate_adapting;
