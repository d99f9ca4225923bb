//! The trusted edge: real files as a store, and standard output and standard error as sinks.
//!
//! None of them tells its contents, so a caller knows of each only its count of faults, which begins
//! at 0. A file that is missing and a file that is too long raise the count too, since nothing else
//! shows that they came. Nothing is tried twice: a call that is interrupted is a fault.
#![tactic(auto)]

mod files;
mod moves;
mod streams;
#[cfg(test)]
mod tests;

pub use files::FileStore;
pub use streams::{ErrSink, OutSink, StreamSink};
