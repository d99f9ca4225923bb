//! Decimal numbers as words: of a command line, and of the lines of a file.
#![tactic(auto)]

mod number;

pub use number::number_within;
