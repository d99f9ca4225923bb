//! What the file formats share: numbers whose lowest byte comes first, entries one after the other, and
//! lists of addresses that rise.
#![tactic(auto)]

mod addresses;
mod error;
mod number;
mod writing;

pub use addresses::{is_aligned, read_addresses};
pub use error::AddressErr;
pub use number::{next_long, next_word};
pub use writing::{put_long, put_words};
