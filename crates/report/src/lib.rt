//! The texts that the product puts: the lines of an image, of what the engine does and of a verdict on
//! a run, and the words that other lines are made of.
#![tactic(auto)]

mod effect;
mod putting;
mod show;
mod summary;
mod text;
mod verdict;

pub use effect::put_effect;
pub use show::put_image;
pub use summary::{put_summary, summary_bytes};
pub use text::{Word, push_end, push_line, push_words};
pub use verdict::{push_verdict, put_verdict};
