//! Adapts to a run: profiles a program's run beside it, and makes an image of the run so far wherever
//! one is due.
//!
//! Nothing about such an image is trusted. What it says changes no result, only how often a task is
//! squashed.
#![tactic(auto)]

mod adapter;
mod images;
mod making;

pub use adapter::Adapter;
pub use images::made_is_image;
