//! What tests are tried on: guest programs, images that were made by hand and a profile, as the words of their files. For tests alone.
#![tactic(auto)]

pub mod hostile_images;
pub mod images;
pub mod profiles;
pub mod programs;
