//! Images read and written, and their refusals: tests of `dist_image`.
#![tactic(auto)]

#[cfg(test)]
mod dist_image_cases;
#[cfg(test)]
mod dist_image_writes_cases;
