//! A recorder beside the profile of a run, and an adapter of a small program: tests of `profiler` and
//! `adapt`.
#![tactic(auto)]

#[cfg(test)]
mod tests;
