//! Trials, and what is drawn from numbers: the tests of the calls, and of the command. The expected
//! words, events and lines come from another program of the same rules.
#![tactic(auto)]

#[cfg(test)]
mod draws;
#[cfg(test)]
mod trials;
