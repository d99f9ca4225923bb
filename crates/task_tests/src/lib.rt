//! Tasks and the master on small programs, worked out by hand: tests of `layers`, `slave` and `master`.
#![tactic(auto)]

#[cfg(test)]
mod layers_cases;
#[cfg(test)]
mod master_cases;
#[cfg(test)]
mod printing_cases;
#[cfg(test)]
mod slave_cases;
