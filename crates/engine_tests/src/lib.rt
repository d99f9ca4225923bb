//! The machine of a program and the speculative one on small programs, worked out by hand: tests of `seq_machine`, `engine` and
//! `nosquash`.
#![tactic(auto)]

#[cfg(test)]
mod engine_cases;
#[cfg(test)]
mod nosquash_cases;
#[cfg(test)]
mod seq_machine_cases;
