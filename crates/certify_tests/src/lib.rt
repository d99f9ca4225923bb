//! Images that fit a program, and images that break one rule or several: tests of `certify`.
#![tactic(auto)]

#[cfg(test)]
mod hand_cases;
#[cfg(test)]
mod loop_cases;
#[cfg(test)]
mod making;
#[cfg(test)]
mod word_cases;
