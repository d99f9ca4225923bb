//! Whole runs, from the words of a command to its bytes and its status: profiles, images made of them and
//! their checks, images that mean no good, runs that adapt, and faults of store and output, call by call.
#![tactic(auto)]

#[cfg(test)]
mod adaptive;
#[cfg(test)]
mod certified;
#[cfg(test)]
mod commands;
#[cfg(test)]
mod distilled;
#[cfg(test)]
mod faults;
#[cfg(test)]
mod hostile;
#[cfg(test)]
mod printing;
#[cfg(test)]
mod profiles;
#[cfg(test)]
mod values;
