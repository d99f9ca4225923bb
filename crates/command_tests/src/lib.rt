//! Whole runs, from the words of a command to its bytes and its status: runs, replays, reports and images
//! shown.
#![tactic(auto)]

#[cfg(test)]
mod left;
#[cfg(test)]
mod replays;
#[cfg(test)]
mod reports;
#[cfg(test)]
mod shows;
#[cfg(test)]
mod tests;
