//! Verdicts on the runs of small programs, worked out by hand: the tests of `assume_list::check_run`.
#![tactic(auto)]

#[cfg(test)]
mod tests;
