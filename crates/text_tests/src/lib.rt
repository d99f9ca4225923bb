//! Command lines and the texts that commands put: tests of `command_line` and `report`.
#![tactic(auto)]

#[cfg(test)]
mod command_line_cases;
#[cfg(test)]
mod report_cases;
