//! Everything that the program `mssp` does, over any store and sinks.
#![tactic(auto)]

mod certifying;
mod check;
mod distill;
mod drawn;
mod output;
mod profile;
mod reading;
mod replay;
mod run;
mod show;
mod top;
mod values;

pub use top::mssp;
