//! Words, arithmetic, calls, single instructions and memory, beside values from outside: tests of `rv_word`, `rv_alu`, `rv_semantics`, `rv_step`
//! and `memory`.
#![tactic(auto)]

#[cfg(test)]
mod memory_cases;
#[cfg(test)]
mod rv_alu_cases;
#[cfg(test)]
mod rv_semantics_cases;
#[cfg(test)]
mod rv_step_cases;
#[cfg(test)]
mod rv_word_cases;
