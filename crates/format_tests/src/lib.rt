//! Executables, profiles, lists of events and decimal numbers read and written, and their refusals; stores and sinks in memory:
//! tests of `elf_reader`, `profile_data`, `event_list`, `decimal_words` and `outside`.
#![tactic(auto)]

#[cfg(test)]
mod decimal_words_cases;
#[cfg(test)]
mod elf_reader_cases;
#[cfg(test)]
mod event_list_cases;
#[cfg(test)]
mod outside_cases;
#[cfg(test)]
mod profile_data_cases;
