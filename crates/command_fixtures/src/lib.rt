//! What whole commands are tried over: files and sinks in memory, and what a command leaves there. For tests alone.
#![tactic(auto)]

pub mod outside_world;
