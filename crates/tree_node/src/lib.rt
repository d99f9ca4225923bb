//! Nodes of a tree of bytes, which trees share by counting their owners. Each node is made by one of two
//! calls, and each of these counts a step, so a bound on steps is one on the nodes that were made.
#![tactic(auto)]

mod node;
mod steps;

pub use node::{Bytes, Children, Node};
pub use steps::Steps;
