//! A memory of a byte at each 32-bit address, whose pages its snapshots share.
//!
//! Its leaves of 256 bytes lie in a tree, in front of it or aside. A snapshot takes one more owner of the root and of
//! each leaf that stands in front or aside, and so costs the same however much memory there is.
//!
//! Leaves of the tree from which code or data came last have one more owner each, which gives them again without a way
//! through the tree.
#![tactic(auto)]

mod recent;
mod tree;

pub use tree::PageTree;
