//! The leaves of a memory, by number: those of a tree, those that stand in front of it, and those aside.
//!
//! A leaf holds 256 bytes. Its number, the address divided by 256, is spelt in four digits of six bits, and leads
//! through four levels of inner nodes, the highest digit first. A node that has another owner is never changed: a put
//! makes the leaf anew, and the inner nodes on its way.
//!
//! The leaves that were put to last don't lie in the tree: each stands in front of it, at a place that its number
//! gives, and the leaf that stood there before stands aside. So most puts are done where the leaf stands.
#![tactic(auto)]

mod front;
mod leaves;
mod path;

pub use front::Front;
pub use leaves::Leaves;
