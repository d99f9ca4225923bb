//! What the commands of `mssp` come to: each answer with its status and the line that tells it.
#![tactic(auto)]

mod answer;
mod lines;

pub use answer::{Answer, Refusal, Source, status};
pub use lines::line;
