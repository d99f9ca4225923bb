//! What instructions load and put, and which store wrote each byte last.
//!
//! What an instruction is about to do is seen from the registers before its step. A shadow of the
//! guest's memory keeps a mark for each byte, such as which store wrote it last.
#![tactic(auto)]

mod instruction;
mod shadow;
mod span;

pub use instruction::{
    is_counted, is_store, is_taken, is_task_call, loaded, number_at, register, stored,
};
pub use shadow::Shadow;
pub use span::ByteRange;
