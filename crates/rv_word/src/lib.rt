//! The instruction words of RV32IM with FENCE.I: what each word means, and the word of each
//! instruction.
//!
//! Meaning and word are inverse: [`encode`] of what [`decode`] gives is the word again, and
//! [`decode`] of what [`encode`] gives is the instruction again. The rules are those of the RISC-V
//! unprivileged manual: "RV32I Base Integer Instruction Set" version 2.1, the extension "M" version
//! 2.0, and FENCE.I of the extension "Zifencei".
#![tactic(auto)]

mod constants;
mod decoding;
mod encoding;
mod field;
mod inst;
mod masks;
mod opcodes;
mod ranges;
mod tables;

pub use constants::{constant, constant_words_mean};
pub use decoding::decode;
pub use encoding::encode;
pub use inst::{ImmOp, Inst, LoadKind, RegOp, StoreKind, Test};
pub use masks::{reads, writes};
pub use ranges::well_formed;
