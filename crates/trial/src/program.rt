//! The words of a program: blocks between a beginning and an end that all programs share.

ghost use Rattle.std.specs.Prelude.{◌≡◌, ◌*◌, ◌+◌, ◌≤◌, ◌<◌, ◌++◌, pos, neg_ℤ, length, map, IfOk, OnOk};
ghost use Rattle.rv_word.specs.declared.inst.ImmOp.TheVariants.{Addi};
ghost use Rattle.rv_word.specs.declared.inst.Test.TheVariants.{Bne};
ghost use Rattle.rv_word.specs.declared.inst.Inst.TheVariants.{Branch, OpImm};
ghost use Rattle.rv_word.specs.Spelling.{spelling, IsWellFormed};
ghost use Rattle.trial.specs.Made.{block, words};

use crate::drawing::{body, draw, push};
use rand_core::SeedableRng;
use rand_pcg::Lcg64Xsh32;
use rv_word::{ImmOp, Inst, Test};
use std::alloc::{AllocError, Global};

/// Sets x5 to 0x0080_0000, where the program's loads and stores go.
const BEGINNING: u32 = 0x0080_02B7;

/// A branch that is never taken, from x6 being negative, and the count of the turns in x6.
static COUNTED: [u32; 2] = [0x0003_4463, 0xFFF3_0313];

/// Stores x10 to x15, writes the 24 bytes that were stored, and exits with 0.
static ENDING: [u32; 14] = [
    0x00A2_A023,
    0x00B2_A223,
    0x00C2_A423,
    0x00D2_A623,
    0x00E2_A823,
    0x00F2_AA23,
    0x0010_0513,
    0x0002_8593,
    0x0180_0613,
    0x0400_0893,
    0x0000_0073,
    0x0000_0513,
    0x05D0_0893,
    0x0000_0073,
];

/// Sets x6 to a number of turns.
fn begin(turns: u32) -> Inst
    requires { turns < 2_048 }
    ensures value { result ≡ OpImm Addi 6 0 (pos turns) }
    ensures formed { IsWellFormed result }
{
    Inst::OpImm {
        op: ImmOp::Addi,
        rd: 6,
        rs1: 0,
        imm: turns as i32,
    }
}

/// Goes back over a body of so many words, and the two behind it, while x6 is not 0.
fn again(k: u32) -> Inst
    requires { k ≤ 6 }
    ensures value { result ≡ Branch Bne 6 0 (neg_ℤ (pos (4 * (k + 2)))) }
    ensures formed { IsWellFormed result }
{
    let back = 4 * (k + 2);
    Inst::Branch {
        test: Test::Bne,
        rs1: 6,
        rs2: 0,
        off: -(back as i32),
    }
}

/// Puts the words of a block at the end: x6 is set to a number of turns, and a drawn body is gone
/// through as often.
fn block(g: &mut Lcg64Xsh32, words: &mut Vec<u32>) -> Result<(), AllocError>
    ensures value { OnOk result (words.new.items ≡ words.old.items ++ map spelling (block g.old).0) }
    ensures rest { OnOk result (g.new ≡ (block g.old).1) }
{
    let turns = 2 + draw(g, 49);
    let k = 1 + draw(g, 6);
    push(words, begin(turns))?;
    body(g, k, words)?;
    words.extend_from_slice(&COUNTED)?;
    push(words, again(k))
}

/// The words of the program that a number makes with so many blocks.
pub(crate) fn words(alloc: Global, seed: u64, size: u32) -> Result<Vec<u32>, AllocError>
    ensures words { IfOk result (λ ws. ws.items ≡ words seed size) }
    ensures few { IfOk result (λ ws. length ws.items ≤ 10 * size + 15) }
{
    let mut g = Lcg64Xsh32::seed_from_u64(seed);
    let mut words = Vec::new(alloc);
    words.push(BEGINNING)?;
    for i in 0..size {
        block(&mut g, &mut words)?;
    }
    words.extend_from_slice(&ENDING)?;
    Ok(words)
}
