//! Instructions that are drawn.

ghost use Rattle.std.specs.Prelude.{◌≡◌, ◌≤◌, ◌<◌, [], ◌∷◌, ◌++◌, map, OnOk};
ghost use Rattle.rv_word.specs.Spelling.{spelling, IsWellFormed};
ghost use Rattle.trial.specs.Made.{draw, register, operation, addition, load, store, by_form, instruction, body};

use rand_core::utils::NextWord;
use rand_pcg::Lcg64Xsh32;
use rv_word::{ImmOp, Inst, LoadKind, RegOp, StoreKind, encode};
use std::alloc::AllocError;

/// The next word below `m`, which is 1 at least.
pub(crate) fn draw(g: &mut Lcg64Xsh32, m: u32) -> u32
    requires { 1 ≤ m }
    ensures value { result ≡ (draw m g.old).0 }
    ensures rest { g.new ≡ (draw m g.old).1 }
    ensures below { result < m }
{
    g.next_word() % m
}

/// One of x10 to x15.
fn register(g: &mut Lcg64Xsh32) -> u8
    ensures value { result ≡ (register g.old).0 }
    ensures rest { g.new ≡ (register g.old).1 }
    ensures below { result < 16 }
{
    10 + draw(g, 6) as u8
}

fn operation(op: RegOp, g: &mut Lcg64Xsh32) -> Inst
    ensures value { result ≡ (operation op g.old).0 }
    ensures rest { g.new ≡ (operation op g.old).1 }
    ensures formed { IsWellFormed result }
{
    let rd = register(g);
    let rs1 = register(g);
    let rs2 = register(g);
    Inst::Op { op, rd, rs1, rs2 }
}

fn addition(g: &mut Lcg64Xsh32) -> Inst
    ensures value { result ≡ (addition g.old).0 }
    ensures rest { g.new ≡ (addition g.old).1 }
    ensures formed { IsWellFormed result }
{
    let rd = register(g);
    let rs1 = register(g);
    let imm = draw(g, 2048) as i32;
    Inst::OpImm {
        op: ImmOp::Addi,
        rd,
        rs1,
        imm,
    }
}

fn load(g: &mut Lcg64Xsh32) -> Inst
    ensures value { result ≡ (load g.old).0 }
    ensures rest { g.new ≡ (load g.old).1 }
    ensures formed { IsWellFormed result }
{
    let rd = register(g);
    let off = 4 * draw(g, 16) as i32;
    Inst::Load {
        kind: LoadKind::Lw,
        rd,
        rs1: 5,
        off,
    }
}

fn store(g: &mut Lcg64Xsh32) -> Inst
    ensures value { result ≡ (store g.old).0 }
    ensures rest { g.new ≡ (store g.old).1 }
    ensures formed { IsWellFormed result }
{
    let rs2 = register(g);
    let off = 4 * draw(g, 16) as i32;
    Inst::Store {
        kind: StoreKind::Sw,
        rs1: 5,
        rs2,
        off,
    }
}

/// An instruction of a block's body.
fn instruction(g: &mut Lcg64Xsh32) -> Inst
    ensures value { result ≡ (instruction g.old).0 }
    ensures rest { g.new ≡ (instruction g.old).1 }
    ensures formed { IsWellFormed result }
{
    match draw(g, 6) {
        0 => operation(RegOp::Add, g),
        1 => operation(RegOp::Xor, g),
        2 => operation(RegOp::Mul, g),
        3 => addition(g),
        4 => load(g),
        _ => store(g),
    }
}

/// Puts the word of an instruction at the end.
pub(crate) fn push(words: &mut Vec<u32>, i: Inst) -> Result<(), AllocError>
    requires { IsWellFormed i }
    ensures { OnOk result (words.new.items ≡ words.old.items ++ spelling i ∷ []) }
{
    words.push(encode(&i))?;
    Ok(())
}

/// Puts the words of so many instructions at the end.
pub(crate) fn body(g: &mut Lcg64Xsh32, k: u32, words: &mut Vec<u32>) -> Result<(), AllocError>
    ensures value { OnOk result (words.new.items ≡ words.old.items ++ map spelling (body k g.old).0) }
    ensures rest { OnOk result (g.new ≡ (body k g.old).1) }
{
    for i in 0..k {
        push(words, instruction(g))?;
    }
    Ok(())
}
