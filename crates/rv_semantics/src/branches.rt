//! The conditions of branches, over the numbers in two registers.
ghost use Rattle.std.specs.Prelude.{◌≡◌};
ghost use Rattle.rv_semantics.specs.Effect.{holds};

use rv_word::Test;

/// Whether a branch's condition holds of two numbers: BEQ, BNE, BLT and BGE of signed numbers, BLTU and
/// BGEU of unsigned ones (The RISC-V Instruction Set Manual, Volume I, RV32I, "Conditional Branches").
#[inline(always)]
pub fn holds(test: Test, a: u32, b: u32) -> bool
    ensures { result ≡ holds test a b }
{
    match test {
        Test::Beq => a == b,
        Test::Bne => a != b,
        Test::Blt => a.cast_signed() < b.cast_signed(),
        Test::Bge => b.cast_signed() <= a.cast_signed(),
        Test::Bltu => a < b,
        Test::Bgeu => b <= a,
    }
}
