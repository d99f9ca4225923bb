//! What the register operations of RV32IM make of two values (RISC-V unprivileged manual, RV32I,
//! "Integer Register-Register Operations", and the extension "M", "Multiplication Operations" and
//! "Division Operations").
//!
//! A register holds 32 bits. The signed operations read them in two's complement.
#![tactic(auto)]

ghost use Rattle.std.specs.Prelude.{◌≡◌, ◌+◌, ◌-◌, ◌*◌, ◌/◌, ◌%◌, ◌^◌, ◌<◌, ◌*ℤ◌, pos};
ghost use Rattle.rv_alu.specs.Alu.{alu, signed, high};
ghost use Rattle.rv_word.specs.declared.inst.RegOp.TheVariants.{Add, Sll, Slt, Sltu, Xor, Srl, Or, And, Sub, Sra, Mul, Mulh, Mulhsu, Mulhu, Div, Divu, Rem, Remu};

use rv_word::RegOp;

#[inline(always)]
fn sll(a: u32, b: u32) -> u32
    ensures { result ≡ alu Sll a b }
{
    a << (b & 0x1f)
}

#[inline(always)]
fn slt(a: u32, b: u32) -> u32
    ensures { result ≡ alu Slt a b }
{
    u32::from(a.cast_signed() < b.cast_signed())
}

#[inline(always)]
fn srl(a: u32, b: u32) -> u32
    ensures { result ≡ alu Srl a b }
{
    a >> (b & 0x1f)
}

#[inline(always)]
fn sra(a: u32, b: u32) -> u32
    ensures { result ≡ alu Sra a b }
{
    (a.cast_signed() >> (b & 0x1f)).cast_unsigned()
}

#[inline(always)]
fn signed_product(a: i32, b: i32) -> i64
    ensures { result ≡ a *ℤ b }
{
    i64::from(a) * i64::from(b)
}

#[inline(always)]
fn high_half(product: i64) -> u32
    ensures { result ≡ high product }
{
    (product.cast_unsigned() >> 32) as u32
}

#[inline(always)]
fn mulh(a: u32, b: u32) -> u32
    ensures { result ≡ alu Mulh a b }
{
    high_half(signed_product(a.cast_signed(), b.cast_signed()))
}

#[inline(always)]
fn mulhsu(a: u32, b: u32) -> u32
    ensures { result ≡ alu Mulhsu a b }
{
    high_half(i64::from(a.cast_signed()) * i64::from(b))
}

#[inline(always)]
fn mulhu(a: u32, b: u32) -> u32
    ensures { result ≡ alu Mulhu a b }
{
    (u64::from(a) * u64::from(b) >> 32) as u32
}

#[inline(always)]
fn div(a: u32, b: u32) -> u32
    ensures { result ≡ alu Div a b }
{
    if b == 0 {
        u32::MAX
    } else {
        a.cast_signed()
            .wrapping_div(b.cast_signed())
            .cast_unsigned()
    }
}

#[inline(always)]
fn divu(a: u32, b: u32) -> u32
    ensures { result ≡ alu Divu a b }
{
    if b == 0 { u32::MAX } else { a / b }
}

#[inline(always)]
fn rem(a: u32, b: u32) -> u32
    ensures { result ≡ alu Rem a b }
{
    if b == 0 {
        a
    } else {
        a.cast_signed()
            .wrapping_rem(b.cast_signed())
            .cast_unsigned()
    }
}

#[inline(always)]
fn remu(a: u32, b: u32) -> u32
    ensures { result ≡ alu Remu a b }
{
    if b == 0 { a } else { a % b }
}

/// What the operation makes of the values of its two registers. Sums, differences and products wrap
/// at 32 bits; shifts go by the low five bits of `b`. A quotient by 0 is all ones and its remainder
/// is `a`; the quotient of -2^31 by -1 is -2^31 and its remainder is 0.
#[inline(always)]
pub fn alu(op: RegOp, a: u32, b: u32) -> u32
    ensures { result ≡ alu op a b }
{
    match op {
        RegOp::Add => a.wrapping_add(b),
        RegOp::Sll => sll(a, b),
        RegOp::Slt => slt(a, b),
        RegOp::Sltu => u32::from(a < b),
        RegOp::Xor => a ^ b,
        RegOp::Srl => srl(a, b),
        RegOp::Or => a | b,
        RegOp::And => a & b,
        RegOp::Sub => a.wrapping_sub(b),
        RegOp::Sra => sra(a, b),
        RegOp::Mul => a.wrapping_mul(b),
        RegOp::Mulh => mulh(a, b),
        RegOp::Mulhsu => mulhsu(a, b),
        RegOp::Mulhu => mulhu(a, b),
        RegOp::Div => div(a, b),
        RegOp::Divu => divu(a, b),
        RegOp::Rem => rem(a, b),
        RegOp::Remu => remu(a, b),
    }
}
