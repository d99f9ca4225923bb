//! What an instruction is about to do, by the registers before its step.

ghost use Rattle.std.specs.Prelude.{◌≡◌, ◌<◌, ◌≤◌, ◌^◌};
ghost use Rattle.cells.specs.Cells.{value};
ghost use Rattle.rv_word.specs.Spelling.{IsWellFormed};
ghost use Rattle.rv_semantics.specs.Values.{register_value};
ghost use Rattle.rv_semantics.specs.Effect.{load_size, store_size, extended, is_store};
ghost use Rattle.rv_semantics.specs.Prints.{is_task_call};
ghost use Rattle.cells.specs.Bytes.{number};
ghost use Rattle.seq_machine.specs.States.{arch_at, state_of};
ghost use Rattle.profile_laws.specs.Profiles.{is_taken, is_counted, with_mark};
ghost use Rattle.profile_laws.specs.Tally.{loaded, taken_in, stored};
ghost use Rattle.access_trace.specs.Spans.{span_of};

use crate::span::ByteRange;
use memory::Memory;
use rv_semantics::{holds, is_short_write};
use rv_step::Arch;
use rv_word::{Inst, LoadKind, StoreKind};
use seq_machine::Machine;

/// The most bytes that one read takes.
const MOST: u32 = 65_536;

/// The value of a register, by its number from 0 to 31. Register 0 is 0.
#[inline(always)]
pub fn register<M: Memory>(arch: &Arch<M>, r: u8) -> u32
    requires { r < 2 ^ 5 }
    ensures { result ≡ register_value r (value (arch_at M.at arch.now)) }
{
    if r == 0 { 0 } else { arch.regs[r as usize] }
}

/// Whether the instruction is a branch whose condition holds, wherever it leads.
#[inline(always)]
pub fn is_taken<M: Memory>(inst: Inst, arch: &Arch<M>) -> bool
    requires { IsWellFormed inst }
    ensures { result ≡ is_taken inst (arch_at M.at arch.now) }
{
    match inst {
        Inst::Branch { test, rs1, rs2, .. } => {
            holds(test, register(arch, rs1), register(arch, rs2))
        }
        _ => false,
    }
}

/// Whether the instruction is a call that a task does, where `prints` tells whether a task may print
/// at the pc: then a short write is one.
#[inline(always)]
pub fn is_task_call<M: Memory>(prints: bool, inst: Inst, arch: &Arch<M>) -> bool
    ensures { result ≡ is_task_call (with_mark prints) inst arch.now.pc (value (arch_at M.at arch.now)) }
{
    match inst {
        Inst::Ecall => prints && is_short_write(arch.regs[17], arch.regs[10], arch.regs[12]),
        _ => false,
    }
}

/// Whether a profile counts the instruction as taken: it is a branch whose condition holds, or, where
/// `prints` is set, a short write.
#[inline(always)]
pub fn is_counted<M: Memory>(prints: bool, inst: Inst, arch: &Arch<M>) -> bool
    requires { IsWellFormed inst }
    ensures { result ≡ is_counted (with_mark prints) inst (arch_at M.at arch.now) }
{
    is_taken(inst, arch) || is_task_call(prints, inst, arch)
}

/// Whether the instruction is a store.
#[inline(always)]
pub fn is_store(inst: Inst) -> bool
    ensures { result ≡ is_store inst }
{
    matches!(inst, Inst::Store { .. })
}

fn load_size(kind: LoadKind) -> u32
    ensures { result ≡ load_size kind }
{
    match kind {
        LoadKind::Lb | LoadKind::Lbu => 1,
        LoadKind::Lh | LoadKind::Lhu => 2,
        LoadKind::Lw => 4,
    }
}

fn store_size(kind: StoreKind) -> u32
    ensures { result ≡ store_size kind }
{
    match kind {
        StoreKind::Sb => 1,
        StoreKind::Sh => 2,
        StoreKind::Sw => 4,
    }
}

/// The bytes that the instruction loads, beside those of its word, whatever its register is. Where
/// `prints` is set, a short write reads the bytes that it shows, at most 256.
#[inline(always)]
pub fn loaded<M: Memory>(prints: bool, inst: Inst, arch: &Arch<M>) -> ByteRange
    requires { IsWellFormed inst }
    ensures { span_of result ≡ loaded (with_mark prints) inst (arch_at M.at arch.now) }
{
    match inst {
        Inst::Load { kind, rs1, off, .. } => ByteRange {
            count: load_size(kind),
            from: register(arch, rs1).wrapping_add_signed(off),
        },
        Inst::Ecall if is_task_call(prints, inst, arch) => ByteRange {
            count: arch.regs[12],
            from: arch.regs[11],
        },
        _ => ByteRange::NOWHERE,
    }
}

/// What a load of this kind loads from an address on, extended to 32 bits.
#[inline(always)]
pub fn number_at<M: Memory>(memory: &M, kind: LoadKind, a: u32) -> u32
    ensures { result ≡ extended kind (number (load_size kind) a (M.at memory.now)) }
{
    match kind {
        LoadKind::Lb => i32::from(memory.get(a).cast_signed()).cast_unsigned(),
        LoadKind::Lbu => u32::from(memory.get(a)),
        LoadKind::Lh => i32::from(memory.half(a).cast_signed()).cast_unsigned(),
        LoadKind::Lhu => u32::from(memory.half(a)),
        LoadKind::Lw => memory.word(a),
    }
}

// The bytes that a call puts: those that a read takes.
fn taken_in<M: Memory>(machine: &Machine<M>) -> ByteRange
    ensures bytes { span_of result ≡ taken_in (state_of M.at machine.now) }
    ensures most { result.count ≤ 65_536 }
{
    let regs = &machine.arch.regs;
    if regs[17] != 63 || regs[10] != 0 {
        return ByteRange::NOWHERE;
    }
    let left = machine.input.len() - machine.taken as usize;
    ByteRange {
        count: (regs[12].min(MOST) as usize).min(left) as u32,
        from: regs[11],
    }
}

/// The bytes that the instruction or its call puts, at most 65,536.
#[inline(always)]
pub fn stored<M: Memory>(inst: Inst, machine: &Machine<M>) -> ByteRange
    requires { IsWellFormed inst }
    ensures bytes { span_of result ≡ stored inst (state_of M.at machine.now) }
    ensures most { result.count ≤ 65_536 }
{
    match inst {
        Inst::Store { kind, rs1, off, .. } => ByteRange {
            count: store_size(kind),
            from: register(&machine.arch, rs1).wrapping_add_signed(off),
        },
        Inst::Ecall => taken_in(machine),
        _ => ByteRange::NOWHERE,
    }
}
