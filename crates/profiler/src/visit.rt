//! What a position of a run does that a profile counts, seen before its step.

ghost use Rattle.std.specs.Prelude.{◌≡◌, ◌-◌, ◌<◌, ◌^◌, IsNone};
ghost use Rattle.cells.specs.Cells.{value};
ghost use Rattle.rv_word.specs.Spelling.{IsWellFormed};
ghost use Rattle.seq_machine.specs.States.{state_of, arch_at};
ghost use Rattle.profiler.specs.Visits.{visit_of, visit_here, jump_target};

use access_trace::{ByteRange, is_counted, is_store, loaded, register, stored};
use rv_step::{Arch, Memory};
use rv_word::{Inst, decode};
use seq_machine::Machine;

/// What a position does.
#[derive(Clone, Copy, Debug)]
pub(crate) struct Visit {
    pub pc: u32,
    /// Whether a branch's condition holds, or the position is at a short write that is counted.
    pub taken: bool,
    /// Whether the word is another than the program's.
    pub changed: bool,
    /// Where a jump by a register goes, if it goes on.
    pub target: Option<u32>,
    /// The bytes that a load loads, or a short write that is counted shows.
    pub loads: ByteRange,
    /// The bytes that a store puts, or a call that reads.
    pub puts: ByteRange,
    /// What the bytes that are put are marked with: 1 more than the address of a store, or 0.
    pub claim: u32,
}

/// Where a jump by a register goes, if it goes on.
fn target<M: Memory>(inst: Inst, arch: &Arch<M>) -> Option<u32>
    requires { IsWellFormed inst }
    ensures { result ≡ jump_target inst arch.now.pc (value (arch_at M.at arch.now)) }
{
    match inst {
        Inst::Jalr { rs1, off, .. } => {
            let to = register(arch, rs1).wrapping_add_signed(off) & !1;
            if to % 4 == 0 { Some(to) } else { None }
        }
        _ => None,
    }
}

/// What the position of a machine does. The program's words are those of the memory at the start, and
/// `calls` tells whether short writes are counted.
#[inline(always)]
pub(crate) fn look<M: Memory>(machine: &mut Machine<M>, program: &mut M, calls: bool) -> Visit
    requires running { IsNone machine.old.end }
    ensures state { state_of M.at machine.new ≡ state_of M.at machine.old }
    ensures end { machine.new.end ≡ machine.old.end }
    ensures position { machine.new.position ≡ machine.old.position }
    ensures program { M.at program.new ≡ M.at program.old }
    ensures visit { visit_of result ≡ visit_here M.at calls program.old machine.old }
    ensures claim { result.claim < 2 ^ 32 - 1 }
{
    let pc = machine.arch.pc;
    let word = machine.arch.mem.fetch(pc);
    let inst = decode(word);
    Visit {
        pc,
        taken: is_counted(calls, inst, &machine.arch),
        changed: word != program.fetch(pc),
        target: target(inst, &machine.arch),
        loads: loaded(calls, inst, &machine.arch),
        puts: stored(inst, machine),
        claim: if is_store(inst) { pc + 1 } else { 0 },
    }
}
