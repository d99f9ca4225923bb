//! What a position of a run tells of the load at its address, seen before its step.

ghost use Rattle.std.specs.Prelude.{◌≡◌, ◌&&◌, not, nat_eq};
ghost use Rattle.rv_word.specs.Spelling.{IsWellFormed};
ghost use Rattle.seq_machine.specs.States.{state_of, arch_at};
ghost use Rattle.load_values.specs.Found as spec;
ghost use Rattle.load_values.specs.Sights.{sight_by};
ghost use Rattle.load_values.specs.Counted.{sight_here};

use access_trace::{number_at, register};
use rv_step::{Arch, Memory};
use rv_word::{Inst, decode};
use seq_machine::Machine;

/// What a position tells of the load at its address.
#[derive(Clone, Copy, Debug, PartialEq, Eq)]
pub(crate) enum Sight {
    /// The program's own load sets a register to this value.
    Value(u32),
    /// Another load is executed: it stands in the place of the program's word, or sets no register.
    Executed,
    /// Another word stands in the place of the program's load, and is none.
    Hidden,
    /// Neither the word nor the program's is a load.
    Nothing,
}

/// Whether the instruction is a load.
fn is_load(inst: Inst) -> bool
    ensures { result ≡ spec.is_load inst }
{
    matches!(inst, Inst::Load { .. })
}

/// What a position tells where this instruction is about to be executed. `own` tells whether its word
/// is the program's, and `hides` whether it stands in the place of a load.
#[inline(always)]
fn tell<M: Memory>(own: bool, hides: bool, inst: Inst, arch: &Arch<M>) -> Sight
    requires { IsWellFormed inst }
    ensures { result ≡ sight_by own hides inst (arch_at M.at arch.now) }
{
    match inst {
        Inst::Load { kind, rd, rs1, off } => {
            if own && rd != 0 {
                let from = register(arch, rs1).wrapping_add_signed(off);
                Sight::Value(number_at(&arch.mem, kind, from))
            } else {
                Sight::Executed
            }
        }
        _ => { if hides { Sight::Hidden } else { Sight::Nothing } }
    }
}

/// What the position of a machine tells. The program's words are those of the memory at the start.
#[inline(always)]
pub(crate) fn look<M: Memory>(machine: &mut Machine<M>, program: &mut M) -> Sight
    ensures state { state_of M.at machine.new ≡ state_of M.at machine.old }
    ensures end { machine.new.end ≡ machine.old.end }
    ensures position { machine.new.position ≡ machine.old.position }
    ensures program { M.at program.new ≡ M.at program.old }
    ensures sight { result ≡ sight_here M.at program.old machine.old }
{
    let pc = machine.arch.pc;
    let word = machine.arch.mem.fetch(pc);
    let programmed = program.fetch(pc);
    let own = word == programmed;
    let hides = !own && is_load(decode(programmed));
    tell(own, hides, decode(word), &machine.arch)
}
