//! What an instruction is: a jump by a register, or a call that no task does; which way a branch goes, and what is loaded.

ghost use Rattle.std.specs.Prelude.{◌≡◌};
ghost use Rattle.rv_word.specs.Spelling.{IsWellFormed};
ghost use Rattle.seq_machine.specs.States.{arch_at};
ghost use Rattle.profile_laws.specs.Tally.{is_register_jump};
ghost use Rattle.profile_laws.specs.Profiles.{with_mark};
ghost use Rattle.assumption_laws.specs.Looks.{side, load_of};
ghost use Rattle.rv_semantics.specs.Prints.{is_call};
ghost use Rattle.assume_list.specs.Sights.{is_stopping_call};

use access_trace::{is_taken, is_task_call, number_at, register};
use memory::Memory;
use rv_step::Arch;
use rv_word::Inst;

/// Whether the condition of a branch holds, where the instruction is a branch.
pub(crate) fn side<M: Memory>(inst: Inst, arch: &Arch<M>) -> Option<bool>
    requires { IsWellFormed inst }
    ensures { result ≡ side inst (arch_at M.at arch.now) }
{
    match inst {
        Inst::Branch { .. } => Some(is_taken(inst, arch)),
        _ => None,
    }
}

/// Whether the instruction is a jump by a register.
pub(crate) fn is_register_jump(inst: Inst) -> bool
    ensures { result ≡ is_register_jump inst }
{
    matches!(inst, Inst::Jalr { .. })
}

/// Whether the instruction is a call.
pub(crate) fn is_call(inst: Inst) -> bool
    ensures { result ≡ is_call inst }
{
    matches!(inst, Inst::Ecall)
}

/// Whether the instruction is a call that no task does, where `prints` tells whether a task may print at the pc.
pub(crate) fn is_stopping_call<M: Memory>(prints: bool, inst: Inst, arch: &Arch<M>) -> bool
    ensures { result ≡ is_stopping_call (with_mark prints) inst (arch_at M.at arch.now) }
{
    is_call(inst) && !is_task_call(prints, inst, arch)
}

/// What the instruction loads, extended to 32 bits, where it is a load. A load to register 0 loads.
pub(crate) fn load_of<M: Memory>(inst: Inst, arch: &Arch<M>) -> Option<u32>
    requires { IsWellFormed inst }
    ensures { result ≡ load_of inst (arch_at M.at arch.now) }
{
    match inst {
        Inst::Load { kind, rs1, off, .. } => {
            let from = register(arch, rs1).wrapping_add_signed(off);
            Some(number_at(&arch.mem, kind, from))
        }
        _ => None,
    }
}
