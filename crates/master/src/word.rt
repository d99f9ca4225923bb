//! One word of a slot, done in place of the word that lies at its origin.
ghost use Rattle.std.specs.Prelude.{◌≡◌, ℕ, ◌<◌, true, false, cond, nat_eq, slice_index, IfOk, OnErr};
ghost use Rattle.rv_word.specs.Field.{rd};
ghost use Rattle.rv_word.specs.Meaning.{meaning};
ghost use Rattle.rv_semantics.specs.Effect.{is_store};
ghost use Rattle.master.specs.Word.{AreSameBut, Leaves, placed};

use rv_step::{Arch, Flow, Memory, exec};
use rv_word::{Inst, decode};
use std::alloc::{AllocError, Global};

/// Whether a word is a store: the one kind that writes memory, and it always goes on behind itself.
#[inline(always)]
pub(crate) fn is_store(word: u32) -> bool
    ensures { result ≡ is_store (meaning word) }
{
    matches!(decode(word), Inst::Store { .. })
}

/// The one register that a word may set, unless it is a store.
#[inline(always)]
pub(crate) fn target(word: u32) -> usize
    ensures register { result ≡ rd word }
    ensures bound { result < 32 }
{
    (word >> 7 & 0x1f) as usize
}

/// Sets a register.
#[inline(always)]
pub(crate) fn set_register(regs: &mut [u32; 32], r: usize, v: u32)
    requires { r < 32 }
    ensures { (n : ℕ) → slice_index regs.new n ≡ cond (nat_eq r n) v (slice_index regs.old n) }
{
    regs[r] = v;
}

/// Does the instruction of `word` as if it lay at `origin`, and answers where the run goes on. The pc
/// itself is not moved, and a call isn't performed.
#[inline(always)]
pub(crate) fn perform<M: Memory>(
    alloc: Global,
    arch: &mut Arch<M>,
    origin: u32,
    word: u32,
) -> Result<Flow, AllocError>
    ensures pc { arch.new.pc ≡ arch.old.pc }
    ensures leaves { IfOk result (Leaves word (placed M.at origin arch.old) (placed M.at origin arch.new)) }
    ensures memory { is_store (meaning word) ≡ false → M.at arch.new.mem ≡ M.at arch.old.mem }
    ensures registers { is_store (meaning word) ≡ false → AreSameBut (rd word) arch.old.regs arch.new.regs }
    ensures err { OnErr result (placed M.at origin arch.new ≡ placed M.at origin arch.old) }
{
    exec(alloc, arch, origin, word)
}
