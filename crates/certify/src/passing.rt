//! Which words may be passed over, and where the master goes on then.

ghost use Rattle.std.specs.Prelude.{◌≡◌, ◌≢◌, ◌%◌, ◌↔◌, IsTrue, IsSome};
ghost use Rattle.rv_word.specs.Spelling.{IsWellFormed};
ghost use Rattle.rv_semantics.specs.Effect.{after};
ghost use Rattle.dist_image.specs.Image.{IsImage};
ghost use Rattle.fitting.specs.Claims.{claims, goes_on_at};
ghost use Rattle.fitting.specs.Fits.{MayPass, IsAimed};

use crate::assumed::{cut_at, is_dead, targets_at};
use crate::registers::are_apart;
use dist_image::Image;
use rv_word::{Inst, writes};

/// The address where the master goes on that passes an instruction over.
pub(crate) fn goes_on(image: &Image, pc: u32, i: &Inst) -> u32
    requires { IsImage image.now }
    ensures { result ≡ goes_on_at (claims image.now) pc i.now }
{
    match *i {
        Inst::Branch { off, .. } if cut_at(image, pc) == Some(false) => pc.wrapping_add_signed(off),
        _ => pc.wrapping_add(4),
    }
}

/// Whether a branch to this target may be passed over: a side of it is cut, and the target is the
/// place of an instruction other than the next one.
fn may_pass_branch(image: &Image, pc: u32, target: u32) -> bool
    requires { IsImage image.now }
    ensures { IsTrue result ↔ (IsSome ((claims image.now).cut pc) × (target % 4 ≡ 0) × (target ≢ after pc)) }
{
    cut_at(image, pc).is_some() && target % 4 == 0 && target != pc.wrapping_add(4)
}

/// Whether an instruction may be passed over, where these registers are needed behind it.
pub(crate) fn may_pass(image: &Image, pc: u32, need: u32, i: &Inst) -> bool
    requires image { IsImage image.now }
    requires well_formed { IsWellFormed i.now }
    ensures { IsTrue result ↔ MayPass (claims image.now) pc need i.now }
{
    match *i {
        Inst::Fence(_) => true,
        Inst::Store { .. } => is_dead(image, pc),
        Inst::Branch { off, .. } => may_pass_branch(image, pc, pc.wrapping_add_signed(off)),
        Inst::Jal { .. } | Inst::Jalr { .. } | Inst::Ecall | Inst::Ebreak | Inst::Illegal(_) =>
            false,
        _ => are_apart(writes(i), need),
    }
}

/// Whether an instruction has its targets listed, if it is a jump by a register.
pub(crate) fn is_aimed(image: &Image, pc: u32, i: &Inst) -> bool
    requires { IsImage image.now }
    ensures { IsTrue result ↔ IsAimed (claims image.now) pc i.now }
{
    match *i {
        Inst::Jalr { .. } => targets_at(image, pc).is_some(),
        _ => true,
    }
}
