//! The registers that an instruction reads and writes, and tests of masks.

ghost use Rattle.std.specs.Prelude.{◌≡◌, ◌↔◌, IsTrue};
ghost use Rattle.rv_word.specs.Spelling.{IsWellFormed};
ghost use Rattle.rv_semantics.specs.Prints.{asks, task_reads, task_writes};
ghost use Rattle.dist_image.specs.Image.{IsImage, prints_at};
ghost use Rattle.fitting.specs.Fits.{IsWithin, IsWithinBut, AreApart};

use dist_image::{Image, prints_at};
use fitting::masks_are_tested;
use rv_word::{Inst, reads, writes};

/// The registers that a call looks at: 10 to 12 and 17.
const ARGUMENTS: u32 = 0x2_1C00;

/// The register of its answer: 10.
const ANSWER: u32 = 0x400;

/// The registers that an instruction reads, and those that it writes.
#[derive(Clone, Copy)]
pub(crate) struct Used {
    pub reads: u32,
    pub writes: u32,
}

/// Whether a call stands at an address at which a task may print.
fn asks(image: &Image, pc: u32, i: &Inst) -> bool
    requires { IsImage image.now }
    ensures { result ≡ asks (prints_at image.now) i.now pc }
{
    match *i {
        Inst::Ecall => prints_at(image, pc),
        _ => false,
    }
}

/// The registers that an instruction at an address uses where a task does it.
pub(crate) fn used_by(image: &Image, pc: u32, i: &Inst) -> Used
    requires image { IsImage image.now }
    requires well_formed { IsWellFormed i.now }
    ensures reads { result.reads ≡ task_reads (prints_at image.now) i.now pc }
    ensures writes { result.writes ≡ task_writes (prints_at image.now) i.now pc }
{
    if asks(image, pc, i) {
        Used {
            reads: ARGUMENTS,
            writes: ANSWER,
        }
    } else {
        Used {
            reads: reads(i),
            writes: writes(i),
        }
    }
}

/// Whether the registers of one mask are all in another.
pub(crate) fn is_within(small: u32, big: u32) -> bool
    ensures { IsTrue result ↔ IsWithin small big }
{
    masks_are_tested();
    small & big == small
}

/// Whether they are but for those of a third.
pub(crate) fn is_within_but(left_out: u32, small: u32, big: u32) -> bool
    ensures { IsTrue result ↔ IsWithinBut left_out small big }
{
    masks_are_tested();
    small & (big | left_out) == small
}

/// Whether no register is in both.
pub(crate) fn are_apart(a: u32, b: u32) -> bool
    ensures { IsTrue result ↔ AreApart a b }
{
    masks_are_tested();
    a & b == 0
}
