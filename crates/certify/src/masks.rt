//! The registers that are live and those that are needed, at an address and behind an instruction.

ghost use Rattle.std.specs.Prelude.{◌≡◌, [], ◌∷◌, unwrap_or};
ghost use Rattle.rv_word.specs.declared.inst.Inst.TheVariants.{Ecall};
ghost use Rattle.dist_image.specs.Image.{Distilled, IsImage, note_at};
ghost use Rattle.fitting.specs.Claims.{claims, sides, leads};
ghost use Rattle.fitting.specs.Fits.{need_at};
ghost use Rattle.certify.specs.Ways.{AreMasks, AreMasksOfBoth};

use crate::assumed::{cut_at, targets_at};
use dist_image::{Image, Note, prints_at};
use rv_word::Inst;

/// The registers that are live and those that are needed, a bit for each.
#[derive(Clone, Copy)]
pub(crate) struct Masks {
    pub live: u32,
    pub need: u32,
}

/// The note at an address, if there is one.
fn note_at(image: &Image, pc: u32) -> Option<Note>
    requires { IsImage image.now }
    ensures { result ≡ note_at image.now pc }
{
    let notes = image.notes.as_slice();
    match notes.binary_search_by_key(&pc, |note| note.pc) {
        Ok(place) => Some(notes[place]),
        Err(_) => None,
    }
}

/// No registers, as where an instruction leads nowhere.
fn nothing() -> Masks
    ensures { (image : Distilled) → AreMasks image [] result }
{
    Masks { live: 0, need: 0 }
}

/// The registers at an address: none where it has no note.
pub(crate) fn masks_at(image: &Image, pc: u32) -> Masks
    requires { IsImage image.now }
    ensures masks { AreMasks image.now (pc ∷ []) result }
    ensures need { result.need ≡ need_at image.now pc }
{
    match note_at(image, pc) {
        Some(note) => Masks {
            live: note.live,
            need: note.need,
        },
        None => Masks { live: 0, need: 0 },
    }
}

/// The registers of both.
fn joined(a: Masks, b: Masks) -> Masks
    ensures { AreMasksOfBoth a b result }
{
    Masks {
        live: a.live | b.live,
        need: a.need | b.need,
    }
}

/// The registers at all these addresses.
fn masks_of(image: &Image, pcs: &[u32]) -> Masks
    requires { IsImage image.now }
    ensures { AreMasks image.now pcs.now result }
{
    let mut all = nothing();
    for pc in pcs {
        all = joined(all, masks_at(image, *pc));
    }
    all
}

/// The registers behind a branch of which this side is cut.
fn behind_branch(image: &Image, cut: Option<bool>, fallen: u32, taken: u32) -> Masks
    requires { IsImage image.now }
    ensures { AreMasks image.now (sides cut fallen taken) result }
{
    match cut {
        None => joined(masks_at(image, fallen), masks_at(image, taken)),
        Some(true) => masks_at(image, fallen),
        Some(false) => masks_at(image, taken),
    }
}

/// The registers behind a jump by a register: those at its targets.
fn behind_jump(image: &Image, pc: u32) -> Masks
    requires { IsImage image.now }
    ensures { AreMasks image.now (unwrap_or ((claims image.now).targets pc) []) result }
{
    match targets_at(image, pc) {
        Some(targets) => masks_of(image, targets),
        None => nothing(),
    }
}

/// The registers behind a call: none where a task may not print.
fn behind_call(image: &Image, pc: u32) -> Masks
    requires { IsImage image.now }
    ensures { AreMasks image.now (leads (claims image.now) pc Ecall) result }
{
    if prints_at(image, pc) {
        masks_at(image, pc.wrapping_add(4))
    } else {
        nothing()
    }
}

/// The registers behind an instruction: those at the addresses where it leads.
pub(crate) fn masks_behind(image: &Image, pc: u32, i: &Inst) -> Masks
    requires { IsImage image.now }
    ensures { AreMasks image.now (leads (claims image.now) pc i.now) result }
{
    let next = pc.wrapping_add(4);
    match *i {
        Inst::Branch { off, .. } => {
            behind_branch(image, cut_at(image, pc), next, pc.wrapping_add_signed(off))
        }
        Inst::Jal { off, .. } => masks_at(image, pc.wrapping_add_signed(off)),
        Inst::Jalr { .. } => behind_jump(image, pc),
        Inst::Ecall => behind_call(image, pc),
        Inst::Ebreak | Inst::Illegal(_) => nothing(),
        _ => masks_at(image, next),
    }
}
