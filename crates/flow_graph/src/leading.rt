//! Where one instruction leads.

ghost use Rattle.std.specs.Prelude.{◌≡◌, filter, nat_eq, IfOk};
ghost use Rattle.std.specs.Map.{lookup};
ghost use Rattle.std.specs.Option.{option_copied};
ghost use Rattle.std.specs.List.Sorted.{IsStrictlyIncreasing};
ghost use Rattle.rv_word.specs.Meaning.{meaning};
ghost use Rattle.fitting.specs.Claims.{among};
ghost use Rattle.distill_rules.specs.Analysed.{analysed_row};
ghost use Rattle.cuts.specs.Listed.{IsListed};
ghost use Rattle.flow_graph.specs.Leads.{leads_from};

use cuts::{CutList, analysed_row, is_among};
use profile_data::{Profile, Row};
use rv_word::{Inst, decode};
use std::alloc::{AllocError, Global};

/// Where the instruction at an address leads, among these addresses.
pub(crate) fn successors(
    alloc: Global,
    f: &Profile,
    c: &CutList,
    pcs: &[u32],
    pc: u32,
    word: u32,
) -> Result<Vec<u32>, AllocError>
    requires listed { IsListed c.now }
    requires rises { IsStrictlyIncreasing pcs.now }
    ensures { IfOk result (λ next. next.items ≡ filter (among pcs.now)
        (leads_from (lookup (nat_eq pc) c.now.cut) (analysed_row f.now.rows pc) (among c.now.writes pc) pc (meaning word))) }
{
    let instruction = decode(word);
    let to = leads(
        alloc,
        c.side(pc),
        analysed_row(f, pc),
        c.is_write(pc),
        pc,
        &instruction,
    )?;
    known(alloc, pcs, &to)
}

/// Where an instruction leads, by the side that is cut, by its row, and whether a task may print there.
fn leads(
    alloc: Global,
    cut: Option<bool>,
    row: Option<&Row>,
    prints: bool,
    pc: u32,
    i: &Inst,
) -> Result<Vec<u32>, AllocError>
    ensures { IfOk result (λ to. to.items ≡ leads_from cut (option_copied row.entry) prints pc i.now) }
{
    let mut to = Vec::new(alloc);
    match *i {
        Inst::Branch { off, .. } => {
            if cut != Some(false) {
                to.push(pc.wrapping_add(4))?;
            }
            if cut != Some(true) {
                to.push(pc.wrapping_add_signed(off))?;
            }
        }
        Inst::Jal { off, .. } => to.push(pc.wrapping_add_signed(off))?,
        Inst::Jalr { .. } => {
            if let Some(row) = row {
                to.extend_from_slice(&row.targets)?;
            }
        }
        Inst::Ecall if prints => to.push(pc.wrapping_add(4))?,
        Inst::Ecall | Inst::Ebreak | Inst::Illegal(_) => {}
        _ => to.push(pc.wrapping_add(4))?,
    }
    Ok(to)
}

/// Those addresses that are among the analysed ones.
fn known(alloc: Global, pcs: &[u32], to: &[u32]) -> Result<Vec<u32>, AllocError>
    requires { IsStrictlyIncreasing pcs.now }
    ensures { IfOk result (λ found. found.items ≡ filter (among pcs.now) to.now) }
{
    let mut found = Vec::new(alloc);
    for pc in to {
        if is_among(pcs, *pc) {
            found.push(*pc)?;
        }
    }
    Ok(found)
}
