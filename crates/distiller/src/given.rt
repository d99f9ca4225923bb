//! The given loads of one value that count, and the cuts with them.

ghost use Rattle.std.specs.Prelude.{◌≡◌, ◌≤◌, map, IfOk};
ghost use Rattle.std.specs.List.Sorted.{IsStrictlyIncreasing};
ghost use Rattle.distill_rules.specs.Analysed.{analysed};
ghost use Rattle.layout_rules.specs.Images.{with_same};
ghost use Rattle.distill_rules.specs.Cuts.{cuts};
ghost use Rattle.cuts.specs.Listed.{place_of, IsListed};
ghost use Rattle.cuts.specs.Words.{word_in};
ghost use Rattle.distiller.specs.Given.{sets_register, counts, loads};

use cuts::{CutList, analysed, cuts, is_among};
use elf_reader::{Program, word_at};
use profile_data::Profile;
use rv_word::{Inst, decode};
use std::alloc::{AllocError, Global};

/// Whether an instruction is a load of another register than register 0.
fn sets_register(i: &Inst) -> bool
    ensures { result ≡ sets_register i.now }
{
    match *i {
        Inst::Load { rd, .. } => rd != 0,
        _ => false,
    }
}

/// Whether an analysed load of another register than register 0 is at an address.
fn counts(p: &Program, pcs: &[u32], f: &Profile, pc: u32) -> bool
    requires pcs { pcs.now ≡ analysed f.now.rows }
    requires rises { IsStrictlyIncreasing pcs.now }
    ensures { result ≡ counts (word_in p.now) f.now.rows pc }
{
    is_among(pcs, pc) && sets_register(&decode(word_at(p, pc)))
}

/// Those given loads that are analysed, each with its one value.
fn loads(
    alloc: Global,
    p: &Program,
    f: &Profile,
    same: &[(u32, u32)],
) -> Result<Vec<(u32, u32)>, AllocError>
    ensures { IfOk result (λ found. found.items ≡ loads (word_in p.now) f.now.rows same.now) }
{
    let pcs = analysed(alloc, f)?;
    let mut found = Vec::new(alloc);
    for entry in same {
        let entry = *entry;
        if counts(p, &pcs, f, entry.0) {
            found.push(entry)?;
        }
    }
    Ok(found)
}

/// The same cuts with these loads of one value.
fn with_same(c: CutList, same: Vec<(u32, u32)>) -> CutList
    ensures { result ≡ with_same same.items c }
{
    let CutList {
        cut,
        dead,
        writes,
        ..
    } = c;
    CutList {
        cut,
        dead,
        writes,
        same,
    }
}

/// What is cut from a program, with those given loads that count.
pub(crate) fn given_cuts(
    alloc: Global,
    p: &Program,
    f: &Profile,
    rare: u32,
    given: &[(u32, u32)],
) -> Result<CutList, AllocError>
    requires rare { rare ≤ 100 }
    requires rises { IsStrictlyIncreasing (map place_of given.now) }
    ensures cuts { IfOk result (λ c. c
        ≡ with_same (loads (word_in p.now) f.now.rows given.now) (cuts (word_in p.now) f.now.rows rare)) }
    ensures listed { IfOk result IsListed }
{
    let found = cuts(alloc, p, f, rare)?;
    let same = loads(alloc, p, f, given)?;
    Ok(with_same(found, same))
}
