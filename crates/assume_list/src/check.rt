//! The verdict on a run.

ghost use Rattle.std.specs.Prelude.{◌≡◌, ◌+◌, ◌-◌, ◌≤◌, ◌^◌, map, length, IfOk};
ghost use Rattle.std.specs.List.{list_any};
ghost use Rattle.elf_reader.specs.Executable.{IsProgram};
ghost use Rattle.seq_machine.specs.States.{state_of};
ghost use Rattle.seq_machine.specs.Parts.{start_of};
ghost use Rattle.dist_image.specs.Image.{premise, IsImage};
ghost use Rattle.assumption_laws.specs.Looks.{first_from};
ghost use Rattle.assume_list.specs.Sights.{is_code, is_within, is_same};
ghost use Rattle.assume_list.specs.Watched.{IsBegun};
ghost use Rattle.assume_list.specs.Passes.{is_span, bound_of, or_late};
ghost use Rattle.assume_list.specs.Verdicts.{IsVerdict};

use crate::passing::{Asked, Passed, asked_below, pass, wait};
use crate::pcs::Pcs;
use crate::verdict::Verdict;
use crate::waits::Waits;
use crate::watch::Watch;
use dist_image::{Assumption, Image};
use elf_reader::Program;
use memory::{Memory, PlainMemory};
use seq_machine::{Machine, load};
use std::alloc::{AllocError, Global};

// The number of the first entry of a list that is Span.
fn place_of_span(xs: &[Assumption]) -> Option<u32>
    requires { length xs.now ≤ 1_048_576 }
    ensures { result ≡ first_from is_span 0 (map premise xs.now) }
{
    for k in 0..xs.len() {
        if matches!(&xs[k], Assumption::Span) {
            return Some(k as u32);
        }
    }
    None
}

// The number of the assumption that is Span.
fn span_of(image: &Image) -> Option<u32>
    requires { IsImage image.now }
    ensures { result ≡ first_from is_span 0 image.now.assumptions }
{
    place_of_span(&image.assumptions)
}

// Span is told of below the budget where it is listed, and else nowhere.
fn bound_of(span: Option<u32>, budget: u64) -> u64
    ensures { result ≡ bound_of span budget }
{
    match span {
        None => 0,
        Some(_) => budget,
    }
}

// The verdict where Span fails at a position, and else another one.
fn or_late(late: Option<u64>, which: u32, otherwise: Verdict) -> Verdict
    ensures { result ≡ or_late late which otherwise }
{
    match late {
        None => otherwise,
        Some(position) => Verdict::Broken { position, which },
    }
}

// The verdict on the run that a watch begins.
fn judge<M: Memory>(
    alloc: Global,
    watch: &mut Watch<M>,
    image: &Image,
    budget: u64,
) -> Result<Verdict, AllocError>
    requires image { IsImage image.now }
    requires few { budget ≤ 10 ^ 12 }
    requires position { watch.old.machine.position ≡ 0 }
    requires code { watch.old.listed.code ≡ list_any is_code image.now.assumptions }
    requires within { watch.old.listed.within ≡ list_any is_within image.now.assumptions }
    requires same { watch.old.listed.same ≡ list_any is_same image.now.assumptions }
    requires watched { IsBegun M.at image.now watch.old }
    ensures verdict { IfOk result (IsVerdict (state_of M.at watch.old.machine) image.now budget) }
    ensures steps { watch.new.machine.position ≤ budget + image.now.limit }
{
    let span = span_of(image);
    let bound = bound_of(span, budget);
    let span = span.unwrap_or(0);
    let mut pcs = Pcs::new(alloc, image)?;
    let mut waits = Waits::new(alloc, image.limit);
    let asked = Asked { span, bound };
    let passed = pass(alloc, watch, &mut waits, image, &mut pcs, budget, asked)?;
    let reached = watch.machine.position;
    match passed {
        Passed::Late(position) => Ok(Verdict::Broken {
            position,
            which: span,
        }),
        Passed::Failed(which) => {
            let position = reached - 1;
            let until = bound.min(asked_below(which, span, position));
            let machine = &mut watch.machine;
            let late = wait(alloc, machine, &mut waits, image, &mut pcs, until)?;
            Ok(or_late(late, span, Verdict::Broken { position, which }))
        }
        Passed::Through => {
            let machine = &mut watch.machine;
            let late = wait(alloc, machine, &mut waits, image, &mut pcs, bound)?;
            Ok(or_late(late, span, Verdict::Met(reached)))
        }
    }
}

/// Whether the run of a program on an input meets what an image assumes of it, at the positions below a budget.
///
/// The image need not fit the program. With n the lesser of the budget and the run's length, [`Verdict::Met`] has n and
/// comes exactly where at none of the first n positions a listed assumption fails. [`Verdict::Broken`] has the first
/// position at which one fails, and the number of the first that fails there.
///
/// It takes at most as many steps as the budget and one task limit, since `Span` speaks of positions after the one at
/// which it fails.
///
/// # Errors
///
/// Want of memory alone.
pub fn check_run(
    alloc: Global,
    p: &Program,
    image: &Image,
    input: Vec<u8>,
    budget: u64,
) -> Result<Verdict, AllocError>
    requires program { IsProgram p.now }
    requires image { IsImage image.now }
    requires some { 1 ≤ budget }
    requires most { budget ≤ 10 ^ 12 }
    ensures { IfOk result (IsVerdict (start_of p.now input.items) image.now budget) }
{
    let machine: Machine<PlainMemory> = load(alloc, p, input)?;
    let mut watch = Watch::new(alloc, machine, image)?;
    judge(alloc, &mut watch, image, budget)
}
