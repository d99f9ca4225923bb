//! The check of the program's run, the machine that speculates, and the lines of both.

ghost use Rattle.std.specs.Prelude.{◌≡◌, ◌≤◌, ◌<◌, ◌^◌, ◌++◌, [], length, codes, decimal, ℕ, false, IfOk, OnOk};
ghost use Rattle.cells.specs.Run.{is_over};
ghost use Rattle.speculation.specs.Engine.{fresh};
ghost use Rattle.speculation_schedules.specs.Schedule.{after};
ghost use Rattle.event_list.specs.Draws.{drawn};
ghost use Rattle.elf_reader.specs.Executable.{IsProgram};
ghost use Rattle.dist_image.specs.Image.{IsImage};
ghost use Rattle.assume_list.specs.declared.verdict.Verdict.{Verdict};
ghost use Rattle.report.specs.Text.{line};
ghost use Rattle.report.specs.Verdict.{verdict_line, IsOfList};
ghost use Rattle.engine.specs.Whole.{model_of, world_of};
ghost use Rattle.trial_report.specs.Trial.{front_text, IsTrialStop, Tells};

use crate::making::BUDGET;
use assume_list::{Verdict, check_run};
use dist_image::Image;
use elf_reader::Program;
use engine::Engine;
use event_list::seeded;
use memory::{Memory, PlainMemory};
use report::{Word, push_line, push_verdict, summary_bytes};
use seq_machine::{Machine, load};
use std::alloc::{AllocError, Global};

/// How many events are given at most.
const MOST_EVENTS: u64 = 50_000_000;

/// How many slaves the machine has.
const SLAVES: u8 = 4;

/// Puts the lines of the program, its profile and its image, and that of the check.
fn push_front(
    out: &mut Vec<u8>,
    words: u64,
    steps: u64,
    image: &Image,
    verdict: Verdict,
) -> Result<(), AllocError>
    requires { IsOfList image.now.assumptions verdict }
    ensures { OnOk result (out.new.items ≡ out.old.items ++ front_text words steps image.now verdict) }
{
    push_line(out, "words", &[Word::Number(words)])?;
    push_line(out, "steps", &[Word::Number(steps)])?;
    push_line(out, "analysed", &[Word::Number(image.notes.len() as u64)])?;
    push_line(out, "slots", &[Word::Number(image.slots.len() as u64)])?;
    push_line(out, "anchors", &[Word::Number(image.anchors.len() as u64)])?;
    out.extend_from_slice(b"check ")?;
    push_verdict(out, image, verdict)
}

/// Gives a machine the events of a number until its run has ended, or all have been given, and gives
/// how many these were.
fn give<M: Memory>(alloc: Global, engine: &mut Engine<M>, number: u64) -> Result<u64, AllocError>
    requires { model_of M.at engine.old ≡ fresh (world_of M.at engine.old) }
    ensures stop { IfOk result (λ k. IsTrialStop (world_of M.at engine.old) (drawn number 4) k) }
    ensures model { IfOk result (λ k.
        model_of M.at engine.new ≡ after (world_of M.at engine.old) (drawn number 4) k) }
{
    let mut draws = seeded(number, SLAVES);
    let mut given = 0;
    while given < MOST_EVENTS && engine.committed().end.is_none() {
        engine.event(alloc, draws.next_event())?;
        given += 1;
    }
    Ok(given)
}

/// Checks the run of a program beside its image, and runs it by the events of a number; gives all
/// lines.
pub(crate) fn tell(
    alloc: Global,
    number: u64,
    program: &Program,
    words: u64,
    steps: u64,
    image: Image,
) -> Result<Vec<u8>, AllocError>
    requires program { IsProgram program.now }
    requires image { IsImage image }
    ensures { IfOk result (λ text. Tells number program.now words steps image text.items) }
{
    let verdict = check_run(alloc, program, &image, Vec::new(alloc), BUDGET)?;
    let mut out = Vec::new(alloc);
    push_front(&mut out, words, steps, &image, verdict)?;
    let machine: Machine<PlainMemory> = load(alloc, program, Vec::new(alloc))?;
    let mut engine = Engine::new(alloc, machine, image, SLAVES)?;
    let given = give(alloc, &mut engine, number)?;
    push_line(&mut out, "events", &[Word::Number(given)])?;
    let summary = summary_bytes(alloc, &engine)?;
    out.extend_from_slice(&summary)?;
    Ok(out)
}
