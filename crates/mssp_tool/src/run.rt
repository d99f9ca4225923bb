//! `run`: its files, the machine at its start, and its run.
ghost use Rattle.std.specs.Prelude.{◌≡◌, ◌≤◌, ◌^◌, [], None, Some, MatchResult, IfOk, IsNone};
ghost use Rattle.dist_image.specs.Image.{IsImage};
ghost use Rattle.elf_reader.specs.Executable.{IsProgram};
ghost use Rattle.command_line.specs.Command.{shown_run};
ghost use Rattle.speculative_runs.specs.Told.{Reads, Puts, OnlyChanges};
ghost use Rattle.mssp_tool.specs.Run.{Begins, Unready, IsReady, Reported, RunCause};
ghost use Rattle.seq_machine.specs.States.{state_of};

use crate::reading::{input_in, named_image_in, program_in};
use adapt::{Adapter, made_is_image};
use adaptive_driver::speculate_adapting;
use answers::Answer;
use command_line::Run;
use dist_image::Image;
use elf_reader::Program;
use engine::Engine;
use memory::Memory;
use nosquash::Pair;
use outside::{Sink, Store};
use page_tree::PageTree;
use seq_machine::{Machine, load};
use speculative_runs::{drive, speculate};
use std::alloc::{AllocError, Global};

/// A program, the machine at the start of its run, and what is known of the program.
#[derive(Drop)]
struct Prepared<M: Memory> {
    program: Program,
    machine: Machine<M>,
    image: Image,
}

/// Reads the files of a run, and gives the machine at its start.
fn prepare<S: Store, M: Memory>(
    alloc: Global,
    store: &mut S,
    run: &Run<'_>,
) -> Result<Prepared<M>, Answer>
    ensures files { S.told store.new ≡ S.told store.old }
    ensures answer { MatchResult result
        (λ ready. IsReady (S.told store.old) (shown_run run.now) ready.program (state_of M.at ready.machine) ready.image
        × IsImage ready.image × (ready.machine.position ≡ 0) × IsNone ready.machine.end × (ready.machine.out.items ≡ [])
        × IsProgram ready.program × Begins ready.program (state_of M.at ready.machine))
        (Unready (record { told = S.told store.old; before = S.faults store.old; now = S.faults store.new; failed = S.failed store.new }) (shown_run run.now)) }
    ensures faults { S.faults store.old ≤ S.faults store.new }
{
    let program = program_in(alloc, store, run.program)?;
    let image = match named_image_in(alloc, store, run.image) {
        Ok(image) => image,
        Err(answer) => return Err(answer),
    };
    let input = match input_in(alloc, store, run.input) {
        Ok(input) => input,
        Err(answer) => return Err(answer),
    };
    match load(alloc, &program, input) {
        Ok(machine) => Ok(Prepared {
            program,
            machine,
            image,
        }),
        Err(_) => Err(Answer::Memory),
    }
}

// Runs a speculative machine beside an image that stays.
fn run_steady<S: Store, O: Sink, M: Memory>(
    alloc: Global,
    store: &mut S,
    out: &mut O,
    ready: Prepared<M>,
    run: &Run<'_>,
    name: &str,
) -> Answer
    requires image { IsImage ready.image }
    requires position { ready.machine.position ≡ 0 }
    requires running { IsNone ready.machine.end }
    requires silent { ready.machine.out.items ≡ [] }
    requires program { IsProgram ready.program }
    requires begins { Begins ready.program (state_of M.at ready.machine) }
    requires steady { run.now.adapt ≡ None }
    ensures { Reported ready.program (state_of M.at ready.machine) ready.image (shown_run run.now) name.now
        (record { told = S.told store.old; before = S.faults store.old; now = S.faults store.new; failed = S.failed store.new }) (S.told store.new)
        (record { told = O.told out.old; left = O.told out.new; before = O.faults out.old; now = O.faults out.new })
        result }
{
    match Engine::new(alloc, ready.machine, ready.image, run.slaves) {
        Ok(engine) => {
            let mut pair = Pair::new(engine, &ready.program);
            speculate(alloc, store, out, &mut pair, run, name)
        }
        Err(_) => Answer::Memory,
    }
}

// An adapter of the run of what is ready, for an image every so many steps.
fn adapter_of<M: Memory>(
    alloc: Global,
    ready: &Prepared<M>,
    every: u64,
) -> Result<Adapter, AllocError>
    requires program { IsProgram ready.now.program }
    requires some { 1 ≤ every }
    requires most { every ≤ 10 ^ 9 }
    ensures { IfOk result (λ a. a ≡ record {
      program = ready.now.program;
      input = ready.now.machine.input.items;
      every = every;
      due = every;
      asked = 0;
    }) }
{
    let input = ready.machine.input.clone()?;
    Adapter::new(alloc, &ready.program, input, every)
}

// Runs a speculative machine beside an image that is made anew of the run so far.
fn run_adapting<S: Store, O: Sink, M: Memory>(
    alloc: Global,
    store: &mut S,
    out: &mut O,
    ready: Prepared<M>,
    run: &Run<'_>,
    every: u64,
    name: &str,
) -> Answer
    requires image { IsImage ready.image }
    requires position { ready.machine.position ≡ 0 }
    requires running { IsNone ready.machine.end }
    requires silent { ready.machine.out.items ≡ [] }
    requires program { IsProgram ready.program }
    requires begins { Begins ready.program (state_of M.at ready.machine) }
    requires adapts { run.now.adapt ≡ Some every }
    ensures { Reported ready.program (state_of M.at ready.machine) ready.image (shown_run run.now) name.now
        (record { told = S.told store.old; before = S.faults store.old; now = S.faults store.new; failed = S.failed store.new }) (S.told store.new)
        (record { told = O.told out.old; left = O.told out.new; before = O.faults out.old; now = O.faults out.new })
        result }
{
    let Ok(mut adapter) = adapter_of(alloc, &ready, every) else {
        return Answer::Memory;
    };
    made_is_image(&ready.program);
    match Engine::new(alloc, ready.machine, ready.image, run.slaves) {
        Ok(engine) => {
            let mut pair = Pair::new(engine, &ready.program);
            speculate_adapting(alloc, store, out, &mut pair, &mut adapter, run, name)
        }
        Err(_) => Answer::Memory,
    }
}

/// Runs a speculative machine over what is ready, puts its output as it comes, and writes a report of
/// that name.
fn run_reported<S: Store, O: Sink, M: Memory>(
    alloc: Global,
    store: &mut S,
    out: &mut O,
    ready: Prepared<M>,
    run: &Run<'_>,
    name: &str,
) -> Answer
    requires image { IsImage ready.image }
    requires position { ready.machine.position ≡ 0 }
    requires running { IsNone ready.machine.end }
    requires silent { ready.machine.out.items ≡ [] }
    requires program { IsProgram ready.program }
    requires begins { Begins ready.program (state_of M.at ready.machine) }
    ensures { Reported ready.program (state_of M.at ready.machine) ready.image (shown_run run.now) name.now
        (record { told = S.told store.old; before = S.faults store.old; now = S.faults store.new; failed = S.failed store.new }) (S.told store.new)
        (record { told = O.told out.old; left = O.told out.new; before = O.faults out.old; now = O.faults out.new })
        result }
{
    match run.adapt {
        Some(every) => run_adapting(alloc, store, out, ready, run, every, name),
        None => run_steady(alloc, store, out, ready, run, name),
    }
}

// Runs a program over a memory of that kind.
fn run_on<S: Store, O: Sink, M: Memory>(
    alloc: Global,
    store: &mut S,
    out: &mut O,
    run: &Run<'_>,
) -> Answer
    ensures files { OnlyChanges (S.told store.old) (S.told store.new) (shown_run run.now).report }
    ensures cause { RunCause
        (record { told = S.told store.old; before = S.faults store.old; now = S.faults store.new; failed = S.failed store.new })
        (S.told store.new)
        (shown_run run.now)
        (record { told = O.told out.old; left = O.told out.new; before = O.faults out.old; now = O.faults out.new })
        result }
{
    let mut ready: Prepared<M> = match prepare(alloc, store, run) {
        Ok(ready) => ready,
        Err(answer) => return answer,
    };
    match run.report {
        Some(name) => run_reported(alloc, store, out, ready, run, name),
        None => drive(alloc, &mut ready.machine, run.budget, out),
    }
}

/// Runs a program, and puts its output as it comes. Where a report is asked for, a speculative
/// machine runs it: in rounds beside an image, and else by serial steps alone. Where it is to adapt
/// these are rounds, beside an image that is made anew of the run so far.
pub fn run<S: Store, O: Sink>(alloc: Global, store: &mut S, out: &mut O, run: &Run<'_>) -> Answer
    ensures files { OnlyChanges (S.told store.old) (S.told store.new) (shown_run run.now).report }
    ensures cause { RunCause
        (record { told = S.told store.old; before = S.faults store.old; now = S.faults store.new; failed = S.failed store.new })
        (S.told store.new)
        (shown_run run.now)
        (record { told = O.told out.old; left = O.told out.new; before = O.faults out.old; now = O.faults out.new })
        result }
{
    run_on::<S, O, PageTree>(alloc, store, out, run)
}
