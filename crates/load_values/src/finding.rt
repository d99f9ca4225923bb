//! Runs a program and finds its loads of one value.

ghost use Rattle.std.specs.Prelude.{◌≡◌, ℕ, ◌+◌, ◌-◌, ◌<◌, ◌≤◌, ◌^◌, OnOk, IfOk, IfErr, IsNone, None};
ghost use Rattle.cells.specs.Cells.{IsPc};
ghost use Rattle.rv_semantics.specs.Calls.{step as next_state};
ghost use Rattle.elf_reader.specs.Executable.{IsProgram};
ghost use Rattle.seq_machine.specs.States.{state_of};
ghost use Rattle.seq_machine.specs.Parts.{start_of};
ghost use Rattle.load_values.specs.declared.error.FindErr.TheVariants.{Wide};
ghost use Rattle.load_values.specs.Values.{AreValues};
ghost use Rattle.load_values.specs.Found.{IsListedWithin, AreLoadedWithin, IsWideWithin};
ghost use Rattle.load_values.specs.Sights.{known_after};
ghost use Rattle.load_values.specs.Counted.{AreFew, known_of, OthersStay, count_after, sight_here, IsCountedWithin};

use crate::error::FindErr;
use crate::loads::Loads;
use crate::sight::look;
use elf_reader::Program;
use memory::PlainMemory;
use rv_step::Memory;
use seq_machine::{Machine, load};
use std::alloc::Global;

/// Takes a step, and notes what it tells.
fn step<M: Memory>(
    alloc: Global,
    machine: &mut Machine<M>,
    program: &mut M,
    loads: &mut Loads,
) -> Result<(), FindErr>
    requires running { IsNone machine.old.end }
    requires position { machine.old.position < 2 ^ 64 - 1 }
    requires few { AreFew loads.old }
    ensures program { M.at program.new ≡ M.at program.old }
    ensures state { OnOk result (state_of M.at machine.new ≡ next_state (state_of M.at machine.old)) }
    ensures position { OnOk result (machine.new.position ≡ machine.old.position + 1) }
    ensures pc { OnOk result (IsPc machine.new.arch.pc) }
    ensures here { OnOk result (known_of loads.new machine.old.arch.pc
        ≡ known_after (sight_here M.at program.old machine.old) (known_of loads.old machine.old.arch.pc)) }
    ensures elsewhere { OnOk result (OthersStay machine.old.arch.pc loads.old loads.new) }
    ensures count { OnOk result (loads.new.count
        ≡ count_after (sight_here M.at program.old machine.old) machine.old.arch.pc loads.old) }
    ensures few { OnOk result (AreFew loads.new) }
    ensures wide { IfErr result (λ e. e ≡ Wide →
        524_288 < count_after (sight_here M.at program.old machine.old) machine.old.arch.pc loads.old) }
{
    let pc = machine.arch.pc;
    let sight = look(machine, program);
    machine.one(alloc)?;
    let _pc = machine.arch.pc;
    loads.add(pc, sight)
}

/// Takes the steps of the budget, or those to the end of the run.
fn find_all<M: Memory>(
    alloc: Global,
    machine: &mut Machine<M>,
    program: &mut M,
    loads: &mut Loads,
    budget: u64,
) -> Result<(), FindErr>
    requires position { machine.old.position ≡ 0 }
    requires found { (q : ℕ) → known_of loads.old q ≡ None }
    requires count { loads.old.count ≡ 0 }
    requires few { AreFew loads.old }
    requires program { M.at program.old ≡ M.at machine.old.arch.mem }
    requires budget { budget ≤ 10 ^ 12 }
    ensures counted { OnOk result
        (IsCountedWithin M.at (state_of M.at machine.old) budget machine.new loads.new) }
    ensures wide { IfErr result (λ e. e ≡ Wide → IsWideWithin (state_of M.at machine.old) budget) }
{
    prove!(machine.arch.pc % 4 == 0);
    while machine.position < budget && machine.end.is_none() {
        step(alloc, machine, program, loads)?;
    }
    Ok(())
}

/// The loads of one value of a run on a memory of this kind.
fn find_on<M: Memory>(
    alloc: Global,
    p: &Program,
    input: Vec<u8>,
    budget: u64,
) -> Result<Vec<(u32, u32)>, FindErr>
    requires program { IsProgram p.now }
    requires budget { budget ≤ 10 ^ 12 }
    ensures values { IfOk result (λ rows. AreValues rows.items) }
    ensures listed { IfOk result (λ rows. IsListedWithin (start_of p.now input.items) budget rows.items) }
    ensures loaded { IfOk result (λ rows. AreLoadedWithin (start_of p.now input.items) budget rows.items) }
    ensures narrow { IfOk result (λ rows. IsWideWithin (start_of p.now input.items) budget → ⊥) }
    ensures wide { IfErr result (λ e. e ≡ Wide → IsWideWithin (start_of p.now input.items) budget) }
{
    let mut machine: Machine<M> = load(alloc, p, input)?;
    let mut program = machine.arch.mem.snapshot(alloc)?;
    let mut loads = Loads::new(alloc);
    find_all(alloc, &mut machine, &mut program, &mut loads, budget)?;
    Ok(loads.rows(alloc)?)
}

/// The loads of one value of a program's run with an input, over as many steps as the budget has, at
/// most 10 ^ 12, or those to the end of the run if there are fewer.
///
/// A load is listed, in the order of the addresses, where each of these steps at its address executes
/// the program's own word, which loads one and the same value into another register than register 0,
/// extended to 32 bits, and where one word sets a register to this value.
///
/// # Errors
///
/// `Wide` where the steps execute loads at more than 524,288 addresses, whichever words these are; or
/// `Memory`.
pub fn find(
    alloc: Global,
    p: &Program,
    input: Vec<u8>,
    budget: u64,
) -> Result<Vec<(u32, u32)>, FindErr>
    requires program { IsProgram p.now }
    requires budget { budget ≤ 10 ^ 12 }

    // A file can hold the list, which has the values of the run and no others.
    ensures values { IfOk result (λ rows. AreValues rows.items) }
    ensures listed { IfOk result (λ rows. IsListedWithin (start_of p.now input.items) budget rows.items) }

    // So at each of these steps at its address a value is what is loaded.
    ensures loaded { IfOk result (λ rows. AreLoadedWithin (start_of p.now input.items) budget rows.items) }

    // The error comes where loads are executed at too many addresses, and nowhere else.
    ensures narrow { IfOk result (λ rows. IsWideWithin (start_of p.now input.items) budget → ⊥) }
    ensures wide { IfErr result (λ e. e ≡ Wide → IsWideWithin (start_of p.now input.items) budget) }
{
    find_on::<PlainMemory>(alloc, p, input, budget)
}
