//! Runs a program and counts what it does.

ghost use Rattle.std.specs.Prelude.{◌≡◌, ◌≤◌, ◌^◌, OnOk, IfOk, IfErr};
ghost use Rattle.elf_reader.specs.Executable.{IsProgram};
ghost use Rattle.seq_machine.specs.Parts.{start_of};
ghost use Rattle.profile_data.specs.Profile.{Profiled};
ghost use Rattle.profile_laws.specs.Profiles.{steps, IsWide};
ghost use Rattle.profiler.specs.declared.error.ProfilingErr.TheVariants.{Wide};
ghost use Rattle.profiler.specs.Counted.{began, IsRecorded, IsWideWithin, IsProfileWithin};

use crate::error::ProfilingErr;
use crate::recording::Recording;
use elf_reader::Program;
use memory::PlainMemory;
use profile_data::Profile;
use rv_step::Memory;
use std::alloc::Global;

/// Takes the steps of the budget, or those to the end of the run.
fn count_all<M: Memory>(
    alloc: Global,
    recording: &mut Recording<M>,
    budget: u64,
) -> Result<(), ProfilingErr>
    requires position { recording.old.machine.position ≡ 0 }
    requires record { IsRecorded M.at recording.old }
    requires budget { budget ≤ 10 ^ 12 }
    ensures record { IsRecorded M.at recording.new }
    ensures start { began M.at recording.new ≡ began M.at recording.old }
    ensures calls { recording.new.calls ≡ recording.old.calls }
    ensures steps { OnOk result (recording.new.machine.position ≡ steps (began M.at recording.old) budget) }
    ensures wide { IfErr result (λ e. e ≡ Wide → IsWideWithin M.at recording.old budget) }
{
    while recording.machine.position < budget && recording.machine.end.is_none() {
        recording.one(alloc)?;
    }
    Ok(())
}

/// The profile of a run on a memory of this kind.
fn profile_on<M: Memory>(
    alloc: Global,
    p: &Program,
    input: Vec<u8>,
    budget: u64,
    calls: bool,
) -> Result<Profile, ProfilingErr>
    requires program { IsProgram p.now }
    requires budget { budget ≤ 10 ^ 12 }
    ensures profile { IfOk result (λ f. IsProfileWithin calls (start_of p.now input.items) budget f) }
    ensures narrow { IfOk result (λ f. IsWide f.rows → ⊥) }
    ensures wide { IfErr result (λ e. e ≡ Wide →
        (f : Profiled) → IsProfileWithin calls (start_of p.now input.items) budget f → IsWide f.rows) }
{
    let mut recording: Recording<M> = Recording::new(alloc, p, input, calls)?;
    count_all(alloc, &mut recording, budget)?;
    Ok(recording.profile(alloc)?)
}

/// The profile of a program's run with an input, over as many steps as the budget has, at most
/// 10 ^ 12, or those to the end of the run if there are fewer.
///
/// A branch to a place that is no multiple of 4 is taken where its condition holds, although it ends
/// the run. What a store puts counts as read where a later step loads one of its bytes, or fetches it
/// as code, and nothing wrote that byte between; a `read` call writes. A load to register 0 loads.
///
/// `calls` is the mark for short writes: `write` calls of at most 256 bytes to descriptor 1 or 2. With
/// it each counts as taken, and reads the bytes that it shows. A longer `write` reads nothing and is
/// not taken, nor is any without the mark.
///
/// # Errors
///
/// `Wide` where the steps execute more than 524,288 addresses, or where their indirect jumps go to
/// more than 1,048,576 targets in all, counted at each address; or `Memory`.
pub fn profile(
    alloc: Global,
    p: &Program,
    input: Vec<u8>,
    budget: u64,
    calls: bool,
) -> Result<Profile, ProfilingErr>
    requires program { IsProgram p.now }
    requires budget { budget ≤ 10 ^ 12 }

    // It is the profile of the run, of which there is one; and it is not too wide.
    ensures profile { IfOk result (λ f. IsProfileWithin calls (start_of p.now input.items) budget f) }
    ensures narrow { IfOk result (λ f. IsWide f.rows → ⊥) }

    // So this error comes where the run's profile is too wide, and nowhere else.
    ensures wide { IfErr result (λ e. e ≡ Wide →
        (f : Profiled) → IsProfileWithin calls (start_of p.now input.items) budget f → IsWide f.rows) }
{
    profile_on::<PlainMemory>(alloc, p, input, budget, calls)
}
