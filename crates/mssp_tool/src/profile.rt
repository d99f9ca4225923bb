//! `profile`: a program's run, counted, and the file that this is written to.
ghost use Rattle.std.specs.Prelude.{◌≡◌, ◌≤◌, Some, MatchResult};
ghost use Rattle.command_line.specs.Command.{shown_walk};
ghost use Rattle.elf_reader.specs.Executable.{IsProgram};
ghost use Rattle.profile_data.specs.Bytes.{bytes_of};
ghost use Rattle.speculative_runs.specs.Told.{Reads, OnlyChanges};
ghost use Rattle.mssp_tool.specs.Files.{Saved};
ghost use Rattle.mssp_tool.specs.Profile.{Unprofiled, HasRun, ProfileCause};

use crate::output::save;
use crate::reading::{input_in, program_in};
use answers::{Answer, Refusal};
use command_line::RunOptions;
use elf_reader::Program;
use outside::Store;
use profile_data::{Profile, write_profile};
use profiler::ProfilingErr;
use std::alloc::Global;

/// What is run: a program, and its input.
#[derive(Drop)]
pub struct Subject {
    pub program: Program,
    pub input: Vec<u8>,
}

/// Reads the files of a run.
pub fn subject_in<S: Store>(
    alloc: Global,
    store: &mut S,
    walk: &RunOptions<'_>,
) -> Result<Subject, Answer>
    ensures files { S.told store.new ≡ S.told store.old }
    ensures answer { MatchResult result
        (λ subject. IsProgram subject.program × HasRun (S.told store.old) (shown_walk walk.now) subject.program subject.input.items)
        (Unprofiled (record { told = S.told store.old; before = S.faults store.old; now = S.faults store.new; failed = S.failed store.new }) (shown_walk walk.now)) }
    ensures faults { S.faults store.old ≤ S.faults store.new }
{
    let program = program_in(alloc, store, walk.program)?;
    match input_in(alloc, store, walk.input) {
        Ok(input) => Ok(Subject { program, input }),
        Err(answer) => Err(answer),
    }
}

/// Writes the bytes of a profile under that name.
fn save_profile<S: Store>(alloc: Global, store: &mut S, name: &str, f: &Profile) -> Answer
    ensures { Saved
        (record { told = S.told store.old; before = S.faults store.old; now = S.faults store.new; failed = S.failed store.new })
        (S.told store.new) name.now (bytes_of f.now) result }
{
    match write_profile(alloc, f) {
        Ok(bytes) => save(alloc, store, name, &bytes),
        Err(_) => Answer::Memory,
    }
}

/// Runs a program through its steps, and writes the profile of that run. `calls` tells whether short
/// writes are counted in it.
pub fn profile<S: Store>(alloc: Global, store: &mut S, walk: &RunOptions<'_>, calls: bool) -> Answer
    ensures files { OnlyChanges (S.told store.old) (S.told store.new) (Some (shown_walk walk.now).other) }
    ensures cause { ProfileCause
        (record { told = S.told store.old; before = S.faults store.old; now = S.faults store.new; failed = S.failed store.new })
        (S.told store.new)
        (shown_walk walk.now)
        calls
        result }
{
    let subject = match subject_in(alloc, store, walk) {
        Ok(subject) => subject,
        Err(answer) => return answer,
    };
    let input = subject.input;
    match profiler::profile(alloc, &subject.program, input, walk.budget, calls) {
        Ok(f) => save_profile(alloc, store, walk.other, &f),
        Err(ProfilingErr::Wide) => Answer::Refused(Refusal::Wide),
        Err(ProfilingErr::Memory) => Answer::Memory,
    }
}
