//! A profile that grows with the run.

ghost use Rattle.std.specs.Prelude.{◌≡◌, ◌+◌, ◌<◌, ◌^◌, false, OnOk, OnErr, IfOk, IfErr};
ghost use Rattle.cells.specs.Run.{is_over};
ghost use Rattle.elf_reader.specs.Executable.{IsProgram};
ghost use Rattle.profile_laws.specs.Profiles.{IsWide};
ghost use Rattle.profiler.specs.declared.error.ProfilingErr.TheVariants.{Wide};
ghost use Rattle.profiler.specs.Recorded.{state_reached, IsRecordedProfile, IsNextWide};

use crate::error::ProfilingErr;
use crate::programs::copy_program;
use crate::recording::Recording;
use elf_reader::Program;
use memory::PlainMemory;
use profile_data::Profile;
use std::alloc::{AllocError, Global};
use std::marker::Model;

/// The profile of a program's run while it grows, step by step.
///
/// Contracts see the program, its input, how many steps of its run were recorded, and whether short
/// writes are counted.
#[derive(Drop)]
pub struct Recorder {
    program: Program,
    recording: Recording<PlainMemory>,
}

impl Model for Recorder {
    ghost use Rattle.std.specs.Prelude.{◌≡◌};
    ghost use Rattle.seq_machine.specs.Parts.{start_of};
    ghost use Rattle.memory.specs.Plain.{held};
    ghost use Rattle.profiler.specs.Counted.{began, IsRecorded};
    ghost use Rattle.profiler.specs.Recorded.{Recorded};

    ghost Value = { Recorded };

    ghost view = { λ r. record {
      program = r.program;
      input = r.recording.machine.input.items;
      position = r.recording.machine.position;
      calls = r.recording.calls;
    } };

    ghost invariant = { λ r. IsRecorded held r.recording
        × (began held r.recording ≡ start_of r.program r.recording.machine.input.items) };
}

impl Recorder {
    /// A recorder at position 0 of a program's run with an input. It keeps a copy of the program.
    /// `calls` is the mark for short writes, as in [`profile`](crate::profile).
    ///
    /// # Errors
    ///
    /// Want of memory alone.
    pub fn new(
        alloc: Global,
        p: &Program,
        input: Vec<u8>,
        calls: bool,
    ) -> Result<Recorder, AllocError>
        requires { IsProgram p.now }
        ensures { IfOk result (λ r. r ≡
            record { program = p.now; input = input.items; position = 0; calls = calls }) }
    {
        let program = copy_program(alloc, p)?;
        let recording = Recording::new(alloc, p, input, calls)?;
        Ok(Recorder { program, recording })
    }

    /// The program. Takes no memory.
    pub fn program(&self) -> &Program
        ensures { result.now ≡ self.now.program }
    {
        &self.program
    }

    /// One step more. The run must not have ended. Where it fails the recorder is as it was.
    ///
    /// # Errors
    ///
    /// `Wide` exactly where the profile after this step would be too wide, as in
    /// [`profile`](crate::profile); or `Memory`.
    pub fn one(&mut self, alloc: Global) -> Result<(), ProfilingErr>
        requires running { is_over (state_reached self.old) ≡ false }
        requires steps { self.old.position < 10 ^ 12 + 16_383 }
        ensures ok { OnOk result (self.new ≡ record self.old { position = self.old.position + 1 }) }
        ensures err { OnErr result (self.new ≡ self.old) }
        ensures narrow { OnOk result (IsNextWide self.old → ⊥) }
        ensures wide { IfErr result (λ e. e ≡ Wide → IsNextWide self.old) }
    {
        self.recording.one(alloc)
    }

    /// How many steps were recorded. Takes no memory.
    pub fn steps(&self) -> u64
        ensures { result ≡ self.now.position }
    {
        self.recording.machine.position
    }

    /// Whether the run has ended with these steps. Takes no memory.
    pub fn ended(&self) -> bool
        ensures { result ≡ is_over (state_reached self.now) }
    {
        self.recording.machine.end.is_some()
    }

    /// The profile of the steps that were recorded.
    ///
    /// # Errors
    ///
    /// Want of memory alone.
    pub fn profile(&self, alloc: Global) -> Result<Profile, AllocError>
        ensures profile { IfOk result (λ f. IsRecordedProfile self.now f) }
        ensures narrow { IfOk result (λ f. IsWide f.rows → ⊥) }
    {
        self.recording.profile(alloc)
    }
}
