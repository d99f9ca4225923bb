//! A run of a program, and what it did so far.

ghost use Rattle.std.specs.Prelude.{◌≡◌, ◌+◌, ◌-◌, ◌<◌, ◌^◌, OnOk, OnErr, IfOk, IfErr, IsNone};
ghost use Rattle.cells.specs.Cells.{IsPc};
ghost use Rattle.rv_semantics.specs.Calls.{step as next_state};
ghost use Rattle.elf_reader.specs.Executable.{IsProgram};
ghost use Rattle.seq_machine.specs.States.{state_of};
ghost use Rattle.seq_machine.specs.Parts.{start_of};
ghost use Rattle.profile_laws.specs.Profiles.{IsWide};
ghost use Rattle.profile_laws.specs.Tally.{after_visit, rows_after};
ghost use Rattle.profiler.specs.declared.error.ProfilingErr.TheVariants.{Wide};
ghost use Rattle.profiler.specs.Visits.{visit_here};
ghost use Rattle.profiler.specs.Rows.{EachHasRoom};
ghost use Rattle.profiler.specs.Tally.{kept_of, IsTally};
ghost use Rattle.profiler.specs.Counted.{began, IsRecorded, IsNextWide, IsProfileSoFar};

use crate::error::ProfilingErr;
use crate::tally::Tally;
use crate::visit::look;
use elf_reader::Program;
use profile_data::Profile;
use rv_step::Memory;
use seq_machine::{Machine, load};
use std::alloc::{AllocError, Global};

/// Takes a step, and keeps what it does. Where there is no memory left, or too many rows or targets
/// would come of it, no step is taken.
#[inline(always)]
fn step<M: Memory>(
    alloc: Global,
    machine: &mut Machine<M>,
    program: &mut M,
    tally: &mut Tally<M>,
    calls: bool,
) -> Result<(), ProfilingErr>
    requires running { IsNone machine.old.end }
    requires position { machine.old.position < 2 ^ 64 - 1 }
    requires tally { IsTally M.at tally.old }
    requires room { EachHasRoom (kept_of M.at tally.old).rows }
    ensures program { M.at program.new ≡ M.at program.old }
    ensures tally { IsTally M.at tally.new }
    ensures state { OnOk result (state_of M.at machine.new ≡ next_state (state_of M.at machine.old)) }
    ensures position { OnOk result (machine.new.position ≡ machine.old.position + 1) }
    ensures pc { OnOk result (IsPc machine.new.arch.pc) }
    ensures kept { OnOk result (kept_of M.at tally.new
        ≡ after_visit (visit_here M.at calls program.old machine.old) (kept_of M.at tally.old)) }
    ensures same_state { OnErr result (state_of M.at machine.new ≡ state_of M.at machine.old) }
    ensures same_position { OnErr result (machine.new.position ≡ machine.old.position) }
    ensures same_kept { OnErr result (kept_of M.at tally.new ≡ kept_of M.at tally.old) }
    ensures wide { IfErr result (λ e. e ≡ Wide → IsWide
        (rows_after (visit_here M.at calls program.old machine.old) (kept_of M.at tally.old))) }
{
    tally.enter(alloc)?;
    let visit = look(machine, program, calls);
    if tally.is_wide_with(&visit) {
        return Err(ProfilingErr::Wide);
    }
    machine.one(alloc)?;
    let _pc = machine.arch.pc;
    tally.add(alloc, &visit);
    Ok(())
}

/// A machine, and what its run did so far.
#[derive(Drop)]
pub(crate) struct Recording<M: Memory> {
    pub machine: Machine<M>,
    /// The address of the first instruction.
    pub entry: u32,
    /// The memory at the start.
    pub program: M,
    pub tally: Tally<M>,
    /// Whether short writes are counted.
    pub calls: bool,
}

impl<M: Memory> Recording<M> {
    /// The recording of a program's run with an input, at position 0. It keeps a copy of the
    /// program's memory.
    pub fn new(
        alloc: Global,
        p: &Program,
        input: Vec<u8>,
        calls: bool,
    ) -> Result<Recording<M>, AllocError>
        requires { IsProgram p.now }
        ensures record { IfOk result (λ r. IsRecorded M.at r) }
        ensures start { IfOk result (λ r. began M.at r ≡ start_of p.now input.items) }
        ensures input { IfOk result (λ r. r.machine.input.items ≡ input.items) }
        ensures steps { IfOk result (λ r. r.machine.position ≡ 0) }
        ensures calls { IfOk result (λ r. r.calls ≡ calls) }
    {
        let mut machine: Machine<M> = load(alloc, p, input)?;
        let program = machine.arch.mem.snapshot(alloc)?;
        let tally = Tally::new(alloc)?;
        let entry = machine.arch.pc;
        prove!(entry % 4 == 0);
        Ok(Recording {
            machine,
            entry,
            program,
            tally,
            calls,
        })
    }

    /// One step more. Where it fails the recording is as it was.
    #[inline(always)]
    pub fn one(&mut self, alloc: Global) -> Result<(), ProfilingErr>
        requires record { IsRecorded M.at self.old }
        requires running { IsNone self.old.machine.end }
        requires steps { self.old.machine.position < 10 ^ 12 + 16_383 }
        ensures record { IsRecorded M.at self.new }
        ensures start { began M.at self.new ≡ began M.at self.old }
        ensures input { self.new.machine.input.items ≡ self.old.machine.input.items }
        ensures calls { self.new.calls ≡ self.old.calls }
        ensures steps { OnOk result (self.new.machine.position ≡ self.old.machine.position + 1) }
        ensures stays { OnErr result (self.new.machine.position ≡ self.old.machine.position) }
        ensures wide { IfErr result (λ e. e ≡ Wide → IsNextWide M.at self.old) }
        ensures narrow { OnOk result (IsNextWide M.at self.old → ⊥) }
    {
        step(
            alloc,
            &mut self.machine,
            &mut self.program,
            &mut self.tally,
            self.calls,
        )
    }

    /// The profile of the run so far.
    pub fn profile(&self, alloc: Global) -> Result<Profile, AllocError>
        requires { IsRecorded M.at self.now }
        ensures profile { IfOk result (λ f. IsProfileSoFar M.at self.now f) }
        ensures narrow { IfOk result (λ f. IsWide f.rows → ⊥) }
    {
        let rows = self.tally.close(alloc)?;
        Ok(Profile::new(self.machine.position, self.machine.end.is_some(), rows))
    }
}
