//! The pair of an engine and what its tasks and master are known to track.
ghost use Rattle.engine.specs.Whole.{start_of, image_of, slaves_of, model_of};
ghost use Rattle.nosquash.specs.Pairs.{Tracks};

use dist_image::Image;
use elf_reader::Program;
use engine::{Effect, Engine, Event};
use memory::Memory;
use std::alloc::{AllocError, Global};

/// An engine whose tasks and master track the sequential run wherever its image fits the program and
/// the run meets the image's list.
#[derive(Drop)]
pub struct Pair<M: Memory> {
    engine: Engine<M>,
    ghost tracks: { ∥ Tracks M.at engine ∥₁ },
}

impl<M: Memory> Pair<M> {
    ghost use Rattle.std.specs.Prelude.{◌≡◌, ℕ, ◌+◌, ◌-◌, ◌^◌, ◌<◌, ◌≤◌, false, IfOk, OnErr};
    ghost use Rattle.cells.specs.Run.{is_over};
    ghost use Rattle.speculation.specs.Engine.{fresh};
    ghost use Rattle.squash_laws.specs.Tracks.{IsSafe};
    ghost use Rattle.elf_reader.specs.Executable.{IsProgram};
    ghost use Rattle.fitting.specs.Fits.{Fits};
    ghost use Rattle.fitting.specs.Fails.{program as words_of, Meets, Reaches};
    ghost use Rattle.assume_list.specs.declared.verdict.Verdict.{Verdict};
    ghost use Rattle.assume_list.specs.Verdicts.{IsVerdict};
    ghost use Rattle.nosquash.specs.Laws.{BreaksBefore};
    ghost use Rattle.nosquash.specs.Pairs.{RunsProgram, HoldsWords};
    ghost use Rattle.dist_image.specs.Image.{IsImage};
    ghost use Rattle.engine.specs.Shown.{IsSerial};
    ghost use Rattle.engine.specs.Whole.{world_of};
    ghost use Rattle.engine.specs.Whole.{IsEvent, MayTakeOn, IsSequential, AreStepsCounted, IsTold, IsRightlyIdle, OwesStep};

    /// A pair of an engine that has had no event, and whose run is that of the program with the
    /// input that the engine's machine holds. Takes no memory.
    ///
    /// The pair doesn't keep the program: its word at a pc is the one that memory holds at the
    /// start.
    pub fn new(engine: Engine<M>, program: &Program) -> Pair<M>
        requires program { IsProgram program.now }
        requires fresh { model_of M.at engine ≡ fresh (world_of M.at engine) }
        requires start { RunsProgram M.at engine program.now }
        ensures engine { result.engine ≡ engine }
        ensures words { HoldsWords M.at result.engine program.now }
    {
        let _ = program;
        Pair { engine }
    }

    /// One event of the engine, and what it did. The number of events must be below 2⁶⁴ - 1.
    ///
    /// Let the image fit the program, and let the first n steps of the run meet its list. Where the
    /// task limit past the committed position is at most n, and also where the run ends within n
    /// steps, the event squashes no task and gives none up with a committed one. Where it does, and the
    /// image fits, `check_run` tells an assumption that is broken less than a task limit past the
    /// committed position.
    ///
    /// # Errors
    ///
    /// Want of memory alone. Nothing has changed then.
    #[inline(always)]
    pub fn event(&mut self, alloc: Global, e: Event) -> Result<Effect, AllocError>
        requires { (model_of M.at self.old.engine).counts.events < 2 ^ 64 - 1 }
        // It is the engine's event.
        ensures ok { IfOk result (λ effect. IsEvent M.at e self.old.engine effect self.new.engine) }
        ensures err { OnErr result (model_of M.at self.new.engine ≡ model_of M.at self.old.engine) }
        ensures sure { OnErr result (MayTakeOn M.at e self.old.engine) }
        ensures start { start_of M.at self.new.engine ≡ start_of M.at self.old.engine }
        ensures image { image_of self.new.engine ≡ image_of self.old.engine }
        ensures slaves { slaves_of self.new.engine ≡ slaves_of self.old.engine }
        // What is committed is the sequential run, and never falls back; and what is told is so.
        ensures sequential { IsSequential M.at self.new.engine }
        ensures position { AreStepsCounted (model_of M.at self.new.engine) }
        ensures rises { (model_of M.at self.old.engine).position ≤ (model_of M.at self.new.engine).position }
        ensures told { IfOk result (λ effect. IsTold M.at e self.old.engine effect self.new.engine) }
        ensures idle { IfOk result (λ effect. IsRightlyIdle M.at e self.old.engine effect) }
        // A squash costs a step but for the last one, no position is gained without an event, and where speculation is given up a step is owed.
        ensures squashed { let c = (model_of M.at self.new.engine).counts in c.squashed ≤ c.serial + 1 }
        ensures serial { let m = model_of M.at self.new.engine in m.counts.serial ≤ m.position }
        ensures events { let m = model_of M.at self.new.engine in m.position ≤ m.counts.events }
        ensures owed { OwesStep (model_of M.at self.old.engine) (model_of M.at self.new.engine) }
        // With an image that fits and a list that is met, nothing is squashed or given up.
        ensures safe { let start = start_of M.at self.old.engine in let image = image_of self.old.engine in
            IfOk result (λ effect. Fits (words_of start) image → (n : ℕ) → Meets start image n
            → Reaches start image n (model_of M.at self.old.engine).position → IsSafe effect) }
        // So where something is, the list is broken before a task limit is past.
        ensures broken { let start = start_of M.at self.old.engine in let image = image_of self.old.engine in
            IfOk result (λ effect. (IsSafe effect → ⊥) → Fits (words_of start) image → (n : ℕ) → Meets start image n
            → n < (model_of M.at self.old.engine).position + image.limit) }
        // And a check of the run, a task limit past the committed position at least, tells where.
        ensures checked { let start = start_of M.at self.old.engine in let image = image_of self.old.engine in
            let far = (model_of M.at self.old.engine).position + image.limit in
            IfOk result (λ effect. (IsSafe effect → ⊥) → Fits (words_of start) image → (budget : ℕ) (v : Verdict) → far ≤ budget
            → IsVerdict start image budget v → BreaksBefore v far) }
    {
        self.engine.event(alloc, e)
    }

    /// Exchanges the engine's image. The run must not have ended, and nothing may be speculated on.
    /// Takes no memory.
    ///
    /// From here on the promise of [`Pair::event`] speaks of this image.
    pub fn set_image(&mut self, image: Image)
        requires image { IsImage image }
        requires serial { IsSerial (model_of M.at self.old.engine).mode }
        requires running { is_over (model_of M.at self.old.engine).committed ≡ false }
        ensures image { image_of self.new.engine ≡ image }
        ensures model { model_of M.at self.new.engine ≡ model_of M.at self.old.engine }
        ensures start { start_of M.at self.new.engine ≡ start_of M.at self.old.engine }
        ensures slaves { slaves_of self.new.engine ≡ slaves_of self.old.engine }
    {
        self.engine.set_image(image);
    }

    /// The engine.
    pub fn engine(&self) -> &Engine<M>
        ensures { result.now ≡ self.now.engine }
    {
        &self.engine
    }
}
