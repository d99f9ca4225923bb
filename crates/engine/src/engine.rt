//! The engine, and its events.
ghost use Rattle.std.specs.Prelude.{◌≡◌, ◌≤◌, IfOk};
ghost use Rattle.dist_image.specs.Image.{IsImage};
ghost use Rattle.seq_machine.specs.States.{state_of};
ghost use Rattle.engine.specs.Shown.{shown, AreTasksOf, Keeps};
ghost use Rattle.engine.specs.Images.{IsImage-prop};

use crate::counting::count;
use crate::stage::Stage;
use dist_image::Image;
use memory::Memory;
use rv_step::Arch;
use seq_machine::Machine;
use speculation::{Counts, Effect, Event, Mode};
use std::alloc::{AllocError, Global};
use std::collections::VecDeque;

/// A speculative machine: the committed machine, an image, and up to 64 slaves.
///
/// What it does is the model of `speculation` in the world of `image_semantics`. It keeps the state
/// where its machine began, so that contracts see where the run began.
#[derive(Drop)]
pub struct Engine<M: Memory> {
    stage: Stage<M>,
    start: Machine<M>,
    counts: Counts,
    pub ghost image: { IsImage stage.image } by { IsImage-prop stage.image },
    pub ghost some: { 1 ≤ stage.slaves },
    pub ghost few: { stage.slaves ≤ 64 },
    pub ghost tasks: { ∥ AreTasksOf stage.image (shown M.at stage).tasks ∥₁ },
    pub ghost holds: { ∥ Keeps M.at start stage counts ∥₁ },
}

// A machine in the same state, which stands apart.
fn copy_of<M: Memory>(alloc: Global, machine: &Machine<M>) -> Result<Machine<M>, AllocError>
    ensures state { IfOk result (λ copy. state_of M.at copy ≡ state_of M.at machine.now) }
    ensures position { IfOk result (λ copy. copy.position ≡ machine.now.position) }
{
    Ok(Machine {
        arch: Arch {
            pc: machine.arch.pc,
            regs: machine.arch.regs,
            mem: machine.arch.mem.snapshot(alloc)?,
        },
        input: machine.input.clone()?,
        taken: machine.taken,
        out: machine.out.clone()?,
        first_break: machine.first_break,
        brk: machine.brk,
        end: machine.end,
        position: machine.position,
    })
}

impl<M: Memory> Engine<M> {
    ghost use Rattle.std.specs.Prelude.{◌+◌, ◌-◌, ◌^◌, ◌<◌, false, length, OnErr, IsNone};
    ghost use Rattle.cells.specs.Run.{is_over};
    ghost use Rattle.speculation.specs.World.{seq};
    ghost use Rattle.speculation.specs.Engine.{fresh};
    ghost use Rattle.engine.specs.Shown.{IsSerial};
    ghost use Rattle.engine.specs.Whole.{start_of, image_of, slaves_of, world_of, model_of};
    ghost use Rattle.engine.specs.Whole.{IsEvent, MayTakeOn, IsSequential, AreStepsCounted, IsTold, IsRightlyIdle, OwesStep};

    /// An engine that has had no event, over a machine at the start of a run. It runs in the world
    /// of this image, with 1 to 64 slaves.
    ///
    /// # Errors
    ///
    /// Want of memory alone.
    pub fn new(
        alloc: Global,
        machine: Machine<M>,
        image: Image,
        slaves: u8,
    ) -> Result<Engine<M>, AllocError>
        requires image { IsImage image }
        requires some { 1 ≤ slaves }
        requires few { slaves ≤ 64 }
        requires position { machine.position ≡ 0 }
        requires running { IsNone machine.end }
        ensures model { IfOk result (λ e. model_of M.at e ≡ fresh (world_of M.at e)) }
        ensures start { IfOk result (λ e. start_of M.at e ≡ state_of M.at machine) }
        ensures image { IfOk result (λ e. image_of e ≡ image) }
        ensures slaves { IfOk result (λ e. slaves_of e ≡ slaves) }
    {
        let start = copy_of(alloc, &machine)?;
        Ok(Engine {
            stage: Stage {
                machine,
                image,
                slaves,
                mode: Mode::Serial { debt: false },
                master: None,
                tasks: VecDeque::new(alloc),
                next: 0,
            },
            start,
            counts: Counts {
                events: 0,
                tasks: 0,
                by_tasks: 0,
                serial: 0,
                squashed: 0,
                dropped: 0,
            },
        })
    }

    /// One event, and what it did. The number of events must be below 2⁶⁴ - 1.
    ///
    /// # Errors
    ///
    /// Want of memory alone. Nothing has changed then, and nothing was counted. An event that is
    /// idle, stalls or squashes takes no memory.
    #[inline(always)]
    pub fn event(&mut self, alloc: Global, e: Event) -> Result<Effect, AllocError>
        requires { (model_of M.at self.old).counts.events < 2 ^ 64 - 1 }
        // The effect and the model are those of the definition.
        ensures ok { IfOk result (λ effect. IsEvent M.at e self.old effect self.new) }
        ensures err { OnErr result (model_of M.at self.new ≡ model_of M.at self.old) }
        ensures sure { OnErr result (MayTakeOn M.at e self.old) }
        // The world stays.
        ensures start { start_of M.at self.new ≡ start_of M.at self.old }
        ensures image { image_of self.new ≡ image_of self.old }
        ensures slaves { slaves_of self.new ≡ slaves_of self.old }
        // What is committed is the sequential run, and never falls back.
        ensures sequential { IsSequential M.at self.new }
        ensures position { AreStepsCounted (model_of M.at self.new) }
        ensures rises { (model_of M.at self.old).position ≤ (model_of M.at self.new).position }
        // What is told is so; and an event is idle exactly where the machine has ended or it finds nothing to do.
        ensures told { IfOk result (λ effect. IsTold M.at e self.old effect self.new) }
        ensures idle { IfOk result (λ effect. IsRightlyIdle M.at e self.old effect) }
        // A squash costs a step but for the last one, and no position is gained without an event.
        ensures squashed { let c = (model_of M.at self.new).counts in c.squashed ≤ c.serial + 1 }
        ensures serial { (model_of M.at self.new).counts.serial ≤ (model_of M.at self.new).position }
        ensures events { (model_of M.at self.new).position ≤ (model_of M.at self.new).counts.events }
        // Where speculation is given up a step is owed.
        ensures owed { OwesStep (model_of M.at self.old) (model_of M.at self.new) }
    {
        if self.stage.rests(e) {
            self.counts.events += 1;
            return Ok(Effect::Idle);
        }
        let effect = self.stage.happen(alloc, e)?;
        count(&mut self.counts, e, effect);
        Ok(effect)
    }

    /// Exchanges the image. The run must not have ended, and nothing may be speculated on. Takes no
    /// memory.
    ///
    /// All else stays, the step that is owed too. What is committed is the sequential run, which
    /// knows no image.
    pub fn set_image(&mut self, image: Image)
        requires image { IsImage image }
        requires serial { IsSerial (model_of M.at self.old).mode }
        requires running { is_over (model_of M.at self.old).committed ≡ false }
        ensures image { image_of self.new ≡ image }
        ensures model { model_of M.at self.new ≡ model_of M.at self.old }
        ensures start { start_of M.at self.new ≡ start_of M.at self.old }
        ensures slaves { slaves_of self.new ≡ slaves_of self.old }
        ensures sequential { IsSequential M.at self.new }
    {
        self.stage.image = image;
    }

    /// The machine at the committed position. Its state is that of the sequential run there.
    pub fn committed(&self) -> &Machine<M>
        ensures state { state_of M.at result.now ≡ (model_of M.at self.now).committed }
        ensures position { result.now.position ≡ (model_of M.at self.now).position }
        ensures sequential { state_of M.at result.now ≡ seq (world_of M.at self.now) result.now.position }
    {
        &self.stage.machine
    }

    /// What was counted since the engine was made.
    pub fn counts(&self) -> Counts
        ensures { result ≡ (model_of M.at self.now).counts }
    {
        self.counts
    }

    /// What the engine is at.
    pub fn mode(&self) -> Mode
        ensures { result ≡ (model_of M.at self.now).mode }
    {
        self.stage.mode
    }

    /// How many tasks live.
    pub fn live(&self) -> u64
        ensures live { result ≡ length (model_of M.at self.now).tasks }
        ensures few { result ≤ slaves_of self.now }
    {
        self.stage.tasks.len() as u64
    }

    /// The image.
    pub fn image(&self) -> &Image
        ensures { result.now ≡ image_of self.now }
    {
        &self.stage.image
    }
}
