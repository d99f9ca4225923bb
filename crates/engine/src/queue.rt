//! The machine's own step, and the tasks' steps and commits.
ghost use Rattle.std.specs.Prelude.{◌≡◌, ◌≢◌, ℕ, ◌+◌, ◌-◌, ◌^◌, ◌<◌, ◌≤◌, false, Option, length, IfOk, OnOk, OnErr, IsNone, Some, slice_index_or};
ghost use Rattle.cells.specs.declared.Cell.TheVariants.{Reg};
ghost use Rattle.cells.specs.Cells.{value, from_cells};
ghost use Rattle.cells.specs.Run.{printed};
ghost use Rattle.speculation.specs.Engine.{told_end, told_task, dropped_by};
ghost use Rattle.layers.specs.Layered.{laid};
ghost use Rattle.seq_machine.specs.States.{state_of, did_of as step_told};
ghost use Rattle.slave.specs.Task.{shown as task_shown, did_of as task_told};
ghost use Rattle.engine.specs.Shown.{place_of};

use crate::stage::Stage;
use cells::End;
use memory::Memory;
use seq_machine::{Did, Machine};
use slave::{SlaveDid, Task};
use speculation::{Effect, Ending, Mode};
use std::alloc::{AllocError, Global};

// The effect of a step of the machine.
fn of_step(did: Did) -> Effect
    ensures { (end : Option End) → did ≡ step_told end → result ≡ told_end end }
{
    match did {
        Did::Stepped => Effect::Stepped,
        Did::Ended(end) => Effect::Ended(end),
    }
}

// The effect of a task's event.
fn of_task(did: SlaveDid) -> Effect
    ensures { (ending : Option Ending) → did ≡ task_told ending → result ≡ told_task ending }
{
    match did {
        SlaveDid::Stepped => Effect::Stepped,
        SlaveDid::Done(ending) => Effect::Done(ending),
    }
}

// How far behind the oldest task, by its number, the task of this one of so many slaves stands.
#[inline(always)]
fn place_of(slaves: u8, oldest: u64, slave: u8) -> u64
    requires { slave < slaves }
    ensures { result ≡ place_of slaves oldest slave }
{
    let slaves = u64::from(slaves);
    let slave = u64::from(slave);
    let first = oldest % slaves;
    if first <= slave {
        slave - first
    } else {
        slave + slaves - first
    }
}

// Gives the machine a task's pc and what it wrote, appends its output, and moves the position on by the task's steps.
fn lay<M: Memory>(alloc: Global, task: &Task<M>, machine: &mut Machine<M>) -> Result<(), AllocError>
    requires zero { (task_shown M.at task.now).seen.wrote (Reg 0) ≡ false }
    requires room { machine.old.position + task.now.steps < 2 ^ 64 }
    ensures ok { OnOk result (state_of M.at machine.new
        ≡ record {
          arch = from_cells (laid task.now.pc (task_shown M.at task.now).seen (value (state_of M.at machine.old).arch));
          env = printed (state_of M.at machine.old).env (task_shown M.at task.now).output;
        }) }
    ensures position { OnOk result (machine.new.position ≡ machine.old.position + task.now.steps) }
    ensures err { OnErr result (state_of M.at machine.new ≡ state_of M.at machine.old) }
    ensures stays { OnErr result (machine.new.position ≡ machine.old.position) }
{
    task.view()
        .apply(alloc, task.pc(), &mut machine.arch, &mut machine.out)?;
    machine.position += task.steps();
    Ok(())
}

impl<M: Memory> Stage<M> {
    ghost use Rattle.speculation.specs.declared.Event.TheVariants as event;
    ghost use Rattle.speculation.specs.Kept.{AreNumbered};
    ghost use Rattle.dist_image.specs.Image.{IsImage};
    ghost use Rattle.engine.specs.Shown.{shown, tasks_modelled, AreTasksOf, DoesOn, IsCostlyOn, HasRoomForSteps, runner_on, retired, dropped_of};

    /// A step of the machine, unless tasks or the master run ahead.
    #[inline(never)]
    pub(crate) fn step(&mut self, alloc: Global) -> Result<Effect, AllocError>
        requires running { IsNone self.old.machine.end }
        requires room { self.old.machine.position < 2 ^ 64 - 1 }
        ensures ok { IfOk result (λ effect. DoesOn M.at event.Serial self.old effect self.new) }
        ensures tasks { (shown M.at self.new).tasks ≡ (shown M.at self.old).tasks }
        ensures err { OnErr result (shown M.at self.new ≡ shown M.at self.old) }
        ensures sure { OnErr result (IsCostlyOn M.at event.Serial self.old) }
        ensures image { self.new.image ≡ self.old.image }
        ensures slaves { self.new.slaves ≡ self.old.slaves }
    {
        match self.mode {
            Mode::Speculating => Ok(Effect::Idle),
            Mode::Serial { .. } => {
                let did = self.machine.one(alloc)?;
                self.mode = Mode::Serial { debt: false };
                Ok(of_step(did))
            }
        }
    }

    /// The place of the task that runs on this slave. Numbers of tasks follow one another, so no
    /// other task is looked at.
    #[inline(always)]
    pub(crate) fn runner(&self, slave: u8) -> Option<usize>
        requires few { length self.now.tasks.items ≤ self.now.slaves }
        requires numbers { AreNumbered self.now.next (tasks_modelled (shown M.at self.now).tasks) }
        ensures { result ≡ runner_on M.at self.now slave }
    {
        if self.slaves <= slave {
            return None;
        }
        let live = self.tasks.len();
        let oldest = self.next - live as u64;
        let place = place_of(self.slaves, oldest, slave) as usize;
        if live <= place {
            return None;
        }
        match self.tasks[place].ending() {
            None => Some(place),
            Some(_) => None,
        }
    }

    /// An event of the task that runs on this slave, if there is one.
    #[inline(always)]
    pub(crate) fn run(&mut self, alloc: Global, slave: u8) -> Result<Effect, AllocError>
        requires image { IsImage self.old.image }
        requires few { length self.old.tasks.items ≤ self.old.slaves }
        requires numbers { AreNumbered self.old.next (tasks_modelled (shown M.at self.old).tasks) }
        requires tasks { ∥ AreTasksOf self.old.image (shown M.at self.old).tasks ∥₁ }
        ensures ok { IfOk result (λ effect. DoesOn M.at (event.Slave slave) self.old effect self.new) }
        ensures tasks { OnOk result (∥ AreTasksOf self.old.image (shown M.at self.new).tasks ∥₁) }
        ensures err { OnErr result (shown M.at self.new ≡ shown M.at self.old) }
        ensures sure { OnErr result (IsCostlyOn M.at (event.Slave slave) self.old) }
        ensures image { self.new.image ≡ self.old.image }
        ensures slaves { self.new.slaves ≡ self.old.slaves }
    {
        match self.runner(slave) {
            None => Ok(Effect::Idle),
            Some(place) => {
                let did = self.tasks[place].advance(alloc, &self.image)?;
                Ok(of_task(did))
            }
        }
    }

    /// The oldest task is committed if it is done and the machine holds what it took from its
    /// checkpoint. Where it is done and a cell differs, everything is given up.
    #[inline(never)]
    pub(crate) fn commit(&mut self, alloc: Global) -> Result<Effect, AllocError>
        requires image { IsImage self.old.image }
        requires tasks { ∥ AreTasksOf self.old.image (shown M.at self.old).tasks ∥₁ }
        requires position { HasRoomForSteps M.at self.old }
        ensures ok { IfOk result (λ effect. DoesOn M.at event.Commit self.old effect self.new) }
        ensures tasks { OnOk result (∥ AreTasksOf self.old.image (shown M.at self.new).tasks ∥₁) }
        ensures err { OnErr result (shown M.at self.new ≡ shown M.at self.old) }
        ensures sure { OnErr result (IsCostlyOn M.at event.Commit self.old) }
        ensures image { self.new.image ≡ self.old.image }
        ensures slaves { self.new.slaves ≡ self.old.slaves }
    {
        let Some(front) = self.tasks.front() else {
            return Ok(Effect::Idle);
        };
        let Some(ending) = front.ending() else {
            return Ok(Effect::Idle);
        };
        if let Some(differ) = front.view().compare(&self.machine.arch) {
            self.give_up();
            return Ok(Effect::Squashed(differ));
        }
        let steps = front.steps();
        lay(alloc, front, &mut self.machine)?;
        let dropped = self.retire(ending);
        Ok(Effect::Committed { steps, dropped })
    }

    // The oldest task leaves, and the others go on or are given up, by how it was done. Answers how many were given up.
    fn retire(&mut self, ending: Ending) -> u64
        requires { 0 < length self.old.tasks.items }
        ensures dropped { result ≡ dropped_of ending (shown M.at self.old).tasks }
        ensures shown { shown M.at self.new ≡ retired ending (shown M.at self.old) }
        ensures image { self.new.image ≡ self.old.image }
        ensures slaves { self.new.slaves ≡ self.old.slaves }
    {
        match ending {
            Ending::Reached => {
                self.tasks.pop_front();
                self.settle();
                0
            }
            Ending::Met | Ending::Full => {
                let dropped = self.tasks.len() - 1;
                self.give_up();
                dropped as u64
            }
        }
    }
}
