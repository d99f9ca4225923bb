//! The machine of RV32IM: what each word and each call does to a state, and the runs of a program.
#![tactic(auto)]

ghost use Rattle.std.specs.Prelude.{◌≡◌, ℕ, ◌*◌, Bool, false};
ghost use Rattle.cells.specs.declared.Cell.{Cell};
ghost use Rattle.cells.specs.Cells.{Arch, value, is_pc};
ghost use Rattle.cells.specs.Machine.{IsLocal, SameSeen};
ghost use Rattle.cells.specs.Run.{State, is_over};
ghost use Rattle.cells.specs.Task.{recorded};
ghost use Rattle.rv_semantics.specs.Bounded.{IsAmong};
ghost use Rattle.rv_semantics.specs.Machine.{machine, machine_in, exec, exec_in, flow_of};
ghost use Rattle.rv_semantics.specs.Calls.{step, writes, flow_at, TaskStepsAreSteps, TaskStepsWrite};

mod branches;
mod calls;

pub use branches::holds;
pub use calls::{is_output, is_short_write};

/// Where a run goes on after an instruction, or why the instruction alone doesn't say.
#[derive(Clone, Copy, Debug, PartialEq, Eq)]
pub enum Flow {
    /// The pc of the next instruction.
    Next(u32),
    /// ECALL: a call, which the instruction itself doesn't perform.
    Call,
    /// EBREAK.
    Break,
    /// This word means no instruction.
    Illegal(u32),
    /// A jump or taken branch to this target, which is no multiple of 4.
    Misfetch(u32),
}

/// What a step does rests on the pc and on the cells that it reads: for the word that is fetched,
/// and for a word that is given, wherever a task may print. So does where the run goes on, and why
/// it stops: at a call, at EBREAK, at which word that means nothing, and at which target that is no
/// multiple of 4.
pub fn steps_are_local()
    ensures fetched { (prints : ℕ → Bool) → IsLocal (machine_in prints) }
    ensures given { (prints : ℕ → Bool) (word : ℕ) → IsLocal (exec_in prints word) }
    ensures fetched_flow { (c s : State) → SameSeen machine c.arch s.arch → flow_at s ≡ flow_at c }
    ensures given_flow { (word : ℕ) (c s : Arch) → SameSeen (exec word) c s
        → flow_of word s ≡ flow_of word c }
{}

/// Wherever a task may print, a step that it does is the run's step, and writes what that writes.
pub fn tasks_do_steps()
    ensures step { TaskStepsAreSteps }
    ensures writes { TaskStepsWrite }
{}

/// A step that prints nothing reads at most ten cells: four bytes that are fetched, and two
/// registers, or a register and four bytes. One that prints reads at most 264: four bytes that are
/// fetched, four registers and 256 bytes that are shown. So a task whose record is that of t steps
/// has recorded at most 10 t cells beside its pc where it may print nowhere, and else 264 t. The
/// greatest task limits are 16,384 steps and 4,096 steps: these are 163,840 and 1,081,344 cells.
pub fn records_are_bounded()
    ensures quiet { (c : Arch) (t : ℕ) → IsAmong (recorded machine c t) (10 * t) }
    ensures printing { (prints : ℕ → Bool) (c : Arch) (t : ℕ)
        → IsAmong (recorded (machine_in prints) c t) (264 * t) }
{}

/// What a step doesn't write stays, at calls too.
pub fn unwritten_stays()
    ensures { (s : State) (x : Cell) → is_over s ≡ false → is_pc x ≡ false → writes s x ≡ false
        → value (step s).arch x ≡ value s.arch x }
{}
