//! Tests that tell whether an assumption of an image fails at a position of a run.
//!
//! What an assumption says is defined by whole runs: by the latest position at which a byte was
//! written, and by the positions after one at which tasks may begin. The tests look at one position,
//! with a mark kept for each byte, and go step by step. The definitions are `Fails`, `Meets` and
//! `IsBroken` of `fitting`.
#![tactic(auto)]

ghost use Rattle.assumption_laws.specs.Laws.{LooksTell, StepsTell, SpanIsTold, WaitsTell, VerdictIsTold};
ghost use Rattle.assumption_laws.specs.Rows.{LookRows, LateRows};
ghost use Rattle.cells.specs.Run.{State};
ghost use Rattle.dist_image.specs.Image.{Distilled, IsImage};

/// An anchor from which a task is on its way.
#[derive(Clone, Copy, Debug, Drop, PartialEq, Eq)]
pub struct Waiting {
    /// The position of the run at which the anchor stands.
    pub since: u64,
    /// How many arrivals at anchors are to come until the task is done.
    pub left: u32,
}

/// An assumption other than `Span` fails at a position exactly where its test there says so.
pub fn looks_tell()
    ensures { LooksTell }
{}

/// A task comes to its end from a position within the task limit exactly where it does so step by step.
pub fn steps_tell()
    ensures steps { StepsTell }
    ensures span { SpanIsTold }
{}

/// The first position at which `Span` fails is told by a list of the anchors that wait.
pub fn waits_tell()
    ensures { (start : State) (image : Distilled) → IsImage image → WaitsTell start image }
{}

/// A run meets an image's list, or the first position and the first assumption that fail, as the tests
/// tell.
pub fn verdict_is_told()
    ensures { (start : State) (image : Distilled) → IsImage image → VerdictIsTold start image }
{}

/// What the tests tell at positions of small programs.
pub fn rows_are_worked()
    ensures looks { LookRows }
    ensures late { LateRows }
{}
