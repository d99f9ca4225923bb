//! Runs that adapt: the image is made anew of the run so far, again and again.
//!
//! A machine is given rounds of events. Where a round begins with nothing speculated on, and enough
//! steps have been done since the last image was asked for, the image that is made of the steps so
//! far takes the place of the one before. That all laws of speculation stand over such a run,
//! whatever makes the images, are laws of the definitions.
#![tactic(auto)]

ghost use Rattle.adaptive_runs.specs.Laws.{AdaptedHolds, AdaptedIsSequential, AdaptedRises, AdaptedTells, AdaptedComes, AdaptedStops, AdaptedIsSafe};
ghost use Rattle.adaptive_runs.specs.Rows.{PlanIsMet, WaitsToBeDue, ComesWhileSerial, StaysWhereNoneIsMade};

/// After each event all that is kept stands. So the committed state is that of the sequential run
/// at the committed position, which never falls, and what each answer tells is so: a task is
/// squashed only where a recorded cell differs from the committed state.
pub fn adaptive_runs_hold()
    ensures kept { AdaptedHolds }
    ensures sequential { AdaptedIsSequential }
    ensures rises { AdaptedRises }
    ensures told { AdaptedTells }
{}

/// An adaptive run comes to each position or to the end of the run, within the bound of the longest
/// tasks of all its images. Where it first has, its state is that of the run: the one at the end, if
/// the run ends within so many steps, and else one past them by less than the longest task.
pub fn adaptive_runs_come()
    ensures comes { AdaptedComes }
    ensures stops { AdaptedStops }
{}

/// Where the image of the moment fits its program, no task is squashed or given up while the run
/// meets that image's list a task limit past the position or to its end, whatever the images before
/// it were.
pub fn none_squashed()
    ensures { AdaptedIsSafe }
{}

/// When images are exchanged in adaptive runs of a small program.
pub fn rows_are_worked()
    ensures plan { PlanIsMet }
    ensures due { WaitsToBeDue }
    ensures serial { ComesWhileSerial }
    ensures none { StaysWhereNoneIsMade }
{}
