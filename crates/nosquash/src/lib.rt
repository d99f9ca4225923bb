//! The engine with the promise that nothing is squashed.
//!
//! An image that fits its program predicts the run as long as its assumptions are met. A [`Pair`] is
//! an [`Engine`] from its first event on, and its contract says so: while the run
//! meets the image's list one task limit further, no event squashes a task and no commit gives one up.
#![tactic(auto)]

ghost use Rattle.nosquash.specs.Laws.{RunsLoseNothing};

mod pair;

pub use engine::{Effect, Engine, Event};
pub use pair::Pair;

/// With an image that fits its program, and where the run meets the image's list to its end, nothing
/// is counted as squashed or given up, after any number of events of any schedule.
pub fn runs_lose_nothing()
    ensures { RunsLoseNothing }
{}
