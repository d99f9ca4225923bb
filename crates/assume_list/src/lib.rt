//! Whether a run meets what an image assumes of it.
//!
//! What an assumption says of a run is defined by the whole run, as `Fails`, `Meets` and `IsBroken` of `fitting`. Here it is
//! told in one pass over the positions, with a mark kept for each byte that a store claimed dead wrote last, and with a
//! list of the anchors from which a task is on its way. [`check_run`] answers the verdict.
#![tactic(auto)]

ghost use Rattle.assume_list.specs.Verdicts.{VerdictIsOne};

mod check;
mod instruction;
mod passing;
mod pcs;
mod read;
mod sight;
mod verdict;
mod waits;
mod watch;

pub use check::check_run;
pub use verdict::Verdict;

/// There is one verdict on a run.
pub fn verdict_is_one()
    ensures { VerdictIsOne }
{}
