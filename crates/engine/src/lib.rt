//! The engine: the committed machine, the master and the tasks, and their events, each one atomic
//! step of one of them.
//!
//! Whatever the image says, the committed state is that of the sequential run at the committed
//! position: a task is committed where the committed state holds all that the task took from its
//! checkpoint, and is given up otherwise.
#![tactic(auto)]

mod ahead;
mod counting;
mod engine;
mod queue;
mod stage;

pub use cells::{Cell, Differ, End};
pub use engine::Engine;
pub use speculation::{Counts, Effect, Ending, Event, Mode, Why};
