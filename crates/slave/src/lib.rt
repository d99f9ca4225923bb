//! Tasks: the program itself, run from a checkpoint on a view that records what it took from there.
//!
//! A task begins at an anchor of an image with the registers and memory that the master predicts.
//! It takes one step at each event, and is done where it comes to its last anchor, meets a call or
//! an end, or has taken as many steps as the image allows. Where the image lists the pc it does a
//! short write itself, and keeps what it prints. Where the committed state holds what the task
//! recorded, its writes, its pc and its output are those of the run itself.
#![tactic(auto)]

ghost use Rattle.slave.specs.Laws.{CommitsApply, RecordsAgree, TasksAreSmall};

mod did;
mod task;

pub use did::SlaveDid;
pub use speculation::Ending;
pub use task::Task;

/// What [`TaskView::apply`](layers::TaskView::apply) gives of a state and what
/// [`TaskView::compare`](layers::TaskView::compare) tells of it are what a commit does and asks for.
pub fn commits()
    ensures applied { CommitsApply }
    ensures recorded { RecordsAgree }
{}

/// A task of an image has recorded at most 163,841 cells with the pc, and in version 2 at most
/// 1,081,345. It has printed at most 1,048,576 bytes, and in version 1 none.
pub fn tasks_are_small()
    ensures { TasksAreSmall }
{}
