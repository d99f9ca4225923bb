//! What an event of a task did, and how the task is done.
ghost use Rattle.std.specs.Prelude.{◌≡◌};
ghost use Rattle.slave.specs.Task as spec;

use rv_semantics::Flow;
use speculation::Ending;

/// What an event of a task did.
#[derive(Clone, Copy, Debug, PartialEq, Eq)]
pub enum SlaveDid {
    /// It took a step, and the task goes on.
    Stepped,
    /// The task is done, in this way. But for [`Ending::Met`] it took a step, too.
    Done(Ending),
}

#[inline(always)]
pub(crate) fn did_of(ending: Option<Ending>) -> SlaveDid
    ensures { result ≡ spec.did_of ending }
{
    match ending {
        Some(how) => SlaveDid::Done(how),
        None => SlaveDid::Stepped,
    }
}

// Where a step goes on, if it does.
#[inline(always)]
pub(crate) fn next_of(flow: Flow) -> Option<u32>
    ensures { result ≡ spec.next_of flow }
{
    match flow {
        Flow::Next(to) => Some(to),
        _ => None,
    }
}

// How a task is done after a step, by the anchors left and the steps taken.
#[inline(always)]
pub(crate) fn ending_after(left: u32, steps: u64, limit: u32) -> Option<Ending>
    ensures { result ≡ spec.ending_after left steps limit }
{
    if left == 0 {
        Some(Ending::Reached)
    } else if steps == u64::from(limit) {
        Some(Ending::Full)
    } else {
        None
    }
}
