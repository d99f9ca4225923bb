//! What is counted.
ghost use Rattle.std.specs.Prelude.{◌≡◌, ◌+◌};
ghost use Rattle.speculation.specs.Engine.{counted_by};
ghost use Rattle.engine.specs.Counted.{counted, AreCounts};

use speculation::{Counts, Effect, Event};

/// Counts one event more.
#[inline(always)]
pub(crate) fn count(c: &mut Counts, e: Event, effect: Effect)
    requires { AreCounts (counted e effect c.old) }
    ensures { c.new ≡ counted e effect c.old }
{
    c.events += 1;
    match effect {
        Effect::Committed { steps, dropped } => {
            c.tasks += 1;
            c.by_tasks += steps;
            c.dropped += dropped;
        }
        Effect::Squashed(_) => c.squashed += 1,
        Effect::Ended(_) => c.serial += 1,
        Effect::Stepped => {
            if let Event::Serial = e {
                c.serial += 1;
            }
        }
        _ => {}
    }
}
