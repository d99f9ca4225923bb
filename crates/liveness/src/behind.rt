//! What is joined behind the instructions.

ghost use Rattle.std.specs.Prelude.{◌≡◌, ◌<◌, length, IfOk};
ghost use Rattle.liveness.specs.Waiting.{ArePlaces};
ghost use Rattle.liveness.specs.Behind.{with_mask_at, IsJoined, IsSpread};

use flow_graph::Mask;
use std::alloc::AllocError;

/// The registers that are live and those that are needed at one of the instructions to which one
/// leads.
#[derive(Clone, Copy, Debug, PartialEq, Eq)]
pub(crate) struct Behind {
    pub live: u32,
    pub need: u32,
}

/// Joins a mask to what is behind these places. Those wait behind which there is more than before.
pub(crate) fn spread(
    behind: &mut [Behind],
    mask: Mask,
    places: &[usize],
    next: &mut Vec<usize>,
) -> Result<(), AllocError>
    requires { ArePlaces (length behind.old) places.now }
    ensures { IfOk result (λ _.
        IsSpread mask places.now behind.old behind.new next.old.items next.new.items) }
{
    for i in places {
        join(behind, mask, *i, next)?;
    }
    Ok(())
}

/// Joins a mask to what is behind a place, which waits if there is more than before.
fn join(
    behind: &mut [Behind],
    mask: Mask,
    i: usize,
    next: &mut Vec<usize>,
) -> Result<(), AllocError>
    requires { i < length behind.old }
    ensures behind { IfOk result (λ _. behind.new ≡ with_mask_at behind.old i mask) }
    ensures next { IfOk result (λ _. IsJoined i behind.old behind.new next.old.items next.new.items) }
{
    let old = behind[i];
    let new = Behind {
        live: old.live | mask.live,
        need: old.need | mask.need,
    };
    if new != old {
        behind[i] = new;
        next.push(i)?;
    }
    Ok(())
}
