//! Makes the image of the first so many steps of a run.

ghost use Rattle.std.specs.Prelude.{◌≡◌, ◌≤◌, ◌+◌, ◌^◌, true, OnOk, IfOk, IfErr, IfSome};
ghost use Rattle.profiler.specs.declared.error.ProfilingErr.TheVariants.{Wide};
ghost use Rattle.adapt.specs.Laws.{IsMade};
ghost use Rattle.adapt.specs.Behind.{IsBehind, IsRunningAt, IsWideAt, image_at};

use dist_image::Image;
use distiller::{DistillErr, Options, distill};
use profiler::{ProfilingErr, Recorder};
use std::alloc::{AllocError, Global};

/// What the distiller is asked for.
const OPTIONS: Options = Options {
    rare: 10,
    hot: 2,
    goal: 200,
    limit: 4_096,
};

/// Records the steps up to a position, at which the run must not have ended. Where memory is wanting
/// the recorder stands where it came to.
fn record_to(alloc: Global, recorder: &mut Recorder, position: u64) -> Result<(), ProfilingErr>
    requires position { position ≤ 10 ^ 12 + 16_383 }
    requires below { recorder.old.position ≤ position }
    requires running { IsRunningAt recorder.old position }
    ensures same { recorder.new ≡ record recorder.old { position = recorder.new.position } }
    ensures within { recorder.new.position ≤ position }
    ensures there { OnOk result (recorder.new.position ≡ position) }
    ensures wide { IfErr result (λ e. e ≡ Wide → IsWideAt recorder.old position) }
{
    while recorder.steps() < position {
        recorder.one(alloc)?;
    }
    Ok(())
}

/// The image by the steps that were recorded, or None where nothing in their profile is analysed.
fn image_of(alloc: Global, recorder: &Recorder) -> Result<Option<Image>, AllocError>
    requires position { recorder.now.position ≤ 10 ^ 12 + 16_383 }
    requires calls { recorder.now.calls ≡ true }
    ensures image { IfOk result (λ image. image ≡ image_at recorder.now recorder.now.position) }
    ensures made { IfOk result (λ image. IfSome image (IsMade recorder.now.program)) }
{
    let profile = recorder.profile(alloc)?;
    match distill(alloc, recorder.program(), &profile, &OPTIONS) {
        Ok(image) => Ok(Some(image)),
        Err(DistillErr::Empty) => Ok(None),
        Err(DistillErr::Memory) => Err(AllocError),
    }
}

/// The image of the steps up to a position, at which the run must not have ended: None where their
/// profile is too wide, or nothing in it is analysed. `wide` is set once the recorder finds the
/// profile too wide, and no step is recorded from there on.
pub(crate) fn make(
    alloc: Global,
    recorder: &mut Recorder,
    wide: &mut bool,
    position: u64,
) -> Result<Option<Image>, AllocError>
    requires position { position ≤ 10 ^ 12 + 16_383 }
    requires behind { IsBehind recorder.old position wide.old }
    requires running { IsRunningAt recorder.old position }
    ensures same { recorder.new ≡ record recorder.old { position = recorder.new.position } }
    ensures behind { IsBehind recorder.new position wide.new }
    ensures image { IfOk result (λ image. image ≡ image_at recorder.old position) }
    ensures made { IfOk result (λ image. IfSome image (IsMade recorder.old.program)) }
{
    if *wide {
        return Ok(None);
    }
    match record_to(alloc, recorder, position) {
        Ok(()) => image_of(alloc, recorder),
        Err(ProfilingErr::Wide) => {
            *wide = true;
            Ok(None)
        }
        Err(ProfilingErr::Memory) => Err(AllocError),
    }
}
