//! The image of a pair, made anew where one is due.
ghost use Rattle.std.specs.Prelude.{◌≡◌, ◌≤◌, ℕ, ◌+◌, ◌%◌, ◌^◌, ◌==◌, ◌&&◌, not, false, unwrap_or, IfSome, OnOk};
ghost use Rattle.cells.specs.Run.{is_over};
ghost use Rattle.speculation_laws.specs.Told.{is_speculating};
ghost use Rattle.dist_image.specs.Image.{IsImage};
ghost use Rattle.engine.specs.Shown.{IsSerial};
ghost use Rattle.engine.specs.Whole.{start_of, image_of, slaves_of, model_of};
ghost use Rattle.adaptive_runs.specs.Adaptive.{renewed, ready};
ghost use Rattle.adaptive_driver.specs.Adapted.{plan_with, stage_of, may_exchange_at, AreOfOneRun, AreAlike};

use adapt::Adapter;
use dist_image::Image;
use engine::Mode;
use memory::Memory;
use nosquash::Pair;
use std::alloc::{AllocError, Global};

// Puts an image in the place of the pair's, if there is one.
fn exchange<M: Memory>(pair: &mut Pair<M>, image: Option<Image>)
    requires image { IfSome image IsImage }
    requires serial { IsSerial (model_of M.at pair.old.engine).mode }
    requires running { is_over (model_of M.at pair.old.engine).committed ≡ false }
    ensures image { image_of pair.new.engine ≡ unwrap_or image (image_of pair.old.engine) }
    ensures model { model_of M.at pair.new.engine ≡ model_of M.at pair.old.engine }
    ensures start { start_of M.at pair.new.engine ≡ start_of M.at pair.old.engine }
    ensures slaves { slaves_of pair.new.engine ≡ slaves_of pair.old.engine }
{
    match image {
        Some(image) => pair.set_image(image),
        None => {}
    }
}

// Asks for an image at the committed position, and puts it in the place of the pair's.
fn renew<M: Memory>(
    alloc: Global,
    pair: &mut Pair<M>,
    adapter: &mut Adapter,
) -> Result<(), AllocError>
    requires run { AreOfOneRun M.at pair.old.engine adapter.old }
    requires near { (model_of M.at pair.old.engine).position ≤ 10 ^ 12 }
    requires serial { IsSerial (model_of M.at pair.old.engine).mode }
    requires running { is_over (model_of M.at pair.old.engine).committed ≡ false }
    ensures stage { OnOk result (stage_of M.at pair.new.engine adapter.new
        ≡ renewed (plan_with M.at pair.old.engine adapter.old) (stage_of M.at pair.old.engine adapter.old)) }
    ensures run { OnOk result (AreOfOneRun M.at pair.new.engine adapter.new) }
    ensures alike { OnOk result (AreAlike adapter.new adapter.old) }
    ensures slaves { OnOk result (slaves_of pair.new.engine ≡ slaves_of pair.old.engine) }
{
    let position = pair.engine().committed().position;
    let image = adapter.next(alloc, position)?;
    exchange(pair, image);
    Ok(())
}

// Whether nothing is speculated on.
fn is_serial(mode: Mode) -> bool
    ensures { result ≡ not (is_speculating mode) }
{
    match mode {
        Mode::Serial { .. } => true,
        Mode::Speculating => false,
    }
}

// Whether this is the first place of a round, with nothing speculated on and the run going on.
#[inline(always)]
fn may_exchange<M: Memory>(pair: &Pair<M>, place: u8) -> bool
    ensures { result ≡ may_exchange_at place (model_of M.at pair.now.engine) }
{
    place == 0 && is_serial(pair.engine().mode()) && pair.engine().committed().end.is_none()
}

/// Makes the pair ready for the event at a place of a round: where a round begins with nothing
/// speculated on and an image is due, the image that is made of the steps so far takes the place of
/// the pair's, if there is one.
///
/// # Errors
///
/// Want of memory alone.
#[inline(always)]
pub fn make_ready<M: Memory>(
    alloc: Global,
    pair: &mut Pair<M>,
    adapter: &mut Adapter,
    place: u8,
) -> Result<(), AllocError>
    requires run { AreOfOneRun M.at pair.old.engine adapter.old }
    requires near { (model_of M.at pair.old.engine).position ≤ 10 ^ 12 }
    ensures stage { OnOk result ((k : ℕ) → k % (slaves_of pair.old.engine + 7) ≡ place
        → stage_of M.at pair.new.engine adapter.new
        ≡ ready (plan_with M.at pair.old.engine adapter.old) k (stage_of M.at pair.old.engine adapter.old)) }
    ensures run { OnOk result (AreOfOneRun M.at pair.new.engine adapter.new) }
    ensures alike { OnOk result (AreAlike adapter.new adapter.old) }
    ensures slaves { OnOk result (slaves_of pair.new.engine ≡ slaves_of pair.old.engine) }
{
    if may_exchange(pair, place) {
        renew(alloc, pair, adapter)
    } else {
        Ok(())
    }
}
