//! `show`: the text of an image.
ghost use Rattle.std.specs.Prelude.{◌≡◌};
ghost use Rattle.speculative_runs.specs.Told.{Reads, Puts};
ghost use Rattle.mssp_tool.specs.Show.{ShowCause};

use crate::reading::image_in;
use answers::Answer;
use outside::{Sink, SinkErr, Store};
use report::put_image;
use std::alloc::Global;

/// Puts the text of the image of that name.
pub fn show<S: Store, O: Sink>(alloc: Global, store: &mut S, out: &mut O, name: &str) -> Answer
    ensures files { S.told store.new ≡ S.told store.old }
    ensures cause { ShowCause
        (record { told = S.told store.old; before = S.faults store.old; now = S.faults store.new; failed = S.failed store.new })
        name.now
        (record { told = O.told out.old; left = O.told out.new; before = O.faults out.old; now = O.faults out.new })
        result }
{
    let image = match image_in(alloc, store, name) {
        Ok(image) => image,
        Err(answer) => return answer,
    };
    match put_image(alloc, out, &image) {
        Ok(()) => Answer::Done,
        Err(SinkErr::Failed) => Answer::SinkFault,
        Err(SinkErr::Memory) => Answer::Memory,
    }
}
