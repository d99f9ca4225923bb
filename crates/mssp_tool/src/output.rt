//! The file that a command writes.
ghost use Rattle.speculative_runs.specs.Told.{Reads};
ghost use Rattle.mssp_tool.specs.Files.{Saved};

use answers::{Answer, Source};
use outside::{Store, StoreErr};
use std::alloc::Global;

/// Makes these bytes the file of that name, with which a command is done.
pub fn save<S: Store>(alloc: Global, store: &mut S, name: &str, bytes: &[u8]) -> Answer
    ensures { Saved
        (record { told = S.told store.old; before = S.faults store.old; now = S.faults store.new; failed = S.failed store.new })
        (S.told store.new) name.now bytes.now result }
{
    match store.write(alloc, name, bytes) {
        Ok(()) => Answer::Done,
        Err(StoreErr::Memory) => Answer::Memory,
        Err(_) => Answer::StoreFault(Source::Output),
    }
}
