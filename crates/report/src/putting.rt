//! Lines on their way to a sink.
ghost use Rattle.std.specs.Prelude.{◌≡◌, ℕ, List, ◌++◌, OnOk};
ghost use Rattle.report.specs.Puts.{PutsText, PutsSome};
ghost use Rattle.report.specs.Show.{lines_from};

use outside::{Sink, SinkErr};
use std::alloc::{AllocError, Global};

/// How many bytes of lines are put at once, with what the last line has beyond them.
const PIECE: usize = 32_768;

/// An entry that has a line.
pub(crate) trait Entry {
    /// Its line, beside its number.
    ghost text: { ℕ → Self → List ℕ };

    /// Puts its line at the end.
    fn push(&self, out: &mut Vec<u8>, number: u64) -> Result<(), AllocError>
        ensures { OnOk result (out.new.items ≡ out.old.items ++ text number self.now) };
}

// Puts what waits, once it is long enough.
fn put_piece<O: Sink>(alloc: Global, o: &mut O, waiting: &mut Vec<u8>) -> Result<(), SinkErr>
    ensures { PutsSome (O.told o.old) (O.told o.new) (O.faults o.old) (O.faults o.new)
        waiting.old.items waiting.new.items result }
{
    if waiting.len() < PIECE {
        return Ok(());
    }
    o.put(alloc, waiting)?;
    waiting.clear();
    Ok(())
}

// Puts the line of an entry behind what waits.
fn put_entry<O: Sink, T: Entry>(
    alloc: Global,
    o: &mut O,
    waiting: &mut Vec<u8>,
    entry: &T,
    number: u64,
) -> Result<(), SinkErr>
    ensures { PutsSome (O.told o.old) (O.told o.new) (O.faults o.old) (O.faults o.new)
        (waiting.old.items ++ T.text number entry.now) waiting.new.items result }
{
    match entry.push(waiting, number) {
        Ok(()) => put_piece(alloc, o, waiting),
        Err(_) => Err(SinkErr::Memory),
    }
}

/// Puts the lines of entries, which are numbered from 0 on.
pub(crate) fn put_lines<O: Sink, T: Entry>(
    alloc: Global,
    o: &mut O,
    entries: &[T],
) -> Result<(), SinkErr>
    ensures { PutsText (O.told o.old) (O.told o.new) (O.faults o.old) (O.faults o.new)
        (lines_from T.text 0 entries.now) result }
{
    let mut waiting = Vec::new(alloc);
    for (number, entry) in entries.iter().enumerate() {
        put_entry(alloc, o, &mut waiting, entry, number as u64)?;
    }
    o.put(alloc, &waiting)
}
