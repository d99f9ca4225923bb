//! The lines that sum up what an engine did.
ghost use Rattle.std.specs.Prelude.{◌≡◌, ◌++◌, IfOk, OnOk};
ghost use Rattle.engine.specs.Whole.{model_of};
ghost use Rattle.report.specs.Puts.{PutsText};
ghost use Rattle.report.specs.Events.{counts_text, outcome_text, summary_text};

use crate::text::{Word, push_end, push_line, push_words};
use cells::End;
use engine::Engine;
use memory::Memory;
use outside::{Sink, SinkErr};
use speculation::Counts;
use std::alloc::{AllocError, Global};

fn push_counts(out: &mut Vec<u8>, position: u64, c: Counts) -> Result<(), AllocError>
    ensures { OnOk result (out.new.items ≡ out.old.items ++ counts_text position c) }
{
    push_line(out, "position", &[Word::Number(position)])?;
    push_line(out, "tasks", &[Word::Number(c.tasks)])?;
    push_line(out, "by-tasks", &[Word::Number(c.by_tasks)])?;
    push_line(out, "serial", &[Word::Number(c.serial)])?;
    push_line(out, "squashed", &[Word::Number(c.squashed)])?;
    push_line(out, "dropped", &[Word::Number(c.dropped)])
}

// Puts how the run ended, if it did, and how many bytes it put out.
fn push_outcome(out: &mut Vec<u8>, over: Option<End>, bytes: u64) -> Result<(), AllocError>
    ensures { OnOk result (out.new.items ≡ out.old.items ++ outcome_text over bytes) }
{
    out.extend_from_slice(b"end")?;
    match over {
        Some(end) => push_end(out, end)?,
        None => push_words(out, &[Word::Text("none")])?,
    }
    out.extend_from_slice(b"\n")?;
    push_line(out, "output", &[Word::Number(bytes)])
}

/// The lines that sum up what an engine did so far.
///
/// # Errors
///
/// Want of memory alone.
pub fn summary_bytes<M: Memory>(alloc: Global, e: &Engine<M>) -> Result<Vec<u8>, AllocError>
    ensures { IfOk result (λ text. text.items ≡ summary_text (model_of M.at e.now)) }
{
    let machine = e.committed();
    let mut out = Vec::new(alloc);
    push_counts(&mut out, machine.position, e.counts())?;
    push_outcome(&mut out, machine.end, machine.out.len() as u64)?;
    Ok(out)
}

/// Puts the lines that sum up what an engine did so far.
///
/// # Errors
///
/// `Failed` only where the sink failed, and `Memory`. A part of the text may have been put then.
pub fn put_summary<O: Sink, M: Memory>(
    alloc: Global,
    o: &mut O,
    e: &Engine<M>,
) -> Result<(), SinkErr>
    ensures { PutsText (O.told o.old) (O.told o.new) (O.faults o.old) (O.faults o.new)
        (summary_text (model_of M.at e.now)) result }
{
    match summary_bytes(alloc, e) {
        Ok(text) => o.put(alloc, &text),
        Err(_) => Err(SinkErr::Memory),
    }
}
