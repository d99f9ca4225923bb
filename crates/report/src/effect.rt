//! The lines of what the engine's events did.
ghost use Rattle.std.specs.Prelude.{◌≡◌, ◌++◌, OnOk};
ghost use Rattle.report.specs.Puts.{PutsText};
ghost use Rattle.report.specs.Text.{spaced};
ghost use Rattle.report.specs.Events.{why_word, ending_word, cell_words, differ_words, effect_line};

use crate::text::{Word, push_end, push_line, push_words};
use cells::{Cell, Differ, End};
use outside::{Sink, SinkErr};
use speculation::{Effect, Ending, Why};
use std::alloc::{AllocError, Global};

// Why the master halted.
fn why_word(why: Why) -> &'static str
    ensures { result.now ≡ why_word why }
{
    match why {
        Why::Call => "call",
        Why::Trap => "trap",
        Why::Lost => "lost",
        Why::Spent => "spent",
    }
}

// How a task was done.
fn ending_word(ending: Ending) -> &'static str
    ensures { result.now ≡ ending_word ending }
{
    match ending {
        Ending::Reached => "reached",
        Ending::Met => "met",
        Ending::Full => "full",
    }
}

fn push_cell(out: &mut Vec<u8>, cell: Cell) -> Result<(), AllocError>
    ensures { OnOk result (out.new.items ≡ out.old.items ++ spaced (cell_words cell)) }
{
    match cell {
        Cell::Pc => push_words(out, &[Word::Text("pc")]),
        Cell::Reg(number) => push_words(out, &[Word::Register(number)]),
        Cell::Byte(address) => push_words(out, &[Word::Text("byte"), Word::Hex(address)]),
    }
}

fn push_squashed(out: &mut Vec<u8>, differ: Differ) -> Result<(), AllocError>
    ensures { OnOk result (out.new.items ≡ out.old.items ++ effect_line (Effect.Squashed differ)) }
{
    let values = [
        Word::Text("predicted"),
        Word::Hex(differ.predicted),
        Word::Text("found"),
        Word::Hex(differ.found),
    ];
    out.extend_from_slice(b"squashed")?;
    push_cell(out, differ.cell)?;
    push_words(out, &values)?;
    out.extend_from_slice(b"\n")
}

fn push_ended(out: &mut Vec<u8>, end: End) -> Result<(), AllocError>
    ensures { OnOk result (out.new.items ≡ out.old.items ++ effect_line (Effect.Ended end)) }
{
    out.extend_from_slice(b"ended")?;
    push_end(out, end)?;
    out.extend_from_slice(b"\n")
}

// Puts the line of an effect at the end.
fn push_effect(out: &mut Vec<u8>, e: Effect) -> Result<(), AllocError>
    ensures { OnOk result (out.new.items ≡ out.old.items ++ effect_line e) }
{
    match e {
        Effect::Moved => push_line(out, "moved", &[]),
        Effect::Forked(number) => push_line(out, "forked", &[Word::Number(number)]),
        Effect::Stalled => push_line(out, "stalled", &[]),
        Effect::Halted(why) => push_line(out, "halted", &[Word::Text(why_word(why))]),
        Effect::Stepped => push_line(out, "stepped", &[]),
        Effect::Done(ending) => push_line(out, "done", &[Word::Text(ending_word(ending))]),
        Effect::Committed { steps, dropped } => push_line(
            out,
            "committed",
            &[
                Word::Number(steps),
                Word::Text("dropped"),
                Word::Number(dropped),
            ],
        ),
        Effect::Squashed(differ) => push_squashed(out, differ),
        Effect::Ended(end) => push_ended(out, end),
        Effect::Started(pc) => push_line(out, "started", &[Word::Hex(pc)]),
        Effect::Idle => push_line(out, "idle", &[]),
    }
}

/// Puts the line of an effect.
///
/// # Errors
///
/// `Failed` only where the sink failed, and `Memory`. A part of the line may have been put then.
pub fn put_effect<O: Sink>(alloc: Global, o: &mut O, e: &Effect) -> Result<(), SinkErr>
    ensures { PutsText (O.told o.old) (O.told o.new) (O.faults o.old) (O.faults o.new)
        (effect_line e.now) result }
{
    let mut out = Vec::new(alloc);
    match push_effect(&mut out, *e) {
        Ok(()) => o.put(alloc, &out),
        Err(_) => Err(SinkErr::Memory),
    }
}
