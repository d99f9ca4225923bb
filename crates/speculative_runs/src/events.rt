//! The events of a list, given to a pair one by one, and what each of them did.
ghost use Rattle.std.specs.Prelude.{◌≡◌, ◌+◌, ◌^◌, ◌<◌, [], ◌∷◌, length, replicate, OnOk};
ghost use Rattle.speculation.specs.Engine.{run, fresh};
ghost use Rattle.event_list.specs.Reading.{written_out, AreEvents};
ghost use Rattle.engine.specs.Whole.{model_of, world_of};
ghost use Rattle.report.specs.Puts.{PutsText};
ghost use Rattle.speculative_runs.specs.Replayed.{lines_of, replay_bytes};

use engine::Engine;
use event_list::Event;
use memory::Memory;
use nosquash::Pair;
use outside::{Sink, SinkErr};
use report::{put_effect, put_summary};
use std::alloc::Global;

// One event, and the line of what it did.
fn put_event<O: Sink, M: Memory>(
    alloc: Global,
    out: &mut O,
    pair: &mut Pair<M>,
    e: Event,
) -> Result<(), SinkErr>
    requires { (model_of M.at pair.old.engine).counts.events + 1 < 2 ^ 64 }
    ensures put { PutsText (O.told out.old) (O.told out.new) (O.faults out.old) (O.faults out.new)
        (lines_of (world_of M.at pair.old.engine) (e ∷ []) (model_of M.at pair.old.engine)) result }
    ensures model { OnOk result (model_of M.at pair.new.engine
        ≡ run (world_of M.at pair.old.engine) (e ∷ []) (model_of M.at pair.old.engine)) }
    ensures world { world_of M.at pair.new.engine ≡ world_of M.at pair.old.engine }
{
    match pair.event(alloc, e) {
        Ok(effect) => put_effect(alloc, out, &effect),
        Err(_) => Err(SinkErr::Memory),
    }
}

// The same event so many times.
fn put_repeated<O: Sink, M: Memory>(
    alloc: Global,
    out: &mut O,
    pair: &mut Pair<M>,
    e: Event,
    count: u32,
) -> Result<(), SinkErr>
    requires { (model_of M.at pair.old.engine).counts.events + count < 2 ^ 64 }
    ensures put { PutsText (O.told out.old) (O.told out.new) (O.faults out.old) (O.faults out.new)
        (lines_of (world_of M.at pair.old.engine) (replicate count e) (model_of M.at pair.old.engine)) result }
    ensures model { OnOk result (model_of M.at pair.new.engine
        ≡ run (world_of M.at pair.old.engine) (replicate count e) (model_of M.at pair.old.engine)) }
    ensures world { world_of M.at pair.new.engine ≡ world_of M.at pair.old.engine }
{
    for turn in 0..count {
        put_event(alloc, out, pair, e)?;
    }
    Ok(())
}

// The events of a list.
fn put_listed<O: Sink, M: Memory>(
    alloc: Global,
    out: &mut O,
    pair: &mut Pair<M>,
    list: &[(u32, Event)],
) -> Result<(), SinkErr>
    requires { (model_of M.at pair.old.engine).counts.events + length (written_out list.now) < 2 ^ 64 }
    ensures put { PutsText (O.told out.old) (O.told out.new) (O.faults out.old) (O.faults out.new)
        (lines_of (world_of M.at pair.old.engine) (written_out list.now) (model_of M.at pair.old.engine)) result }
    ensures model { OnOk result (model_of M.at pair.new.engine
        ≡ run (world_of M.at pair.old.engine) (written_out list.now) (model_of M.at pair.old.engine)) }
    ensures world { world_of M.at pair.new.engine ≡ world_of M.at pair.old.engine }
{
    for (count, e) in list {
        put_repeated(alloc, out, pair, *e, *count)?;
    }
    Ok(())
}

// The output of the committed machine.
fn put_output<O: Sink, M: Memory>(
    alloc: Global,
    out: &mut O,
    engine: &Engine<M>,
) -> Result<(), SinkErr>
    ensures { PutsText (O.told out.old) (O.told out.new) (O.faults out.old) (O.faults out.new)
        (model_of M.at engine.now).committed.env.output result }
{
    out.put(alloc, &engine.committed().out)
}

/// Gives the events of a list to a pair that has had none, and puts the line of what each of
/// them did, then the lines that sum that up, and then the output of the committed machine.
pub fn put_replay<O: Sink, M: Memory>(
    alloc: Global,
    out: &mut O,
    pair: &mut Pair<M>,
    list: &[(u32, Event)],
) -> Result<(), SinkErr>
    requires fresh { model_of M.at pair.old.engine ≡ fresh (world_of M.at pair.old.engine) }
    requires list { AreEvents list.now }
    ensures { PutsText (O.told out.old) (O.told out.new) (O.faults out.old) (O.faults out.new)
        (replay_bytes (world_of M.at pair.old.engine) (written_out list.now)) result }
{
    put_listed(alloc, out, pair, list)?;
    let engine = pair.engine();
    put_summary(alloc, out, engine)?;
    put_output(alloc, out, engine)
}
