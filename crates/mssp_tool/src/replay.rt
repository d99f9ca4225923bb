//! `replay`: its files, the pair over them, and the events of the list.
ghost use Rattle.std.specs.Prelude.{◌≡◌, MatchResult};
ghost use Rattle.command_line.specs.Command.{shown_replay};
ghost use Rattle.speculation.specs.Engine.{fresh};
ghost use Rattle.event_list.specs.Reading.{AreEvents};
ghost use Rattle.engine.specs.Whole.{model_of, world_of};
ghost use Rattle.speculative_runs.specs.Told.{Reads, Puts};
ghost use Rattle.mssp_tool.specs.Replay.{Wanting, IsReady, ReplayCause};

use crate::reading::{events_in, image_in, input_in, program_in};
use answers::Answer;
use command_line::Replay;
use engine::Engine;
use event_list::Event;
use memory::Memory;
use nosquash::Pair;
use outside::{Sink, SinkErr, Store};
use page_tree::PageTree;
use seq_machine::load;
use speculative_runs::put_replay;
use std::alloc::Global;

/// A pair that has had no event, and the list of those that it will be given.
#[derive(Drop)]
struct Prepared<M: Memory> {
    pair: Pair<M>,
    list: Vec<(u32, Event)>,
}

/// Reads the files of a replay.
fn prepare<S: Store, M: Memory>(
    alloc: Global,
    store: &mut S,
    replay: &Replay<'_>,
) -> Result<Prepared<M>, Answer>
    ensures files { S.told store.new ≡ S.told store.old }
    ensures answer { MatchResult result
        (λ ready. IsReady (S.told store.old) (shown_replay replay.now) (world_of M.at ready.pair.engine) ready.list.items
        × (model_of M.at ready.pair.engine ≡ fresh (world_of M.at ready.pair.engine)) × AreEvents ready.list.items)
        (Wanting (record { told = S.told store.old; before = S.faults store.old; now = S.faults store.new; failed = S.failed store.new }) (shown_replay replay.now)) }
{
    let program = program_in(alloc, store, replay.program)?;
    let image = match image_in(alloc, store, replay.image) {
        Ok(image) => image,
        Err(answer) => return Err(answer),
    };
    let list = match events_in(alloc, store, replay.events) {
        Ok(list) => list,
        Err(answer) => return Err(answer),
    };
    let input = match input_in(alloc, store, replay.input) {
        Ok(input) => input,
        Err(answer) => return Err(answer),
    };
    let Ok(machine) = load(alloc, &program, input) else {
        return Err(Answer::Memory);
    };
    match Engine::new(alloc, machine, image, replay.slaves) {
        Ok(engine) => {
            let pair = Pair::new(engine, &program);
            Ok(Prepared { pair, list })
        }
        Err(_) => Err(Answer::Memory),
    }
}

/// Gives the events of a list to a speculative machine, and puts what each of them did, a summary
/// and the committed output.
pub fn replay<S: Store, O: Sink>(
    alloc: Global,
    store: &mut S,
    out: &mut O,
    replay: &Replay<'_>,
) -> Answer
    ensures files { S.told store.new ≡ S.told store.old }
    ensures cause { ReplayCause
        (record { told = S.told store.old; before = S.faults store.old; now = S.faults store.new; failed = S.failed store.new })
        (shown_replay replay.now)
        (record { told = O.told out.old; left = O.told out.new; before = O.faults out.old; now = O.faults out.new })
        result }
{
    let mut ready: Prepared<PageTree> = match prepare(alloc, store, replay) {
        Ok(ready) => ready,
        Err(answer) => return answer,
    };
    match put_replay(alloc, out, &mut ready.pair, &ready.list) {
        Ok(()) => Answer::Done,
        Err(SinkErr::Failed) => Answer::SinkFault,
        Err(SinkErr::Memory) => Answer::Memory,
    }
}
