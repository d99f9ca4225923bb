//! What no clause says: that events succeed where memory is ample, and what they answer on a small program.
use engine::{Effect, End, Ending, Engine, Event};
use memory::PlainMemory;
use nosquash::Pair;
use seq_machine::load;
use std::alloc::Global;
use std::test::Fail;
use test_programs::images::{EXIT_7_CALL, image};
use test_programs::programs::{EXIT_7, program};

// A program that exits with 7, and an image with which a task begins at the call.
fn pair(alloc: Global) -> Result<Pair<PlainMemory>, Fail> {
    let program = program(alloc, &EXIT_7)?;
    let machine = load(alloc, &program, Vec::new(alloc))?;
    let image = image(alloc, &EXIT_7_CALL)?;
    let engine = Engine::new(alloc, machine, image, 4)?;
    Ok(Pair::new(engine, &program))
}

fn answer(alloc: Global, pair: &mut Pair<PlainMemory>, e: Event) -> Result<Effect, Fail> {
    if pair.engine().counts().events < 1_000 {
        Ok(pair.event(alloc, e)?)
    } else {
        Ok(Effect::Idle)
    }
}

/// Events, and what each does.
static EVENTS: [(Event, Effect); 7] = [
    (Event::Serial, Effect::Stepped),
    (Event::Serial, Effect::Stepped),
    (Event::Restart, Effect::Started(0x0001_0008)),
    (Event::Slave(0), Effect::Done(Ending::Met)),
    (
        Event::Commit,
        Effect::Committed {
            steps: 0,
            dropped: 0,
        },
    ),
    (Event::Restart, Effect::Idle),
    (Event::Serial, Effect::Ended(End::Exit(7))),
];

/// Whether each of these events does what stands beside it.
fn answers_all(alloc: Global, pair: &mut Pair<PlainMemory>) -> Result<bool, Fail> {
    for &(event, effect) in &EVENTS {
        if answer(alloc, pair, event)? != effect {
            return Ok(false);
        }
    }
    Ok(true)
}

#[test]
fn a_task_at_a_call_is_committed_without_it(rt: HostRuntime) -> Result<(), Fail> {
    let mut pair = pair(rt.alloc())?;
    assert!(rt; answers_all(rt.alloc(), &mut pair)?);
    Ok(())
}
