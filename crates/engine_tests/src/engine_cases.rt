//! What no clause says: that the calls of an engine succeed, and what events worked out by hand do.
ghost use Rattle.std.specs.Prelude.{◌≤◌};

use engine::{End, Engine, Event, Mode};
use memory::PlainMemory;
use seq_machine::{Machine, load};
use std::alloc::Global;
use std::test::Fail;
use test_programs::images::{COUNTER, EXIT_7_CALL, REWRITTEN, TEN_TURNS, WRONG_ANCHOR, image};
use test_programs::programs::{
    COUNT_WITHOUT_END, EXIT_7, REWRITES_ITSELF, TEN_TURNS_LOOP, program,
};

/// `MSSP` as a number.
const MAGIC: u32 = 0x5053_534D;

/// An image with no table, a jump into nowhere behind a Fork, and a circle that never forks again.
static NOTHING: [u32; 7] = [MAGIC, 1, 16, 0, 0, 0, 0];

static INTO_NOWHERE: [u32; 20] = [
    MAGIC, 1, 16, 2, 1, 1, 0, 2, 0, 0, 1, 0x40000000, 0, 0x10004, 0, 1, 0x10004, 0, 0, 0,
];

static IN_A_CIRCLE: [u32; 24] = [
    MAGIC, 1, 16, 2, 1, 2, 0, 2, 0, 0, 1, 0x10008, 0, 0x10004, 0, 64, 0x10004, 0, 0, 0, 0x10008, 1,
    0, 0,
];

/// A round over two slaves.
const ROUND: &str = "rsmmmm01c";

/// The machine at the start of the program of these words.
fn start_of(alloc: Global, words: &[u32]) -> Result<Machine<PlainMemory>, Fail> {
    let program = program(alloc, words)?;
    Ok(load(alloc, &program, Vec::new(alloc))?)
}

/// The same after so many steps.
fn after_steps(alloc: Global, words: &[u32], steps: u64) -> Result<Machine<PlainMemory>, Fail> {
    let mut machine = start_of(alloc, words)?;
    for _ in 0..steps {
        if machine.end.is_none() && machine.position < u64::MAX {
            machine.one(alloc)?;
        }
    }
    Ok(machine)
}

/// An engine over such a program and the image of these numbers.
fn engine_of(
    alloc: Global,
    words: &[u32],
    numbers: &[u32],
    slaves: u8,
) -> Result<Engine<PlainMemory>, Fail>
    requires some { 1 ≤ slaves }
    requires few { slaves ≤ 64 }
{
    let machine = start_of(alloc, words)?;
    let image = image(alloc, numbers)?;
    if machine.position != 0 || machine.end.is_some() {
        return Err("the machine is not at the start")?;
    }
    Ok(Engine::new(alloc, machine, image, slaves)?)
}

fn event_of(letter: u8) -> Event {
    match letter {
        b'r' => Event::Restart,
        b's' => Event::Serial,
        b'm' => Event::Master,
        b'0'..=b'9' => Event::Slave(letter - b'0'),
        _ => Event::Commit,
    }
}

/// What these events do. Each is its first letter, and that of a slave is its number.
fn effects(alloc: Global, engine: &mut Engine<PlainMemory>, events: &str) -> Result<String, Fail> {
    let mut text = String::new(alloc);
    for letter in events.as_bytes() {
        if engine.counts().events < u64::MAX {
            let effect = engine.event(alloc, event_of(*letter))?;
            text = format!(in alloc; "{text}{effect:?}; ")?;
        }
    }
    Ok(text)
}

/// Events, tasks, their steps, serial steps, squashes and dropped tasks.
type Counted = [u64; 6];

/// What an engine counted, and the position and the end of what is committed.
type Stand = (Counted, u64, Option<End>);

/// How an engine stands.
fn stand(engine: &Engine<PlainMemory>) -> Stand {
    let c = engine.counts();
    let counted = [
        c.events, c.tasks, c.by_tasks, c.serial, c.squashed, c.dropped,
    ];
    let committed = engine.committed();
    (counted, committed.position, committed.end)
}

/// Whether these events do this, and leave an engine that stands so.
fn comes_to(
    alloc: Global,
    engine: &mut Engine<PlainMemory>,
    events: &str,
    told: &str,
    want: Stand,
) -> Result<bool, Fail> {
    let found = effects(alloc, engine, events)?;
    Ok(found.as_str() == told && stand(engine) == want)
}

/// The same of an engine over two slaves that has had no event.
fn begins_to(
    alloc: Global,
    (words, numbers): (&[u32], &[u32]),
    events: &str,
    told: &str,
    want: Stand,
) -> Result<bool, Fail> {
    let mut engine = engine_of(alloc, words, numbers, 2)?;
    comes_to(alloc, &mut engine, events, told, want)
}

#[test]
fn idle_while_serial(rt: HostRuntime) -> Result<(), Fail> {
    let mut engine = engine_of(rt.alloc(), &TEN_TURNS_LOOP, &TEN_TURNS, 64)?;
    let want = ([3, 0, 0, 0, 0, 0], 0, None);
    assert!(rt; comes_to(rt.alloc(), &mut engine, "c0m", "Idle; Idle; Idle; ", want)?);
    let idle = (engine.mode(), engine.live(), engine.image().limit);
    assert!(rt; idle == (Mode::Serial { debt: false }, 0, 64));
    Ok(())
}

/// What fourteen events do, with two turns of `TEN_TURNS_LOOP`.
const TWO_TURNS_TOLD: &str =
    "Idle; Stepped; Started(65540); Stepped; Stepped; Stepped; Done(Reached); \
     Committed { steps: 4, dropped: 0 }; Moved; Moved; Moved; Moved; Moved; \
     Forked(1); ";

#[test]
fn two_turns_are_committed(rt: HostRuntime) -> Result<(), Fail> {
    let mut engine = engine_of(rt.alloc(), &TEN_TURNS_LOOP, &TEN_TURNS, 4)?;
    let want = ([14, 1, 4, 1, 0, 0], 5, None);
    assert!(rt;
        comes_to(
            rt.alloc(),
            &mut engine,
            "rsr0000cmmmmmm",
            TWO_TURNS_TOLD,
            want
        )?
    );
    assert!(rt; (engine.mode(), engine.live()) == (Mode::Speculating, 1));
    Ok(())
}

#[test]
fn a_wrong_pc_is_squashed(rt: HostRuntime) -> Result<(), Fail> {
    let told = "Stepped; Started(65540); Stepped; Done(Reached); Moved; Forked(1); \
         Committed { steps: 2, dropped: 0 }; Stepped; Stepped; Done(Met); \
         Squashed(Differ { cell: Pc, predicted: 65548, found: 65540 }); Idle; Stepped; \
         Stepped; Started(65540); ";
    let want = ([15, 1, 2, 3, 1, 0], 5, None);
    let machine = (TEN_TURNS_LOOP.as_slice(), WRONG_ANCHOR.as_slice());
    assert!(rt; begins_to(rt.alloc(), machine, "sr00mmc111crssr", told, want)?);
    Ok(())
}

#[test]
fn a_call_is_met_and_not_committed(rt: HostRuntime) -> Result<(), Fail> {
    let mut engine = engine_of(rt.alloc(), &EXIT_7, &EXIT_7_CALL, 1)?;
    let told = "Stepped; Stepped; Started(65544); Done(Met); \
         Committed { steps: 0, dropped: 0 }; Idle; Ended(Exit(7)); ";
    let want = ([7, 1, 0, 3, 0, 0], 3, Some(End::Exit(7)));
    assert!(rt; comes_to(rt.alloc(), &mut engine, "ssr0crs", told, want)?);
    Ok(())
}

#[test]
fn a_wrong_byte_is_squashed(rt: HostRuntime) -> Result<(), Fail> {
    let told = "Stepped; Started(65540); Moved; Forked(1); Stepped; Stepped; Stepped; \
         Done(Reached); Stepped; Stepped; Stepped; Done(Reached); \
         Committed { steps: 4, dropped: 0 }; \
         Squashed(Differ { cell: Byte(131072), predicted: 0, found: 1 }); ";
    let want = ([14, 1, 4, 1, 1, 0], 5, None);
    let machine = (COUNT_WITHOUT_END.as_slice(), COUNTER.as_slice());
    assert!(rt; begins_to(rt.alloc(), machine, "srmm11110000cc", told, want)?);
    Ok(())
}

#[test]
fn a_rewritten_instruction_is_squashed(rt: HostRuntime) -> Result<(), Fail> {
    let told = "Started(65536); Moved; Forked(1); Stepped; Stepped; Done(Met); Stepped; \
         Stepped; Done(Reached); Committed { steps: 3, dropped: 0 }; \
         Squashed(Differ { cell: Byte(65554), predicted: 112, found: 144 }); Stepped; \
         Stepped; Ended(Exit(9)); ";
    let want = ([14, 1, 3, 3, 1, 0], 6, Some(End::Exit(9)));
    let machine = (REWRITES_ITSELF.as_slice(), REWRITTEN.as_slice());
    assert!(rt; begins_to(rt.alloc(), machine, "rmm111000ccsss", told, want)?);
    Ok(())
}

#[test]
fn a_master_is_lost(rt: HostRuntime) -> Result<(), Fail> {
    let told = "Stepped; Started(65540); Halted(Lost); Idle; ";
    let want = ([4, 0, 0, 1, 0, 0], 1, None);
    let machine = (TEN_TURNS_LOOP.as_slice(), INTO_NOWHERE.as_slice());
    assert!(rt; begins_to(rt.alloc(), machine, "srmm", told, want)?);
    Ok(())
}

/// Gives an engine over two slaves the events of sixty rounds.
fn give_rounds(alloc: Global, engine: &mut Engine<PlainMemory>) -> Result<(), Fail> {
    for _ in 0..60 {
        let _told = effects(alloc, engine, ROUND)?;
    }
    Ok(())
}

/// Whether at least 16 steps are committed, and as many steps of the program alone come to the same.
fn stands_as_alone(alloc: Global, committed: &Machine<PlainMemory>) -> Result<bool, Fail> {
    let alone = after_steps(alloc, &TEN_TURNS_LOOP, committed.position)?;
    Ok(
        committed.position >= 16
            && committed.arch.regs == alone.arch.regs
            && committed.arch.pc == alone.arch.pc
            && committed.end == alone.end,
    )
}

/// Sixty rounds over two slaves leave the machine where as many steps of the program alone do.
fn runs_as_alone(alloc: Global, numbers: &[u32]) -> Result<bool, Fail> {
    let mut engine = engine_of(alloc, &TEN_TURNS_LOOP, numbers, 2)?;
    give_rounds(alloc, &mut engine)?;
    stands_as_alone(alloc, engine.committed())
}

#[test]
fn hostile_images_change_nothing(rt: HostRuntime) -> Result<(), Fail> {
    assert!(rt; runs_as_alone(rt.alloc(), &NOTHING)?);
    assert!(rt; runs_as_alone(rt.alloc(), &INTO_NOWHERE)?);
    assert!(rt; runs_as_alone(rt.alloc(), &IN_A_CIRCLE)?);
    assert!(rt; runs_as_alone(rt.alloc(), &WRONG_ANCHOR)?);
    Ok(())
}
