//! A recorder beside the profile of a run, and an adapter of a small program.

ghost use Rattle.std.specs.Prelude.{◌≡◌, ◌≤◌, ◌^◌, [], false, IfOk};
ghost use Rattle.std.specs.Bool.{OnTrue};
ghost use Rattle.cells.specs.Run.{is_over};
ghost use Rattle.elf_reader.specs.Executable.{IsProgram};
ghost use Rattle.seq_machine.specs.Parts.{start_of};
ghost use Rattle.fitting.specs.Fails.{state_at};

use adapt::Adapter;
use dist_image::{Anchor, Assumption, Image, Slot};
use elf_reader::Program;
use memory::PlainMemory;
use profile_data::write_profile;
use profiler::{Recorder, profile};
use seq_machine::{Machine, load};
use std::alloc::{AllocError, Global};
use std::test::Fail;
use test_programs::programs::{COMPARE_LOOP, TEN_TURNS_LOOP, program};

/// A recorder of a program without input, after so many steps or those to the end of its run.
fn recorded(alloc: Global, p: &Program, steps: u64) -> Result<Recorder, Fail>
    requires program { IsProgram p.now }
    requires steps { steps ≤ 10 ^ 12 }
{
    let mut recorder = Recorder::new(alloc, p, Vec::new(alloc), false)?;
    while recorder.steps() < steps && !recorder.ended() {
        recorder.one(alloc)?;
    }
    Ok(recorder)
}

/// Whether the run of a program without input goes on behind so many steps.
fn goes_on(alloc: Global, p: &Program, steps: u64) -> Result<bool, Fail>
    requires program { IsProgram p.now }
    requires steps { steps ≤ 10 ^ 12 }
    ensures { IfOk result (λ on. OnTrue on (is_over (state_at (start_of p.now []) steps) ≡ false)) }
{
    let mut machine: Machine<PlainMemory> = load(alloc, p, Vec::new(alloc))?;
    while machine.position < steps && machine.end.is_none() {
        machine.one(alloc)?;
    }
    Ok(machine.position == steps && machine.end.is_none())
}

/// What an adapter answers at a position, at which the run must go on. Where memory is wanting an image
/// is due as before, and is asked for once more.
fn next(
    alloc: Global,
    adapter: &mut Adapter,
    p: &Program,
    position: u64,
) -> Result<Option<Image>, Fail>
    requires valid { IsProgram p.now }
    requires program { adapter.old.program ≡ p.now }
    requires input { adapter.old.input ≡ [] }
    requires asked { adapter.old.asked ≤ position }
    requires position { position ≤ 10 ^ 12 }
    ensures program { adapter.new.program ≡ p.now }
    ensures input { adapter.new.input ≡ [] }
    ensures asked { adapter.new.asked ≤ position }
{
    if !goes_on(alloc, p, position)? {
        return Err(Fail::new("the run has ended"));
    }
    let due = adapter.due();
    match adapter.next(alloc, position) {
        Ok(image) => Ok(image),
        Err(AllocError) if adapter.due() == due => Ok(adapter.next(alloc, position)?),
        Err(AllocError) => Err(Fail::new("it was due otherwise")),
    }
}

/// A program that goes through 524,290 words, each of which does nothing, and then stays where it is.
fn long_line(alloc: Global) -> Result<Program, Fail>
    ensures { IfOk result IsProgram }
{
    let mut words = Vec::new(alloc);
    for _ in 0..524_290 {
        words.push(0x0000_0013)?;
    }
    words.push(0x0000_006F)?;
    Ok(program(alloc, &words)?)
}

/// Whether a recorder, after so many steps of a program without input, has the profile of as many steps.
fn has_their_profile(alloc: Global, p: &Program, steps: u64) -> Result<bool, Fail>
    requires program { IsProgram p.now }
    requires steps { steps ≤ 10 ^ 12 }
{
    let recorder = recorded(alloc, p, steps)?;
    let found = write_profile(alloc, &recorder.profile(alloc)?)?;
    let want = profile(alloc, p, Vec::new(alloc), steps, false)?;
    let want = write_profile(alloc, &want)?;
    Ok(recorder.steps() == steps && recorder.ended() == (steps == 45) && found == want)
}

#[test]
fn a_recorder_has_the_profile_of_its_steps(rt: HostRuntime) -> Result<(), Fail> {
    let program = program(rt.alloc(), &COMPARE_LOOP)?;
    for steps in [0, 1, 12, 44, 45] {
        assert!(rt; has_their_profile(rt.alloc(), &program, steps)?);
    }
    Ok(())
}

/// The image of its first five steps: ahead of the tasks only the loop's count is kept, and no turn is the last.
#[test]
fn an_image_is_due_after_five_steps(rt: HostRuntime) -> Result<(), Fail> {
    let program = program(rt.alloc(), &TEN_TURNS_LOOP)?;
    let mut adapter = Adapter::new(rt.alloc(), &program, Vec::new(rt.alloc()), 5)?;
    let early = next(rt.alloc(), &mut adapter, &program, 4)?.is_some();
    assert_eq!(rt; (early, adapter.due()), (false, 5));
    let Some(image) = next(rt.alloc(), &mut adapter, &program, 5)? else {
        return Err(Fail::new("no image at position 5"));
    };
    assert_eq!(rt; (adapter.due(), image.limit), (10, 4_096));
    let slots = [
        Slot::Fork { anchor: 0 },
        Slot::Exec {
            origin: 0x1_0000,
            word: 0x00A0_0293,
        },
        Slot::Fork { anchor: 1 },
        Slot::Exec {
            origin: 0x1_0004,
            word: 0xFFF2_8293,
        },
        Slot::Go { target: 0x1_0004 },
    ];
    let anchors = [
        Anchor {
            pc: 0x1_0000,
            slot: 0,
            count: 64,
        },
        Anchor {
            pc: 0x1_0004,
            slot: 2,
            count: 64,
        },
    ];
    assert!(rt;
        image.slots.as_slice() == slots.as_slice() && image.anchors.as_slice() == anchors.as_slice()
    );
    assert!(rt;
        matches!(
            image.assumptions.first(),
            Some(Assumption::Cut {
                at: 0x1_0008,
                taken: false
            })
        )
    );
    Ok(())
}

#[test]
fn the_next_is_due_from_the_position_asked(rt: HostRuntime) -> Result<(), Fail> {
    let program = program(rt.alloc(), &TEN_TURNS_LOOP)?;
    let mut adapter = Adapter::new(rt.alloc(), &program, Vec::new(rt.alloc()), 5)?;
    let first = next(rt.alloc(), &mut adapter, &program, 8)?.is_some();
    let early = next(rt.alloc(), &mut adapter, &program, 12)?.is_some();
    assert_eq!(rt; (first, early, adapter.due()), (true, false, 13));
    let second = next(rt.alloc(), &mut adapter, &program, 20)?.is_some();
    assert_eq!(rt; (second, adapter.due()), (true, 25));
    Ok(())
}

/// A profile has 524,288 rows at most. Behind as many steps no image is made any more, however often one is due.
#[test]
fn no_image_is_made_of_a_run_that_is_too_wide(rt: HostRuntime) -> Result<(), Fail> {
    let program = long_line(rt.alloc())?;
    let mut adapter = Adapter::new(rt.alloc(), &program, Vec::new(rt.alloc()), 1_000)?;
    let narrow = next(rt.alloc(), &mut adapter, &program, 1_000)?.is_some();
    let wide = next(rt.alloc(), &mut adapter, &program, 524_289)?.is_some();
    assert_eq!(rt; (narrow, wide, adapter.due()), (true, false, 525_289));
    let wider = next(rt.alloc(), &mut adapter, &program, 530_000)?.is_some();
    assert_eq!(rt; (wider, adapter.due()), (false, 531_000));
    Ok(())
}
