//! Images of small programs, made by hand.

use crate::making::{Tables, WHOLE, answer, exec, fork, no};
use certify::Fit;
use std::alloc::Global;
use std::test::Fail;
use test_programs::programs::{EXIT_7, TEN_TURNS_LOOP};

/// An image of the first version without targets.
fn first<'a>(
    slots: &'a [[u32; 3]],
    anchors: &'a [[u32; 3]],
    notes: &'a [[u32; 4]],
    assumptions: &'a [[u32; 3]],
) -> Tables<'a> {
    Tables {
        version: 1,
        slots,
        anchors,
        notes,
        assumptions,
        targets: &[],
        writes: &[],
    }
}

/// It says that nothing is live, and lists nothing: the first rule is the first that it breaks.
#[test]
fn an_image_that_lists_nothing(rt: HostRuntime) -> Result<(), Fail> {
    let slots = [
        exec(0x1_0000, 0x00A0_0293),
        fork(0),
        exec(0x1_0004, 0xFFF2_8293),
        exec(0x1_0008, 0xFE02_9EE3),
        exec(0x1_000C, 0x0000_0513),
        exec(0x1_0010, 0x05D0_0893),
        exec(0x1_0014, 0x0000_0073),
    ];
    let anchors = [[0x1_0004, 1, 2]];
    let notes = [
        [0x1_0000, 0, 0, 0],
        [0x1_0004, 1, 0, 0],
        [0x1_0008, 3, 0, 0],
        [0x1_000C, 4, 0, 0],
        [0x1_0010, 5, 0, 0],
        [0x1_0014, 6, 0, 0],
    ];
    let found = answer(
        rt.alloc(),
        &TEN_TURNS_LOOP,
        &first(&slots, &anchors, &notes, &[]),
    )?;
    assert_eq!(rt; found, no(0, 1));
    let found = answer(
        rt.alloc(),
        &TEN_TURNS_LOOP,
        &first(&slots, &anchors, &notes, &WHOLE),
    )?;
    assert_eq!(rt; found, no(0x1_0004, 6));
    Ok(())
}

/// Nothing is noted, so nothing is broken, at the address 0 neither.
#[test]
fn an_image_without_notes(rt: HostRuntime) -> Result<(), Fail> {
    let found = answer(rt.alloc(), &TEN_TURNS_LOOP, &first(&[], &[], &[], &WHOLE))?;
    assert_eq!(rt; found, Fit::Yes);
    let found = answer(rt.alloc(), &TEN_TURNS_LOOP, &first(&[], &[], &[], &[]))?;
    assert_eq!(rt; found, no(0, 1));
    Ok(())
}

/// A note at the address 0, where the program has the word 0: the first rule comes before the third.
#[test]
fn a_note_at_the_address_0(rt: HostRuntime) -> Result<(), Fail> {
    let notes = [[0, 0, 0, 0]];
    let done = [exec(0, 0)];
    let lost = [exec(0, 0x13)];
    assert_eq!(rt;
        answer(
            rt.alloc(),
            &TEN_TURNS_LOOP,
            &first(&done, &[], &notes, &WHOLE)
        )?,
        Fit::Yes
    );
    assert_eq!(rt;
        answer(
            rt.alloc(),
            &TEN_TURNS_LOOP,
            &first(&lost, &[], &notes, &WHOLE)
        )?,
        no(0, 3)
    );
    assert_eq!(rt;
        answer(rt.alloc(), &TEN_TURNS_LOOP, &first(&lost, &[], &notes, &[]))?,
        no(0, 1)
    );
    Ok(())
}

/// The second anchor stands behind all notes, or before them.
#[test]
fn an_anchor_without_a_note(rt: HostRuntime) -> Result<(), Fail> {
    let slots = [
        fork(0),
        exec(0x1_0000, 0x0070_0513),
        exec(0x1_0004, 0x05D0_0893),
        exec(0x1_0008, 0x0000_0073),
        fork(1),
    ];
    let notes = [
        [0x1_0000, 0, 0, 0],
        [0x1_0004, 2, 0, 0],
        [0x1_0008, 3, 0, 0],
    ];
    let one = [[0x1_0000, 0, 1]];
    let behind = [[0x1_0000, 0, 1], [0x1_000C, 4, 1]];
    let before = [[0xFFFC, 0, 1], [0x1_0000, 0, 1]];
    assert_eq!(rt;
        answer(
            rt.alloc(),
            &EXIT_7,
            &first(&slots[..4], &one, &notes, &WHOLE)
        )?,
        Fit::Yes
    );
    assert_eq!(rt;
        answer(rt.alloc(), &EXIT_7, &first(&slots, &behind, &notes, &WHOLE))?,
        no(0x1_000C, 2)
    );
    assert_eq!(rt;
        answer(rt.alloc(), &EXIT_7, &first(&slots, &before, &notes, &WHOLE))?,
        no(0xFFFC, 2)
    );
    assert_eq!(rt;
        answer(rt.alloc(), &EXIT_7, &first(&slots[..4], &one, &[], &WHOLE))?,
        no(0x1_0000, 2)
    );
    Ok(())
}

/// A jump to 0x10008 by a register.
static JUMP: [u32; 3] = [0x0000_0297, 0x0082_80E7, 0x0000_0073];

/// The answer to an image of the jump with these assumptions, whose anchor is that of the jump or of
/// the word before it.
fn jump_answer(alloc: Global, at_the_jump: bool, assumptions: &[[u32; 3]]) -> Result<Fit, Fail> {
    let ahead = [
        fork(0),
        exec(0x1_0000, 0x0000_0297),
        exec(0x1_0004, 0x0082_80E7),
        exec(0x1_0008, 0x0000_0073),
    ];
    let there = [
        exec(0x1_0000, 0x0000_0297),
        fork(0),
        exec(0x1_0004, 0x0082_80E7),
        exec(0x1_0008, 0x0000_0073),
    ];
    let second = if at_the_jump { 1 } else { 2 };
    let notes = [
        [0x1_0000, 0, 0, 0],
        [0x1_0004, second, 0x20, 0x20],
        [0x1_0008, 3, 0x00, 0x00],
    ];
    let anchor = if at_the_jump {
        [0x1_0004, 1, 1]
    } else {
        [0x1_0000, 0, 1]
    };
    let t = Tables {
        version: 1,
        slots: if at_the_jump { &there } else { &ahead },
        anchors: &[anchor],
        notes: &notes,
        assumptions,
        targets: &[0x1_0008],
        writes: &[],
    };
    answer(alloc, &JUMP, &t)
}

#[test]
fn a_jump_and_its_targets(rt: HostRuntime) -> Result<(), Fail> {
    let aimed = [[1, 0x1_0004, 0], [3, 0, 0], [4, 0, 0], [5, 0, 0]];
    let elsewhere = [[1, 0x1_0008, 0], [3, 0, 0], [4, 0, 0], [5, 0, 0]];
    for at_the_jump in [false, true] {
        assert_eq!(rt; jump_answer(rt.alloc(), at_the_jump, &aimed)?, Fit::Yes);
        assert_eq!(rt;
            jump_answer(rt.alloc(), at_the_jump, &WHOLE)?,
            no(0x1_0004, 5)
        );
        assert_eq!(rt;
            jump_answer(rt.alloc(), at_the_jump, &elsewhere)?,
            no(0x1_0004, 5)
        );
    }
    Ok(())
}

/// The answer where a register is live and needed at the target of the jump, and both, one or
/// neither at the jump.
fn behind_jump(alloc: Global, live: u32, need: u32) -> Result<Fit, Fail> {
    let slots = [exec(0x1_0004, 0x0082_80E7), exec(0x1_0008, 0x0000_0073)];
    let t = Tables {
        version: 1,
        slots: &slots,
        anchors: &[],
        notes: &[[0x1_0004, 0, live, need], [0x1_0008, 1, 0x400, 0x400]],
        assumptions: &[[1, 0x1_0004, 0], [3, 0, 0], [4, 0, 0], [5, 0, 0]],
        targets: &[0x1_0000, 0x1_0008],
        writes: &[],
    };
    answer(alloc, &JUMP, &t)
}

#[test]
fn registers_behind_a_jump(rt: HostRuntime) -> Result<(), Fail> {
    assert_eq!(rt; behind_jump(rt.alloc(), 0x420, 0x420)?, Fit::Yes);
    assert_eq!(rt; behind_jump(rt.alloc(), 0x420, 0x20)?, no(0x1_0004, 7));
    assert_eq!(rt; behind_jump(rt.alloc(), 0x20, 0x420)?, no(0x1_0004, 6));
    assert_eq!(rt; behind_jump(rt.alloc(), 0x20, 0x20)?, no(0x1_0004, 6));
    Ok(())
}
