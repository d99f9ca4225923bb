//! Images in which a branch, a store, a load or a call is done in another way than by its own word.

use crate::making::{Tables, WHOLE, answer, exec, fork, no};
use certify::Fit;
use std::alloc::Global;
use std::test::Fail;
use test_programs::programs::{HELLO, ONE_VALUE, STORE_FOR_WRITE};

/// The cut of the taken side of the branch at 0x10000.
const TAKEN: [[u32; 3]; 4] = [[0, 0x1_0000, 1], [3, 0, 0], [4, 0, 0], [5, 0, 0]];

/// The cut of its other side.
const FALLEN: [[u32; 3]; 4] = [[0, 0x1_0000, 0], [3, 0, 0], [4, 0, 0], [5, 0, 0]];

/// A program of one branch, the first slot of its image, what is live and needed at the branch, what is
/// assumed, and the rule that the branch breaks, or 0.
type Branch = (u32, [u32; 3], u32, u32, &'static [[u32; 3]], u32);

/// A branch to the next address, where x5 is live and needed.
const NEXT: u32 = 0x0000_0263;

/// One to itself.
const ITSELF: u32 = 0x0000_0063;

/// One to an address that is no multiple of 4.
const ASIDE: u32 = 0x0000_0363;

static BRANCHES: [Branch; 15] = [
    // What is cut takes one side away, and the other stays, also where both are one place.
    (NEXT, [0, 0x1_0000, NEXT], 0x20, 0x20, &TAKEN, 0),
    (NEXT, [0, 0x1_0000, NEXT], 0x00, 0x20, &TAKEN, 6),
    (NEXT, [0, 0x1_0000, NEXT], 0x20, 0x00, &TAKEN, 7),
    (NEXT, [0, 0x1_0000, NEXT], 0x00, 0x20, &FALLEN, 6),
    (NEXT, [0, 0x1_0000, NEXT], 0x20, 0x00, &FALLEN, 7),
    (NEXT, [1, 0x1_0004, 0], 0x20, 0x20, &TAKEN, 4),
    (NEXT, [1, 0x1_0004, 0], 0x20, 0x20, &FALLEN, 4),
    // Where it is always taken, the master is already where it goes on.
    (ITSELF, [0, 0x1_0008, 0], 0x00, 0x00, &FALLEN, 0),
    (ITSELF, [0, 0x1_0008, 0], 0x00, 0x00, &TAKEN, 3),
    (ITSELF, [1, 0x1_0004, 0], 0x20, 0x20, &TAKEN, 0),
    (ITSELF, [1, 0x1_0004, 0], 0x20, 0x20, &WHOLE, 4),
    (ITSELF, [0, 0x1_0000, ITSELF], 0x20, 0x20, &WHOLE, 0),
    // Nothing goes on there, and it may not be passed over.
    (ASIDE, [1, 0x1_0004, 0], 0x20, 0x20, &FALLEN, 3),
    (ASIDE, [1, 0x1_0004, 0], 0x20, 0x20, &TAKEN, 4),
    (ASIDE, [0, 0x1_0000, ASIDE], 0x20, 0x20, &TAKEN, 0),
];

/// The next word is 0, which is no instruction, and is done at its own place.
#[test]
fn branches_of_which_a_side_is_cut(rt: HostRuntime) -> Result<(), Fail> {
    for &(word, slot, live, need, assumptions, rule) in &BRANCHES {
        let t = Tables {
            version: 1,
            slots: &[slot, exec(0x1_0004, 0)],
            anchors: &[],
            notes: &[[0x1_0000, 0, live, need], [0x1_0004, 1, 0x20, 0x20]],
            assumptions,
            targets: &[],
            writes: &[],
        };
        let want = if rule == 0 {
            Fit::Yes
        } else {
            no(0x1_0000, rule)
        };
        let found = answer(rt.alloc(), &[word], &t)?;
        assert_eq!(rt; found, want, "at {word} {slot:?} {live} {need}");
    }
    Ok(())
}

#[test]
fn a_store_that_is_passed(rt: HostRuntime) -> Result<(), Fail> {
    let slots = [
        fork(0),
        exec(0x1_0018, 0x0000_0073),
        fork(1),
        exec(0x1_0024, 0x0000_0073),
    ];
    let notes = [
        [0x1_0000, 0, 0x000, 0],
        [0x1_0004, 1, 0x800, 0],
        [0x1_0008, 1, 0x820, 0],
        [0x1_000C, 1, 0x000, 0],
        [0x1_0010, 1, 0x000, 0],
        [0x1_0014, 1, 0x000, 0],
        [0x1_0018, 1, 0x000, 0],
        [0x1_001C, 2, 0x000, 0],
        [0x1_0020, 3, 0x000, 0],
        [0x1_0024, 3, 0x000, 0],
    ];
    let dead = [[2, 0x1_0008, 0], [3, 0, 0], [4, 0, 0], [5, 0, 0]];
    let elsewhere = [[2, 0x1_000C, 0], [3, 0, 0], [4, 0, 0], [5, 0, 0]];
    let cut = [[0, 0x1_0008, 1], [3, 0, 0], [4, 0, 0], [5, 0, 0]];
    for (assumptions, want) in [
        (&dead, Fit::Yes),
        (&elsewhere, no(0x1_0008, 4)),
        (&cut, no(0x1_0008, 4)),
    ] {
        let t = Tables {
            version: 1,
            slots: &slots,
            anchors: &[[0x1_0000, 0, 1], [0x1_001C, 2, 1]],
            notes: &notes,
            assumptions,
            targets: &[],
            writes: &[],
        };
        assert_eq!(rt; answer(rt.alloc(), &STORE_FOR_WRITE, &t)?, want);
    }
    Ok(())
}

/// The answer to its image where this word is done in the load's place, and this is assumed of one
/// address.
fn load_answer(alloc: Global, word: u32, same: [u32; 3]) -> Result<Fit, Fail> {
    let t = Tables {
        version: 2,
        slots: &[
            fork(0),
            exec(0x1_0000, 0x0002_03B7),
            exec(0x1_0004, 0x00A0_0293),
            fork(1),
            exec(0x1_0008, word),
            exec(0x1_000C, 0x0064_0433),
            exec(0x1_0010, 0xFFF2_8293),
            exec(0x1_0014, 0xFE02_9AE3),
            exec(0x1_0020, 0x0000_0073),
        ],
        anchors: &[[0x1_0000, 0, 50], [0x1_0008, 3, 50]],
        notes: &[
            [0x1_0000, 0, 0x100, 0x100],
            [0x1_0004, 2, 0x180, 0x180],
            [0x1_0008, 3, 0x1A0, 0x1A0],
            [0x1_000C, 5, 0x1E0, 0x1E0],
            [0x1_0010, 6, 0x1A0, 0x1A0],
            [0x1_0014, 7, 0x1A0, 0x1A0],
            [0x1_0018, 8, 0x000, 0x000],
            [0x1_001C, 8, 0x000, 0x000],
            [0x1_0020, 8, 0x000, 0x000],
        ],
        assumptions: &[[3, 0, 0], [4, 0, 0], [5, 0, 0], same],
        targets: &[],
        writes: &[],
    };
    answer(alloc, &ONE_VALUE, &t)
}

/// The word in the load's place, what is assumed of which address, and whether the image fits.
static LOADS: [(u32, u32, u32, bool); 8] = [
    // ADDI of register 0 sets x6 to 0 and to -2048, LUI to 0x12345000.
    (0x0000_0313, 0x1_0008, 0, true),
    (0x8000_0313, 0x1_0008, 0xFFFF_F800, true),
    (0x1234_5337, 0x1_0008, 0x1234_5000, true),
    // The load itself is done too where a value is assumed.
    (0x0003_A303, 0x1_0008, 0, true),
    // Another value, another register, a value that no word sets, and a value of no load.
    (0x0000_0313, 0x1_0008, 1, false),
    (0x0000_0393, 0x1_0008, 0, false),
    (0x1234_5337, 0x1_0008, 0x1234_5001, false),
    (0x0000_0313, 0x1_000C, 0, false),
];

#[test]
fn a_load_of_one_value(rt: HostRuntime) -> Result<(), Fail> {
    for &(word, at, value, fits) in &LOADS {
        let want = if fits { Fit::Yes } else { no(0x1_0008, 3) };
        let found = load_answer(rt.alloc(), word, [6, at, value])?;
        assert_eq!(rt; found, want, "at {word} {at} {value}");
    }
    Ok(())
}

/// The answer to its image where tasks may print at these addresses, and these registers are live
/// and needed at the write.
fn print_answer(alloc: Global, writes: &[u32], live: u32) -> Result<Fit, Fail> {
    let t = Tables {
        version: 2,
        slots: &[
            fork(0),
            exec(0x1_0000, 0x0010_0513),
            exec(0x1_0004, 0x0000_0597),
            exec(0x1_0008, 0x0205_8593),
            exec(0x1_000C, 0x0030_0613),
            exec(0x1_0010, 0x0400_0893),
            exec(0x1_0014, 0x0000_0073),
            fork(1),
            exec(0x1_0020, 0x0000_0073),
        ],
        anchors: &[[0x1_0000, 0, 50], [0x1_0018, 7, 50]],
        notes: &[
            [0x1_0000, 0, 0x000, 0x000],
            [0x1_0004, 2, 0x400, 0x400],
            [0x1_0008, 3, 0xC00, 0xC00],
            [0x1_000C, 4, 0xC00, 0xC00],
            [0x1_0010, 5, 0x1C00, 0x1C00],
            [0x1_0014, 6, live, live],
            [0x1_0018, 7, 0x800, 0x800],
            [0x1_001C, 8, 0x000, 0x000],
            [0x1_0020, 8, 0x000, 0x000],
        ],
        assumptions: &WHOLE,
        targets: &[],
        writes,
    };
    answer(alloc, &HELLO, &t)
}

/// Where tasks may print, what is live at the write, and the rule that is broken at which address.
static WRITES: [(&[u32], u32, u32, u32); 5] = [
    (&[0x1_0014], 0x2_1C00, 0, 0),
    (&[0x1_0014], 0x2_0C00, 0x1_0014, 6),
    (&[0x1_0014], 0, 0x1_0014, 6),
    (&[0x1_0020], 0, 0x1_0020, 6),
    (&[], 0, 0, 0),
];

/// A call that a task does reads x10 to x12 and x17, and leads to the next address, where x11 is
/// live; one that no task does reads nothing, and leads nowhere.
#[test]
fn a_call_that_a_task_does(rt: HostRuntime) -> Result<(), Fail> {
    for &(writes, live, pc, rule) in &WRITES {
        let want = if rule == 0 { Fit::Yes } else { no(pc, rule) };
        let found = print_answer(rt.alloc(), writes, live)?;
        assert_eq!(rt; found, want, "at {writes:?} {live}");
    }
    Ok(())
}
