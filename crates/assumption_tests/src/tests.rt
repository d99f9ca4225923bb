//! What no clause says: that a check succeeds where memory is ample. And verdicts on small programs, worked out by hand.
ghost use Rattle.std.specs.Prelude.{IfOk};
ghost use Rattle.dist_image.specs.Image.{IsImage};

use assume_list::{Verdict, check_run};
use dist_image::{Image, read_image};
use std::alloc::Global;
use std::process::Abort;
use std::test::Fail;
use test_programs::programs::{
    COMPARE_LOOP, INPUT_DECIDES, ONE_VALUE, PRINTS_TEN, REWRITES_ITSELF, STORE_FOR_WRITE,
    TEN_TURNS_LOOP, program,
};

/// Where each program of these tests begins.
const BASE: u32 = 0x0001_0000;

/// The kinds of assumptions. Behind each come a pc, the side that is cut, and the number of targets.
const CUT: u32 = 0;

const TARGETS: u32 = 1;

const DEAD: u32 = 2;

const CODE: u32 = 3;

const WITHIN: u32 = 4;

const SPAN: u32 = 5;

/// With the value where the others have the side.
const SAME: u32 = 6;

/// An image: anchors by pc, slot and count, the pcs of the notes, the words of so many assumptions, and in version 2 the pcs
/// where a task may print.
#[derive(Clone, Copy)]
struct Tables {
    version: u32,
    limit: u32,
    anchors: &'static [u32],
    notes: &'static [u32],
    listed: u32,
    assumptions: &'static [u32],
    writes: &'static [u32],
}

/// What is checked, and the verdict on the run below the budget.
#[derive(Clone, Copy)]
struct Case {
    input: &'static [u8],
    budget: u64,
    tables: Tables,
    verdict: Verdict,
}

fn push_words(bytes: &mut Vec<u8>, words: &[u32]) -> Result<(), Fail> {
    for word in words {
        bytes.extend_from_slice(&word.to_le_bytes())?;
    }
    Ok(())
}

/// The image of these tables. It has one slot, and empty masks.
fn image(alloc: Global, tables: Tables) -> Result<Image, Fail>
    ensures { IfOk result IsImage }
{
    let anchors = (tables.anchors.len() % 1_000) as u32 / 3;
    let notes = (tables.notes.len() % 1_000) as u32;
    let mut file = Vec::new(alloc);
    push_words(
        &mut file,
        &[
            0x5053_534D,
            tables.version,
            tables.limit,
            1,
            anchors,
            notes,
            tables.listed,
        ],
    )?;
    if tables.version == 2 {
        push_words(&mut file, &[(tables.writes.len() % 1_000) as u32])?;
    }
    push_words(&mut file, &[1, BASE, 0])?;
    push_words(&mut file, tables.anchors)?;
    for pc in tables.notes {
        push_words(&mut file, &[*pc, 0, 0, 0])?;
    }
    push_words(&mut file, tables.assumptions)?;
    push_words(&mut file, tables.writes)?;
    Ok(read_image(alloc, &file)?)
}

/// The verdict on a case.
fn verdict(alloc: Global, words: &[u32], case: Case) -> Result<Verdict, Fail> {
    let program = program(alloc, words)?;
    let image = image(alloc, case.tables)?;
    let input = Vec::from_slice(alloc, case.input)?;
    let budget = case.budget.clamp(1, 1_000);
    Ok(check_run(alloc, &program, &image, input, budget)?)
}

/// An image with these anchors, notes and assumptions.
fn listing(
    limit: u32,
    anchors: &'static [u32],
    notes: &'static [u32],
    listed: u32,
    assumptions: &'static [u32],
) -> Tables {
    Tables {
        version: 1,
        limit,
        anchors,
        notes,
        listed,
        assumptions,
        writes: &[],
    }
}

/// The same tables in an image of version 2, whose tasks may print at these pcs.
fn printing(tables: Tables, writes: &'static [u32]) -> Tables {
    Tables {
        version: 2,
        writes,
        ..tables
    }
}

/// Without input, below this budget.
fn at_budget(budget: u64, tables: Tables, verdict: Verdict) -> Case {
    Case {
        input: b"",
        budget,
        tables,
        verdict,
    }
}

/// Without input, below a budget that is past the end.
fn to_the_end(tables: Tables, verdict: Verdict) -> Case {
    at_budget(1_000, tables, verdict)
}

fn broken(position: u64, which: u32) -> Verdict {
    Verdict::Broken { position, which }
}

fn check_cases(
    rt: &impl Abort,
    alloc: Global,
    words: &'static [u32],
    cases: &[Case],
) -> Result<(), Fail> {
    for case in cases {
        let answer = verdict(alloc, words, *case)?;
        assert_eq!(rt; answer, case.verdict);
    }
    Ok(())
}

#[test]
fn a_branch_that_is_never_taken(rt: HostRuntime) -> Result<(), Fail> {
    let image = listing(
        64,
        &[0x1_0000, 0, 2, 0x1_0004, 0, 2],
        &[
            0x1_0000, 0x1_0004, 0x1_0008, 0x1_000C, 0x1_0010, 0x1_0014, 0x1_001C, 0x1_0020,
            0x1_0024,
        ],
        4,
        &[
            CUT, 0x1_0008, 1, 0, CODE, 0, 0, 0, WITHIN, 0, 0, 0, SPAN, 0, 0, 0,
        ],
    );
    check_cases(
        &rt,
        rt.alloc(),
        &COMPARE_LOOP,
        &[to_the_end(image, Verdict::Met(45))],
    )
}

#[test]
fn the_input_decides(rt: HostRuntime) -> Result<(), Fail> {
    // as distilled from a run without input
    let image = listing(
        64,
        &[0x1_0000, 0, 2, 0x1_0014, 0, 2, 0x1_001C, 0, 2],
        &[
            0x1_0000, 0x1_0004, 0x1_0008, 0x1_000C, 0x1_0010, 0x1_0014, 0x1_0018, 0x1_001C,
            0x1_0020, 0x1_0024, 0x1_0028, 0x1_002C, 0x1_0034, 0x1_0038,
        ],
        4,
        &[
            CUT, 0x1_001C, 1, 0, CODE, 0, 0, 0, WITHIN, 0, 0, 0, SPAN, 0, 0, 0,
        ],
    );
    let with_input = Case {
        input: b"A",
        budget: 1_000,
        tables: image,
        verdict: broken(7, 0),
    };
    let cases = [to_the_end(image, Verdict::Met(41)), with_input];
    check_cases(&rt, rt.alloc(), &INPUT_DECIDES, &cases)
}

#[test]
fn budgets_end_a_check(rt: HostRuntime) -> Result<(), Fail> {
    let no_list = listing(16, &[], &[], 0, &[]);
    let cut = listing(16, &[], &[], 1, &[CUT, 0x1_0008, 1, 0]);
    let cases = [
        at_budget(1, no_list, Verdict::Met(1)),
        at_budget(24, no_list, Verdict::Met(24)),
        at_budget(25, no_list, Verdict::Met(24)),
        at_budget(2, cut, Verdict::Met(2)),
        at_budget(3, cut, broken(2, 0)),
    ];
    check_cases(&rt, rt.alloc(), &TEN_TURNS_LOOP, &cases)
}

#[test]
fn cuts_and_what_is_within(rt: HostRuntime) -> Result<(), Fail> {
    let at_first = &[0x1_0000, 0, 1];
    let cases = [
        // the branch is taken at position 2, and falls at position 20
        to_the_end(
            listing(16, &[], &[], 1, &[CUT, 0x1_0008, 1, 0]),
            broken(2, 0),
        ),
        to_the_end(
            listing(16, &[], &[], 1, &[CUT, 0x1_0008, 0, 0]),
            broken(20, 0),
        ),
        to_the_end(
            listing(16, &[], &[], 1, &[CUT, 0x1_0004, 1, 0]),
            Verdict::Met(24),
        ),
        // the word behind the note has none, and the first of two is told
        to_the_end(
            listing(16, &[], &[0x1_0004], 1, &[WITHIN, 0, 0, 0]),
            broken(1, 0),
        ),
        to_the_end(
            listing(
                16,
                &[],
                &[0x1_0008],
                2,
                &[CUT, 0x1_0008, 1, 0, WITHIN, 0, 0, 0],
            ),
            broken(2, 0),
        ),
        to_the_end(
            listing(16, &[], &[0x1_0014], 1, &[WITHIN, 0, 0, 0]),
            Verdict::Met(24),
        ),
        // Span is told later, but fails at position 0
        to_the_end(
            listing(16, at_first, &[], 2, &[CUT, 0x1_0008, 1, 0, SPAN, 0, 0, 0]),
            broken(0, 1),
        ),
        to_the_end(
            listing(
                16,
                at_first,
                &[0x1_0000],
                2,
                &[WITHIN, 0, 0, 0, SPAN, 0, 0, 0],
            ),
            broken(0, 0),
        ),
        to_the_end(
            listing(24, at_first, &[], 2, &[CUT, 0x1_0008, 1, 0, SPAN, 0, 0, 0]),
            broken(2, 0),
        ),
    ];
    check_cases(&rt, rt.alloc(), &TEN_TURNS_LOOP, &cases)
}

#[test]
fn tasks_come_to_their_end_in_time(rt: HostRuntime) -> Result<(), Fail> {
    let at_first = &[0x1_0000, 0, 1];
    let span = &[SPAN, 0, 0, 0];
    let cases = [
        // the call is at position 23: within the limit from position 0 on, where the limit is above that distance
        to_the_end(listing(24, at_first, &[], 1, span), Verdict::Met(24)),
        to_the_end(listing(23, at_first, &[], 1, span), broken(0, 0)),
        // a stop where the task begins
        to_the_end(
            listing(16, &[0x1_0014, 0, 1], &[], 1, span),
            Verdict::Met(24),
        ),
        // an arrival at position 21: within the limit where that is the distance
        to_the_end(
            listing(21, &[0x1_0000, 0, 1, 0x1_000C, 0, 1], &[], 1, span),
            Verdict::Met(24),
        ),
        to_the_end(
            listing(20, &[0x1_0000, 0, 1, 0x1_000C, 0, 1], &[], 1, span),
            broken(0, 0),
        ),
        // each turn is an arrival: from positions 1 and 3 the eighth comes 16 steps later, from position 5 none does
        to_the_end(listing(16, &[0x1_0004, 0, 8], &[], 1, span), broken(5, 0)),
        to_the_end(listing(16, &[0x1_0004, 0, 9], &[], 1, span), broken(1, 0)),
        to_the_end(
            listing(20, &[0x1_0004, 0, 8], &[], 1, span),
            Verdict::Met(24),
        ),
        // below a budget of one, positions past it are looked at
        at_budget(1, listing(23, at_first, &[], 1, span), broken(0, 0)),
        at_budget(1, listing(24, at_first, &[], 1, span), Verdict::Met(1)),
    ];
    check_cases(&rt, rt.alloc(), &TEN_TURNS_LOOP, &cases)
}

#[test]
fn jumps_go_to_their_targets(rt: HostRuntime) -> Result<(), Fail> {
    // a jump to 0x00010008 by a register, a call, and the end
    let ahead = &[0x0000_0297, 0x0082_80E7, 0x0000_0073];
    let cases = [
        to_the_end(
            listing(
                16,
                &[],
                &[],
                1,
                &[TARGETS, 0x1_0004, 0, 2, 0x1_0000, 0x1_000C],
            ),
            broken(1, 0),
        ),
        to_the_end(
            listing(
                16,
                &[],
                &[],
                1,
                &[TARGETS, 0x1_0004, 0, 2, 0x1_0000, 0x1_0008],
            ),
            Verdict::Met(4),
        ),
        to_the_end(
            listing(
                16,
                &[],
                &[],
                2,
                &[TARGETS, 0x1_0000, 0, 0, TARGETS, 0x1_0004, 0, 0],
            ),
            broken(1, 1),
        ),
    ];
    check_cases(&rt, rt.alloc(), ahead, &cases)?;
    // a jump and a branch to no multiple of 4 end the run
    let aside = &[0x0000_0297, 0x0022_8293, 0x0002_80E7];
    let no_targets = listing(16, &[], &[], 1, &[TARGETS, 0x1_0008, 0, 0]);
    check_cases(
        &rt,
        rt.alloc(),
        aside,
        &[to_the_end(no_targets, Verdict::Met(3))],
    )?;
    let cut = listing(16, &[], &[], 1, &[CUT, 0x1_0000, 1, 0]);
    check_cases(
        &rt,
        rt.alloc(),
        &[0x0000_0363],
        &[to_the_end(cut, Verdict::Met(1))],
    )
}

#[test]
fn stores_are_dead(rt: HostRuntime) -> Result<(), Fail> {
    let first = listing(16, &[], &[], 1, &[DEAD, 0x1_0004, 0, 0]);
    let both = listing(
        16,
        &[],
        &[],
        2,
        &[DEAD, 0x1_0004, 0, 0, DEAD, 0x1_0008, 0, 0],
    );
    // a store, and a load of what it put
    let loaded = &[0x0000_0297, 0x0452_A023, 0x0402_A303];
    check_cases(&rt, rt.alloc(), loaded, &[to_the_end(first, broken(2, 0))])?;
    // with a store of one byte between, and a load of that byte, or of the one behind it
    let covered = &[0x0000_0297, 0x0452_A023, 0x0452_8023, 0x0402_C303];
    let cases = [
        to_the_end(first, Verdict::Met(5)),
        to_the_end(both, broken(3, 1)),
    ];
    check_cases(&rt, rt.alloc(), covered, &cases)?;
    let beside = &[0x0000_0297, 0x0452_A023, 0x0452_8023, 0x0412_C303];
    check_cases(&rt, rt.alloc(), beside, &[to_the_end(both, broken(3, 0))])?;
    // a call writes the byte in between, if there is input
    let read = &[
        0x0000_0597,
        0x0405_8593,
        0x0005_8023,
        0x0010_0613,
        0x03F0_0893,
        0x0000_0073,
        0x0005_C303,
    ];
    let put = listing(16, &[], &[], 1, &[DEAD, 0x1_0008, 0, 0]);
    let with_input = Case {
        input: b"a",
        budget: 1_000,
        tables: put,
        verdict: Verdict::Met(8),
    };
    check_cases(
        &rt,
        rt.alloc(),
        read,
        &[to_the_end(put, broken(6, 0)), with_input],
    )
}

#[test]
fn code_is_not_replaced(rt: HostRuntime) -> Result<(), Fail> {
    // the word at 0x00010010 is replaced by the one at 0x0001001C
    let code = &[CODE, 0, 0, 0];
    let dead = &[DEAD, 0x1_0008, 0, 0, CODE, 0, 0, 0];
    let cases = [
        to_the_end(listing(16, &[], &[0x1_0010], 1, code), broken(4, 0)),
        to_the_end(listing(16, &[], &[0x1_0014], 1, code), Verdict::Met(6)),
        // a fetch of what a store put
        to_the_end(listing(16, &[], &[], 2, dead), broken(4, 0)),
        to_the_end(listing(16, &[], &[0x1_0010], 2, dead), broken(4, 0)),
    ];
    check_cases(&rt, rt.alloc(), &REWRITES_ITSELF, &cases)
}

#[test]
fn a_load_has_one_value(rt: HostRuntime) -> Result<(), Fail> {
    let cases = [
        to_the_end(
            printing(listing(16, &[], &[], 1, &[SAME, 0x1_0008, 0, 0]), &[]),
            Verdict::Met(45),
        ),
        to_the_end(
            printing(listing(16, &[], &[], 1, &[SAME, 0x1_0008, 1, 0]), &[]),
            broken(2, 0),
        ),
        // a word that is no load has any value
        to_the_end(
            printing(listing(16, &[], &[], 1, &[SAME, 0x1_0004, 9, 0]), &[]),
            Verdict::Met(45),
        ),
    ];
    check_cases(&rt, rt.alloc(), &ONE_VALUE, &cases)?;
    // a byte is extended by its sign, and a load to register 0 loads
    let byte = &[0x0000_0297, 0x0002_8003];
    let cases = [
        to_the_end(
            printing(
                listing(16, &[], &[], 1, &[SAME, 0x1_0004, 0xFFFF_FF97, 0]),
                &[],
            ),
            Verdict::Met(3),
        ),
        to_the_end(
            printing(listing(16, &[], &[], 1, &[SAME, 0x1_0004, 0x97, 0]), &[]),
            broken(1, 0),
        ),
    ];
    check_cases(&rt, rt.alloc(), byte, &cases)
}

#[test]
fn a_value_is_listed_behind_span(rt: HostRuntime) -> Result<(), Fail> {
    let both = &[SPAN, 0, 0, 0, SAME, 0x1_0008, 1, 0];
    let cases = [
        // both fail at position 2, where the first of them is told
        to_the_end(
            printing(listing(16, &[0x1_0008, 0, 64], &[], 2, both), &[]),
            broken(2, 0),
        ),
        // Span fails at position 0
        to_the_end(
            printing(listing(16, &[0x1_0000, 0, 1], &[], 2, both), &[]),
            broken(0, 0),
        ),
        // at position 3
        to_the_end(
            printing(listing(16, &[0x1_000C, 0, 64], &[], 2, both), &[]),
            broken(2, 1),
        ),
        // nowhere
        to_the_end(
            printing(listing(16, &[0x1_0008, 0, 1], &[], 2, both), &[]),
            broken(2, 1),
        ),
        // and below a budget that is at the next position
        at_budget(
            3,
            printing(listing(16, &[0x1_0008, 0, 64], &[], 2, both), &[]),
            broken(2, 0),
        ),
    ];
    check_cases(&rt, rt.alloc(), &ONE_VALUE, &cases)
}

/// An image with an anchor at the first word alone, and with Span.
fn spanned(limit: u32) -> Tables {
    listing(limit, &[0x1_0000, 0, 1], &[], 1, &[SPAN, 0, 0, 0])
}

#[test]
fn a_write_that_a_task_does_is_no_stop(rt: HostRuntime) -> Result<(), Fail> {
    let within = listing(16, &[], &[0x1_0014], 1, &[WITHIN, 0, 0, 0]);
    let cases = [
        // each call stops tasks, unless it is listed: then the next stop is the end, at position 73
        to_the_end(spanned(16), Verdict::Met(74)),
        to_the_end(printing(spanned(16), &[]), Verdict::Met(74)),
        to_the_end(printing(spanned(73), &[0x1_0014]), broken(0, 0)),
        to_the_end(printing(spanned(74), &[0x1_0014]), Verdict::Met(74)),
        // past the budget too
        at_budget(1, printing(spanned(73), &[0x1_0014]), broken(0, 0)),
        at_budget(1, printing(spanned(74), &[0x1_0014]), Verdict::Met(1)),
        at_budget(1, printing(spanned(16), &[0x1_0018]), Verdict::Met(1)),
        // the word behind the call has no note
        to_the_end(within, Verdict::Met(74)),
        to_the_end(printing(within, &[0x1_0014]), broken(5, 0)),
    ];
    check_cases(&rt, rt.alloc(), &PRINTS_TEN, &cases)
}

#[test]
fn what_a_task_shows_is_not_dead(rt: HostRuntime) -> Result<(), Fail> {
    // a store of a byte, and a write from there on of 1, 256 or 257 bytes
    let dead = listing(16, &[], &[], 1, &[DEAD, 0x1_0008, 0, 0]);
    let shown = [
        to_the_end(dead, Verdict::Met(10)),
        to_the_end(printing(dead, &[0x1_0018]), broken(6, 0)),
    ];
    check_cases(&rt, rt.alloc(), &STORE_FOR_WRITE, &shown)?;
    let most = &[
        0x0002_05B7,
        0x0410_0293,
        0x0055_8023,
        0x0010_0513,
        0x1000_0613,
        0x0400_0893,
        0x0000_0073,
        0x0000_0513,
        0x05D0_0893,
        0x0000_0073,
    ];
    check_cases(&rt, rt.alloc(), most, &shown)?;
    let longer = &[
        0x0002_05B7,
        0x0410_0293,
        0x0055_8023,
        0x0010_0513,
        0x1010_0613,
        0x0400_0893,
        0x0000_0073,
        0x0000_0513,
        0x05D0_0893,
        0x0000_0073,
    ];
    let met = [to_the_end(printing(dead, &[0x1_0018]), Verdict::Met(10))];
    check_cases(&rt, rt.alloc(), longer, &met)
}
