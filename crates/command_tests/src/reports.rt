//! `run` with a report: beside images, made by hand or hostile, and without one.

use crate::left::{left_so, perform_beside};
use command_fixtures::outside_world::{Fails, Left, SURE};
use std::alloc::{AllocError, Global};
use std::test::Fail;
use test_programs::hostile_images::*;
use test_programs::images::*;
use test_programs::programs::*;

const BESIDE: &[&str] = &["run", "p", "--image", "m", "--report", "r"];

const ALONE: &[&str] = &["run", "p", "--report", "r"];

/// What a command is to leave: these bytes, this status and this line.
type Wanted = (&'static str, u8, &'static str);

/// Whether a command left that, and this report.
fn left_report(left: &Left, (out, status, line): Wanted, report: &str) -> bool {
    left_so(left, out, status, line) && left.report.as_slice() == report.as_bytes()
}

/// Whether a run of a program beside an image leaves that.
fn reports_so(
    alloc: Global,
    words: &[&str],
    program: &[u32],
    image: &[u32],
    wanted: Wanted,
    report: &str,
) -> Result<bool, AllocError> {
    let left = perform_beside(alloc, words, program, image, b"", SURE)?;
    Ok(left_report(&left, wanted, report))
}

/// A run that ends with 7 by three steps, the last a call that no task may take.
const EXIT_7_REPORT: &str = "position 3
tasks 1
by-tasks 0
serial 3
squashed 0
dropped 0
end exit 7
output 0
";

#[test]
fn a_call_is_met_in_rounds(rt: HostRuntime) -> Result<(), Fail> {
    let alloc = rt.alloc();
    let words = &["run", "p", "--image", "m", "--slaves", "1", "--report", "r"];
    assert!(rt;
        reports_so(
            alloc,
            words,
            &EXIT_7,
            &EXIT_7_CALL,
            ("", 7, ""),
            EXIT_7_REPORT
        )?
    );
    Ok(())
}

const COMPARE_REPORT: &str = "position 45
tasks 6
by-tasks 44
serial 1
squashed 0
dropped 0
end exit 0
output 0
";

#[test]
fn a_loop_without_its_compare_runs_ahead(rt: HostRuntime) -> Result<(), Fail> {
    let alloc = rt.alloc();
    let (program, image) = (&COMPARE_LOOP, &COMPARE_NEVER_TRUE);
    assert!(rt; reports_so(alloc, BESIDE, program, image, ("", 0, ""), COMPARE_REPORT)?);
    Ok(())
}

const PASSED_REPORT: &str = "position 5
tasks 1
by-tasks 4
serial 1
squashed 0
dropped 0
end none
output 0
";

#[test]
fn a_task_passes_the_budget(rt: HostRuntime) -> Result<(), Fail> {
    let alloc = rt.alloc();
    let words = &["run", "p", "--budget", "3", "--image", "m", "--report", "r"];
    let left = ("", 120, "mssp: budget\n");
    assert!(rt;
        reports_so(
            alloc,
            words,
            &TEN_TURNS_LOOP,
            &TEN_TURNS,
            left,
            PASSED_REPORT
        )?
    );
    Ok(())
}

const HELLO_REPORT: &str = "position 9
tasks 0
by-tasks 0
serial 9
squashed 0
dropped 0
end exit 0
output 3
";

#[test]
fn without_an_image_each_step_is_serial(rt: HostRuntime) -> Result<(), Fail> {
    let alloc = rt.alloc();
    let words = &["run", "p", "--slaves", "64", "--report", "r"];
    assert!(rt;
        reports_so(
            alloc,
            words,
            &HELLO,
            &EXIT_7_CALL,
            ("hi\n", 0, ""),
            HELLO_REPORT
        )?
    );
    Ok(())
}

const BUDGET_REPORT: &str = "position 2
tasks 0
by-tasks 0
serial 2
squashed 0
dropped 0
end none
output 0
";

const TRAP_REPORT: &str = "position 3
tasks 0
by-tasks 0
serial 3
squashed 0
dropped 0
end misfetch 00010002
output 0
";

#[test]
fn a_report_tells_a_budget_and_a_trap(rt: HostRuntime) -> Result<(), Fail> {
    let alloc = rt.alloc();
    let words = &["run", "p", "--budget", "2", "--report", "r"];
    let left = ("", 120, "mssp: budget\n");
    assert!(rt; reports_so(alloc, words, &EXIT_7, &EXIT_7_CALL, left, BUDGET_REPORT)?);
    let left = ("", 121, "mssp: trap 00010008 misfetch 00010002\n");
    assert!(rt; reports_so(alloc, ALONE, &MISFETCH, &EXIT_7_CALL, left, TRAP_REPORT)?);
    Ok(())
}

/// Whether a run beside an image, where these calls fail, leaves this and no report.
fn no_report_so(
    alloc: Global,
    words: &[&str],
    program: &[u32],
    fails: Fails,
    wanted: Wanted,
) -> Result<bool, AllocError> {
    let left = perform_beside(alloc, words, program, &EXIT_7_CALL, b"", fails)?;
    Ok(left_report(&left, wanted, ""))
}

/// Whether a command puts nothing, and leaves this status and line and no report.
fn refused_so(
    alloc: Global,
    words: &[&str],
    status: u8,
    line: &'static str,
) -> Result<bool, AllocError> {
    no_report_so(alloc, words, &HELLO, SURE, ("", status, line))
}

static AN_IMAGE_ASKS_FOR_A_REPORT_CASES: [&[&str]; 3] = [
    &["run", "p", "--image", "m"],
    &["run", "p", "--slaves", "65"],
    &["run", "p", "--report", "r", "--slaves", "0"],
];

#[test]
fn an_image_asks_for_a_report(rt: HostRuntime) -> Result<(), Fail> {
    let alloc = rt.alloc();
    for &words in &AN_IMAGE_ASKS_FOR_A_REPORT_CASES {
        assert!(rt;
            refused_so(alloc, words, 110, "mssp: usage\n")?,
            "{words:?}"
        );
    }
    Ok(())
}

static FILES_ARE_WANTING_OR_REFUSED_IN_THEIR_ORDER_CASES: [(&[&str], u8, &str); 4] = [
    (
        &["run", "q", "--image", "q", "--report", "r"],
        111,
        "mssp: absent q\n",
    ),
    (
        &["run", "p", "--input", "k", "--image", "q", "--report", "r"],
        111,
        "mssp: absent q\n",
    ),
    (
        &["run", "p", "--input", "k", "--image", "i", "--report", "r"],
        117,
        "mssp: image i: short\n",
    ),
    (
        &["run", "p", "--input", "k", "--image", "m", "--report", "r"],
        111,
        "mssp: absent k\n",
    ),
];

#[test]
fn files_are_wanting_or_refused_in_their_order(rt: HostRuntime) -> Result<(), Fail> {
    let alloc = rt.alloc();
    for &(words, status, line) in &FILES_ARE_WANTING_OR_REFUSED_IN_THEIR_ORDER_CASES {
        assert!(rt; refused_so(alloc, words, status, line)?, "{words:?}");
    }
    Ok(())
}

#[test]
fn a_report_that_is_not_written_is_told(rt: HostRuntime) -> Result<(), Fail> {
    let alloc = rt.alloc();
    let wanted = ("hi\n", 112, "mssp: store fault r\n");
    let fails = Fails { store: 3, ..SURE };
    assert!(rt; no_report_so(alloc, BESIDE, &HELLO_AND_BREAK, fails, wanted)?);
    let fails = Fails { store: 2, ..SURE };
    assert!(rt; no_report_so(alloc, ALONE, &HELLO_AND_BREAK, fails, wanted)?);
    Ok(())
}

#[test]
fn no_report_is_written_behind_a_sink_fault(rt: HostRuntime) -> Result<(), Fail> {
    let fails = Fails { out: 2, ..SURE };
    let wanted = ("hi\n", 113, "mssp: sink fault\n");
    assert!(rt; no_report_so(rt.alloc(), BESIDE, &HELLO_TWICE, fails, wanted)?);
    Ok(())
}

/// Whether a program runs beside an image so.
fn runs_so(
    alloc: Global,
    image: &[u32],
    program: &[u32],
    out: &str,
    status: u8,
    line: &str,
) -> Result<bool, AllocError> {
    let words = [
        "run", "p", "--image", "m", "--input", "i", "--report", "r", "--slaves", "3",
    ];
    let left = perform_beside(alloc, &words, program, image, b"", SURE)?;
    Ok(left_so(&left, out, status, line))
}

/// A program, and the bytes, the status and the line that its run leaves.
type Case = (&'static [u32], &'static str, u8, &'static str);

/// Whether programs run beside an image so.
fn all_run_so(alloc: Global, image: &[u32], cases: &[Case]) -> Result<bool, AllocError> {
    let mut so = true;
    for &(program, out, status, line) in cases {
        so = so && runs_so(alloc, image, program, out, status, line)?;
    }
    Ok(so)
}

/// Whether these programs run beside an image as they run without one.
fn run_as_alone(alloc: Global, image: &[u32]) -> Result<bool, AllocError> {
    let cases: [Case; 7] = [
        (&HELLO_TWICE, "hi\nhi\n", 0, ""),
        (&READ_TWICE, "", 48, ""),
        (&TEN_TURNS_LOOP, "", 0, ""),
        (&REWRITES_ITSELF, "", 9, ""),
        (&WRAP, "", 2, ""),
        (&HELLO_AND_BREAK, "hi\n", 121, "mssp: trap 00010018 break\n"),
        (
            &MISFETCH,
            "",
            121,
            "mssp: trap 00010008 misfetch 00010002\n",
        ),
    ];
    all_run_so(alloc, image, &cases)
}

/// Whether those programs run so beside each of these images.
fn all_change_no_run(alloc: Global, images: &[&[u32]]) -> Result<bool, AllocError> {
    let mut so = true;
    for image in images {
        so = so && run_as_alone(alloc, image)?;
    }
    Ok(so)
}

#[test]
fn images_made_by_hand_change_no_run(rt: HostRuntime) -> Result<(), Fail> {
    let images: [&[u32]; 6] = [
        &TEN_TURNS,
        &EXIT_7_CALL,
        &WRONG_ANCHOR,
        &COUNTER,
        &REWRITTEN,
        &COMPARE_NEVER_TRUE,
    ];
    assert!(rt; all_change_no_run(rt.alloc(), &images)?);
    Ok(())
}

#[test]
fn hostile_images_change_no_run(rt: HostRuntime) -> Result<(), Fail> {
    let images: [&[u32]; 4] = [
        &FORKS_AT_ONE_PC,
        &JUMPS_INTO_NOWHERE,
        &NO_SLOTS,
        &NEVER_FORKS,
    ];
    assert!(rt; all_change_no_run(rt.alloc(), &images)?);
    Ok(())
}

#[test]
fn images_of_other_programs_change_no_run(rt: HostRuntime) -> Result<(), Fail> {
    let images: [&[u32]; 4] = [&OTHER_NOTES, &WRONG_WORDS, &WRONG_PCS, &SHORT_TASKS];
    assert!(rt; all_change_no_run(rt.alloc(), &images)?);
    Ok(())
}
