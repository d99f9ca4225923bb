//! Runs that adapt: an image is made anew of the run so far.

use crate::commands::{left_so, reported_so};
use command_fixtures::outside_world::{Left, SURE, perform};
use std::alloc::{AllocError, Global};
use std::test::Fail;
use test_programs::programs::*;

/// Performs a command over a program alone.
fn run(alloc: Global, words: &[&str], program: &[u32]) -> Result<Left, AllocError> {
    perform(alloc, words, frame(alloc, program)?, Vec::new(alloc), SURE)
}

/// The options of a run that adapts, which are after how many steps an image is due, the number of slaves,
/// and the budget; its status, and its report.
type Case = ([&'static str; 3], u8, &'static str);

/// One for each program of the test, in its order.
static CASES: [Case; 8] = [
    (
        ["5", "4", "1000"],
        0,
        "position 24\ntasks 1\nby-tasks 18\nserial 6\nsquashed 0\ndropped 0\nend exit 0\noutput 0\n",
    ),
    (
        ["1", "4", "1000"],
        0,
        "position 24\ntasks 1\nby-tasks 18\nserial 6\nsquashed 0\ndropped 0\nend exit 0\noutput 0\n",
    ),
    (
        ["1", "4", "1000"],
        7,
        "position 3\ntasks 0\nby-tasks 0\nserial 3\nsquashed 0\ndropped 0\nend exit 7\noutput 0\n",
    ),
    (
        ["7", "4", "1000"],
        0,
        "position 45\ntasks 1\nby-tasks 35\nserial 10\nsquashed 0\ndropped 0\nend exit 0\noutput 0\n",
    ),
    (
        ["50", "4", "500"],
        120,
        "position 565\ntasks 2\nby-tasks 512\nserial 53\nsquashed 0\ndropped 0\nend none\noutput 0\n",
    ),
    (
        ["50", "1", "500"],
        120,
        "position 565\ntasks 2\nby-tasks 512\nserial 53\nsquashed 0\ndropped 0\nend none\noutput 0\n",
    ),
    (
        ["20", "4", "1000"],
        0,
        "position 74\ntasks 1\nby-tasks 53\nserial 21\nsquashed 0\ndropped 0\nend exit 0\noutput 10\n",
    ),
    (
        ["2", "4", "1000"],
        9,
        "position 6\ntasks 0\nby-tasks 0\nserial 6\nsquashed 0\ndropped 0\nend exit 9\noutput 0\n",
    ),
];

/// Whether a run of a program that adapts by the options of a case comes to what it says.
fn adapts_so(alloc: Global, program: &[u32], case: &Case) -> Result<bool, AllocError> {
    let ([every, slaves, budget], status, report) = *case;
    let words = [
        "run", "p", "--adapt", every, "--slaves", slaves, "--budget", budget, "--report", "r",
    ];
    let left = run(alloc, &words, program)?;
    Ok(reported_so(&left, status, report.as_bytes()))
}

#[test]
fn an_image_is_made_of_the_run_so_far(rt: HostRuntime) -> Result<(), Fail> {
    let alloc = rt.alloc();
    let programs: [&[u32]; 8] = [
        &TEN_TURNS_LOOP,
        &TEN_TURNS_LOOP,
        &EXIT_7,
        &COMPARE_LOOP,
        &COUNT_WITHOUT_END,
        &COUNT_WITHOUT_END,
        &PRINTS_TEN,
        &REWRITES_ITSELF,
    ];
    for (program, case) in programs.iter().zip(&CASES) {
        assert!(rt; adapts_so(alloc, program, case)?, "{:?}", case.0);
    }
    Ok(())
}

/// Whether a run that adapts leaves the ten bytes that its program prints.
fn prints_ten(alloc: Global) -> Result<bool, AllocError> {
    let words = ["run", "p", "--adapt", "20", "--report", "r"];
    let left = run(alloc, &words, &PRINTS_TEN)?;
    Ok(left_so(&left, &[0x93; 10], 0, ""))
}

#[test]
fn tasks_of_a_run_that_adapts_print(rt: HostRuntime) -> Result<(), Fail> {
    assert!(rt; prints_ten(rt.alloc())?);
    Ok(())
}

static NO_COMMANDS: [&[&str]; 3] = [
    &["run", "p", "--adapt", "5"],
    &["run", "p", "--adapt", "0", "--report", "r"],
    &["run", "p", "--adapt", "1000000001", "--report", "r"],
];

/// Whether these words are told to be no command.
fn is_no_command(alloc: Global, words: &[&str]) -> Result<bool, AllocError> {
    let left = run(alloc, words, &TEN_TURNS_LOOP)?;
    Ok(left_so(&left, b"", 110, "mssp: usage\n"))
}

#[test]
fn a_run_that_adapts_asks_for_a_report(rt: HostRuntime) -> Result<(), Fail> {
    let alloc = rt.alloc();
    for &words in &NO_COMMANDS {
        assert!(rt; is_no_command(alloc, words)?, "{words:?}");
    }
    Ok(())
}
