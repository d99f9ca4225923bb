//! Commands whose bytes and statuses are known from outside.

use crate::left::{leaves_so, set};
use command_fixtures::outside_world::{Fails, Left, SURE, perform};
use std::alloc::{AllocError, Global};
use std::test::Fail;
use test_programs::programs::*;

const RUN: &[&str] = &["run", "p"];

const RUN_WITH_INPUT: &[&str] = &["run", "p", "--input", "i"];

const BUDGET_AND_INPUT: &[&str] = &["run", "p", "--budget", "3", "--input", "i"];

/// Whether a command over this program and the input `abc` leaves these bytes, this status and this line.
fn runs_so(
    alloc: Global,
    words: &[&str],
    program: &[u32],
    out: &str,
    status: u8,
    line: &str,
) -> Result<bool, AllocError> {
    let input = b"abc".to_vec(alloc)?;
    let program = frame(alloc, program)?;
    leaves_so(alloc, words, program, input, SURE, (out, status, line))
}

/// Whether a run of this program leaves these bytes and this status, and no line.
fn ends_so(alloc: Global, program: &[u32], out: &str, status: u8) -> Result<bool, AllocError> {
    runs_so(alloc, RUN, program, out, status, "")
}

/// Whether a run of this program is told to meet this trap behind these bytes.
fn traps_so(alloc: Global, program: &[u32], out: &str, line: &str) -> Result<bool, AllocError> {
    runs_so(alloc, RUN, program, out, 121, line)
}

/// Whether a run of this program through this budget leaves these bytes.
fn spends_so(alloc: Global, program: &[u32], budget: &str, out: &str) -> Result<bool, AllocError> {
    let words = ["run", "p", "--budget", budget];
    runs_so(alloc, &words, program, out, 120, "mssp: budget\n")
}

/// Whether programs that end do so.
fn programs_end(alloc: Global) -> Result<bool, AllocError> {
    Ok(
        ends_so(alloc, &HELLO, "hi\n", 0)?
            && ends_so(alloc, &EXIT_7, "", 7)?
            && ends_so(alloc, &HELLO_TWICE, "hi\nhi\n", 0)?
            && ends_so(alloc, &WRAP, "", 2)?
            && ends_so(alloc, &READ_TWICE, "", 0)?
            && ends_so(alloc, &EXIT_511, "", 255)?
            && ends_so(alloc, &EXIT_120, "", 120)?
            && ends_so(alloc, &EXIT_GROUP, "", 5)?
            && ends_so(alloc, &UNKNOWN_CALL, "", 218)?
            && ends_so(alloc, &LOW_BREAK, "", 17)?
            && ends_so(alloc, &HIGH_BREAK, "", 112)?
            && ends_so(alloc, &TOO_HIGH_BREAK, "", 17)?,
    )
}

/// Whether programs that meet a trap do so.
fn programs_trap(alloc: Global) -> Result<bool, AllocError> {
    Ok(
        traps_so(
            alloc,
            &HELLO_AND_BREAK,
            "hi\n",
            "mssp: trap 00010018 break\n",
        )? && traps_so(alloc, &[0x00100073], "", "mssp: trap 00010000 break\n")?
            && traps_so(alloc, &[0], "", "mssp: trap 00010000 illegal 00000000\n")?
            && traps_so(
                alloc,
                &[0x0000ABCF],
                "",
                "mssp: trap 00010000 illegal 0000abcf\n",
            )?
            && traps_so(
                alloc,
                &MISFETCH,
                "",
                "mssp: trap 00010008 misfetch 00010002\n",
            )?,
    )
}

/// Whether programs use up their budget, or end before they have.
fn budgets_are_kept(alloc: Global) -> Result<bool, AllocError> {
    Ok(
        spends_so(alloc, &EXIT_7, "2", "")?
            && spends_so(alloc, &HELLO, "5", "")?
            && spends_so(alloc, &HELLO, "6", "hi\n")?
            && runs_so(alloc, &["run", "p", "--budget", "3"], &EXIT_7, "", 7, "")?
            && runs_so(alloc, BUDGET_AND_INPUT, &EXIT_7, "", 7, "")?,
    )
}

#[test]
fn runs_to_an_end_or_through_the_budget(rt: HostRuntime) -> Result<(), Fail> {
    let alloc = rt.alloc();
    assert!(rt; programs_end(alloc)?);
    assert!(rt; programs_trap(alloc)?);
    assert!(rt; budgets_are_kept(alloc)?);
    assert!(rt; runs_so(alloc, RUN_WITH_INPUT, &READ_TWICE, "", 48, "")?);
    Ok(())
}

/// Whether a command left these bytes and the status 1, and no line.
fn left_all(left: &Left, bytes: &[u8]) -> bool {
    left.status == 1 && left.out.as_slice() == bytes && left.err.is_empty()
}

/// Whether 65,536 of the 70,000 zeros that a program asks to write are put, and nothing else.
fn writes_65_536(alloc: Global) -> Result<bool, AllocError> {
    let zeros = vec![in alloc; 0u8; 65_536]?;
    let program = frame(alloc, &WRITE_70_000)?;
    let left = perform(alloc, RUN, program, Vec::new(alloc), SURE)?;
    Ok(left_all(&left, &zeros))
}

#[test]
fn a_write_takes_65_536_bytes_at_most(rt: HostRuntime) -> Result<(), Fail> {
    assert!(rt; writes_65_536(rt.alloc())?);
    Ok(())
}

static OTHER_WORDS_ARE_NO_COMMAND_CASES: [&[&str]; 28] = [
    &[],
    &[""],
    &["p"],
    &["run"],
    &["run", ""],
    &["Run", "p"],
    &["run", "p", "p"],
    &["run", "p", "--slaves", "65"],
    &["run", "p", "--image", "i"],
    &["run", "p", "--budget"],
    &["run", "p", "--budget", "0"],
    &["run", "p", "--budget", "03"],
    &["run", "p", "--budget", "+3"],
    &["run", "p", "--budget", "3 "],
    &["run", "p", "--budget", "1000000000001"],
    &["run", "p", "--budget", "3", "--budget", "3"],
    &["run", "p", "--input", ""],
    &["run", "p", "--input", "i", "--input", "i"],
    &["run", "p", "--inputs", "i"],
    &["--budget", "3", "run", "p"],
    &["show"],
    &["show", ""],
    &["show", "p", "p"],
    &["show", "p", "--input", "i"],
    &["replay", "p", "m"],
    &["replay", "p", "m", ""],
    &["replay", "p", "m", "e", "--slaves", "65"],
    &["replay", "p", "m", "e", "--budget", "1"],
];

/// Whether these words are told to be no command.
fn no_command(alloc: Global, words: &[&str]) -> Result<bool, AllocError> {
    let program = frame(alloc, &HELLO)?;
    leaves_so(
        alloc,
        words,
        program,
        Vec::new(alloc),
        SURE,
        ("", 110, "mssp: usage\n"),
    )
}

#[test]
fn other_words_are_no_command(rt: HostRuntime) -> Result<(), Fail> {
    let alloc = rt.alloc();
    for &words in &OTHER_WORDS_ARE_NO_COMMAND_CASES {
        assert!(rt; no_command(alloc, words)?, "{words:?}");
    }
    Ok(())
}

static A_REFUSED_PROGRAM_IS_TOLD_BY_ITS_FIRST_FAULT_CASES: [(usize, usize, u32, u8, &str); 25] = [
    (0, 0, 0x464C457F, 116, "mssp: program p: short\n"),
    (51, 0, 0x464C457F, 116, "mssp: program p: short\n"),
    (96, 0, 0x464C4500, 116, "mssp: program p: magic\n"),
    (96, 1, 0x00010102, 116, "mssp: program p: class\n"),
    (96, 1, 0x00010201, 116, "mssp: program p: endian\n"),
    (96, 1, 0x00020101, 116, "mssp: program p: version\n"),
    (96, 4, 0x00F30003, 116, "mssp: program p: kind\n"),
    (96, 4, 0x00F40002, 116, "mssp: program p: machine\n"),
    (96, 9, 1, 116, "mssp: program p: flags\n"),
    (96, 9, 16, 7, ""),
    (96, 6, 0x00010002, 116, "mssp: program p: entry\n"),
    (83, 9, 0, 116, "mssp: program p: table\n"),
    (96, 10, 0x00210034, 116, "mssp: program p: table\n"),
    (96, 7, 65, 116, "mssp: program p: table\n"),
    (96, 11, 65, 116, "mssp: program p: table\n"),
    (2_132, 11, 65, 116, "mssp: program p: too many\n"),
    (2_100, 11, 64, 7, ""),
    (96, 13, 3, 116, "mssp: program p: interp\n"),
    (84, 9, 0, 116, "mssp: program p: outside 0\n"),
    (95, 9, 0, 116, "mssp: program p: outside 0\n"),
    (96, 14, 85, 116, "mssp: program p: outside 0\n"),
    (96, 18, 11, 116, "mssp: program p: larger 0\n"),
    (96, 18, 0xFFFE_F001, 116, "mssp: program p: wraps 0\n"),
    (96, 18, 0xFFFE_F000, 7, ""),
    (
        96,
        15,
        0xFFFF_EFF4,
        121,
        "mssp: trap 00010000 illegal 00000000\n",
    ),
];

/// The words of a program with this word at a place.
fn with_word(alloc: Global, place: usize, word: u32) -> Result<Vec<u32>, AllocError> {
    let mut words = framed(alloc, &EXIT_7)?;
    set(&mut words, place, word);
    Ok(words)
}

/// A program of this length with this word at a place.
fn changed(alloc: Global, length: usize, place: usize, word: u32) -> Result<Vec<u8>, AllocError> {
    let words = with_word(alloc, place, word)?;
    let mut program = bytes_of(alloc, &words)?;
    program.resize(length, 0)?;
    Ok(program)
}

/// Whether a run of that program puts nothing and leaves this status and line.
fn refused_so(
    alloc: Global,
    length: usize,
    place: usize,
    word: u32,
    status: u8,
    line: &str,
) -> Result<bool, AllocError> {
    let program = changed(alloc, length, place, word)?;
    leaves_so(
        alloc,
        RUN,
        program,
        Vec::new(alloc),
        SURE,
        ("", status, line),
    )
}

#[test]
fn a_refused_program_is_told_by_its_first_fault(rt: HostRuntime) -> Result<(), Fail> {
    let alloc = rt.alloc();
    // the length of the file, and one of its words with what is put in its place
    for &(
        length,
        place,
        word,
        status,
        line,
    ) in &A_REFUSED_PROGRAM_IS_TOLD_BY_ITS_FIRST_FAULT_CASES {
        assert!(rt;
            refused_so(alloc, length, place, word, status, line)?,
            "{length} {place} {word:08x}"
        );
    }
    Ok(())
}

/// Whether a beginning of this length puts nothing and leaves this status and line.
fn beginning_so(alloc: Global, length: usize, status: u8, line: &str) -> Result<bool, AllocError> {
    let mut program = bytes_of(alloc, &THREE_HEADERS)?;
    program.truncate(length);
    leaves_so(
        alloc,
        RUN,
        program,
        Vec::new(alloc),
        SURE,
        ("", status, line),
    )
}

#[test]
fn each_beginning_of_a_file_is_refused(rt: HostRuntime) -> Result<(), Fail> {
    let alloc = rt.alloc();
    for length in 0..=160 {
        let (status, line) = match length {
            0..=51 => (116, "mssp: program p: short\n"),
            52..=147 => (116, "mssp: program p: table\n"),
            148..=159 => (116, "mssp: program p: outside 1\n"),
            _ => (7, ""),
        };
        assert!(rt; beginning_so(alloc, length, status, line)?, "{length}");
    }
    Ok(())
}

// the length of the program, which is of zeros where it isn't 96, and of the input
static FILES_ARE_READ_IN_ORDER_UP_TO_THEIR_LIMITS_CASES: [(&[&str], usize, usize, u8, &str); 7] = [
    (ABSENT, 96, 0, 111, "mssp: absent nowhere\n"),
    (NO_INPUT, 96, 0, 111, "mssp: absent naïve file\n"),
    (NO_INPUT, 95, 0, 116, "mssp: program p: magic\n"),
    (NO_INPUT, 16_777_217, 0, 115, "mssp: too long p\n"),
    (RUN, 16_777_216, 0, 116, "mssp: program p: magic\n"),
    (RUN_WITH_INPUT, 96, 67_108_865, 115, "mssp: too long i\n"),
    (&["show", "nowhere"], 96, 0, 111, "mssp: absent nowhere\n"),
];

const ABSENT: &[&str] = &["run", "nowhere"];

const NO_INPUT: &[&str] = &["run", "p", "--input", "naïve file"];

/// A program of this length.
fn program_of(alloc: Global, length: usize) -> Result<Vec<u8>, AllocError> {
    if length == 96 {
        return frame(alloc, &EXIT_7);
    }
    vec![in alloc; 0u8; length]
}

/// Whether a command over files of these lengths puts nothing and leaves this status and line.
fn lengths_so(
    alloc: Global,
    words: &[&str],
    program: usize,
    input: usize,
    status: u8,
    line: &str,
) -> Result<bool, AllocError> {
    let program = program_of(alloc, program)?;
    let input = vec![in alloc; 0u8; input]?;
    leaves_so(alloc, words, program, input, SURE, ("", status, line))
}

#[test]
fn files_are_read_in_order_up_to_their_limits(rt: HostRuntime) -> Result<(), Fail> {
    let alloc = rt.alloc();
    for &(
        words,
        program,
        input,
        status,
        line,
    ) in &FILES_ARE_READ_IN_ORDER_UP_TO_THEIR_LIMITS_CASES {
        assert!(rt;
            lengths_so(alloc, words, program, input, status, line)?,
            "{line}"
        );
    }
    Ok(())
}

// the numbers of the calls of the store, the output and the line that fail
static EACH_FAULT_HAS_ITS_STATUS_AND_LINE_CASES: [(&[&str], [u64; 3], &str, u8, &str); 12] = [
    (RUN_WITH_INPUT, [1, 0, 0], "", 112, "mssp: store fault p\n"),
    (RUN_WITH_INPUT, [2, 0, 0], "", 112, "mssp: store fault i\n"),
    (RUN_WITH_INPUT, [3, 0, 0], "hi\nhi\n", 0, ""),
    (RUN, [2, 0, 0], "hi\nhi\n", 0, ""),
    (RUN, [0, 1, 0], "", 113, "mssp: sink fault\n"),
    (RUN, [0, 2, 0], "hi\n", 113, "mssp: sink fault\n"),
    (RUN, [0, 3, 0], "hi\nhi\n", 0, ""),
    (RUN, [1, 1, 0], "", 112, "mssp: store fault p\n"),
    (RUN, [1, 0, 1], "", 112, ""),
    (RUN, [0, 2, 1], "hi\n", 113, ""),
    (RUN, [0, 0, 1], "hi\nhi\n", 0, ""),
    (&["run"], [1, 1, 1], "", 110, ""),
];

/// Whether a command over a program that puts two lines leaves this where these calls fail.
fn faults_so(
    alloc: Global,
    words: &[&str],
    fails: Fails,
    put: &str,
    status: u8,
    line: &str,
) -> Result<bool, AllocError> {
    let program = frame(alloc, &HELLO_TWICE)?;
    leaves_so(
        alloc,
        words,
        program,
        Vec::new(alloc),
        fails,
        (put, status, line),
    )
}

#[test]
fn each_fault_has_its_status_and_line(rt: HostRuntime) -> Result<(), Fail> {
    let alloc = rt.alloc();
    for &(
        words,
        [store, out, err],
        put,
        status,
        line,
    ) in &EACH_FAULT_HAS_ITS_STATUS_AND_LINE_CASES {
        let fails = Fails { store, out, err };
        assert!(rt;
            faults_so(alloc, words, fails, put, status, line)?,
            "{words:?} {store} {out} {err}"
        );
    }
    Ok(())
}
