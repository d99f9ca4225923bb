//! Words as a new user would try them.

use command_line::{Command, Distill, Replay, Run, RunOptions, read_command};
use std::alloc::{AllocError, Global};
use std::test::Fail;

/// Appends words, which stand with commas between them.
fn push_words(alloc: Global, words: &mut Vec<String>, more: &str) -> Result<(), AllocError> {
    for word in more.split(',') {
        words.push(String::from_str(alloc, word)?)?;
    }
    Ok(())
}

/// The words of a command: those that it begins with, and its options, if it has any.
fn words_of(alloc: Global, head: &str, options: &str) -> Result<Vec<String>, AllocError> {
    let mut words = Vec::new(alloc);
    push_words(alloc, &mut words, head)?;
    if !options.is_empty() {
        push_words(alloc, &mut words, options)?;
    }
    Ok(words)
}

/// Whether these words are this command.
fn is_read(
    alloc: Global,
    head: &str,
    options: &str,
    want: Option<Command<'_>>,
) -> Result<bool, AllocError> {
    let words = words_of(alloc, head, options)?;
    Ok(read_command(&words) == want)
}

static READS_COMMANDS_CASES: [(&str, &str, Option<&str>, u64); 9] = [
    ("run,p", "p", None, 1_000_000_000),
    ("run,p,--input,f", "p", Some("f"), 1_000_000_000),
    ("run,p,--budget,1", "p", None, 1),
    ("run,p,--budget,1000000000000", "p", None, 1_000_000_000_000),
    ("run,p,--input,f,--budget,20", "p", Some("f"), 20),
    ("run,p,--budget,20,--input,f", "p", Some("f"), 20),
    ("run,--input", "--input", None, 1_000_000_000),
    (
        "run,--budget,--input,--budget",
        "--budget",
        Some("--budget"),
        1_000_000_000,
    ),
    ("run,run,--input,a b", "run", Some("a b"), 1_000_000_000),
];

#[test]
fn reads_commands(rt: HostRuntime) -> Result<(), Fail> {
    for &(texts, program, input, budget) in &READS_COMMANDS_CASES {
        let want = Command::Run(Run {
            program,
            image: None,
            input,
            report: None,
            slaves: 4,
            budget,
            adapt: None,
        });
        assert!(rt; is_read(rt.alloc(), texts, "", Some(want))?, "at {texts:?}");
    }
    Ok(())
}

static READS_RUNS_WITH_A_REPORT_CASES: [(&str, Option<&str>, Option<&str>, u8, Option<u64>); 8] = [
    ("--report,r", None, Some("r"), 4, None),
    ("--slaves,64", None, None, 64, None),
    ("--slaves,1,--report,r", None, Some("r"), 1, None),
    ("--image,i,--report,r", Some("i"), Some("r"), 4, None),
    ("--report,r,--image,r", Some("r"), Some("r"), 4, None),
    ("--adapt,1,--report,r", None, Some("r"), 4, Some(1)),
    (
        "--report,r,--image,i,--adapt,1000000000",
        Some("i"),
        Some("r"),
        4,
        Some(1_000_000_000),
    ),
    (
        "--report,--image,--image,--report,--slaves,9",
        Some("--report"),
        Some("--image"),
        9,
        None,
    ),
];

#[test]
fn reads_runs_with_a_report(rt: HostRuntime) -> Result<(), Fail> {
    for &(options, image, report, slaves, adapt) in &READS_RUNS_WITH_A_REPORT_CASES {
        let want = Command::Run(Run {
            program: "p",
            image,
            input: None,
            report,
            slaves,
            budget: 1_000_000_000,
            adapt,
        });
        assert!(rt;
            is_read(rt.alloc(), "run,p", options, Some(want))?,
            "at {options:?}"
        );
    }
    Ok(())
}

static NAMES_OF_IMAGES: [&str; 4] = ["f", "show", "--input", "a b"];

#[test]
fn reads_the_name_of_an_image(rt: HostRuntime) -> Result<(), Fail> {
    for &image in &NAMES_OF_IMAGES {
        assert!(rt; is_read(rt.alloc(), "show", image, Some(Command::Show { image }))?);
    }
    Ok(())
}

static READS_CERTIFICATES_CASES: [(&str, &str, &str); 3] = [
    ("p,i", "p", "i"),
    ("certify,--input", "certify", "--input"),
    ("a b,a b", "a b", "a b"),
];

#[test]
fn reads_the_names_to_certify(rt: HostRuntime) -> Result<(), Fail> {
    for &(names, program, image) in &READS_CERTIFICATES_CASES {
        let want = Command::Certify { program, image };
        assert!(rt; is_read(rt.alloc(), "certify", names, Some(want))?);
    }
    Ok(())
}

static READS_REPLAYS_CASES: [(&str, Option<&str>, u8); 5] = [
    ("", None, 4),
    ("--slaves,1", None, 1),
    ("--slaves,64", None, 64),
    ("--input,f", Some("f"), 4),
    ("--slaves,20,--input,--slaves", Some("--slaves"), 20),
];

#[test]
fn reads_replays(rt: HostRuntime) -> Result<(), Fail> {
    for &(options, input, slaves) in &READS_REPLAYS_CASES {
        let want = Command::Replay(Replay {
            program: "p",
            image: "i",
            events: "--input",
            input,
            slaves,
        });
        assert!(rt;
            is_read(rt.alloc(), "replay,p,i,--input", options, Some(want))?,
            "at {options:?}"
        );
    }
    Ok(())
}

static READS_PROFILES_AND_CHECKS_CASES: [(&str, Option<&str>, u64); 6] = [
    ("", None, 1_000_000_000),
    ("--input,f", Some("f"), 1_000_000_000),
    ("--budget,1", None, 1),
    ("--budget,1000000000000", None, 1_000_000_000_000),
    ("--input,f,--budget,45", Some("f"), 45),
    ("--budget,45,--input,--budget", Some("--budget"), 45),
];

/// Whether a profile, a check and values are read so with these options.
fn are_read(alloc: Global, options: &str, walk: &RunOptions<'_>) -> Result<bool, AllocError> {
    let profile = Command::Profile {
        walk: *walk,
        calls: false,
    };
    Ok(
        is_read(alloc, "profile,p,--input", options, Some(profile))?
            && is_read(
                alloc,
                "check,p,--input",
                options,
                Some(Command::Check(*walk)),
            )?
            && is_read(
                alloc,
                "values,p,--input",
                options,
                Some(Command::Values(*walk)),
            )?,
    )
}

#[test]
fn reads_profiles_and_checks(rt: HostRuntime) -> Result<(), Fail> {
    for &(options, input, budget) in &READS_PROFILES_AND_CHECKS_CASES {
        let walk = RunOptions {
            program: "p",
            other: "--input",
            input,
            budget,
        };
        assert!(rt; are_read(rt.alloc(), options, &walk)?, "at {options:?}");
    }
    Ok(())
}

static READS_CALLS_CASES: [(&str, Option<bool>); 6] = [
    ("", Some(false)),
    ("--calls,0", Some(false)),
    ("--calls,1", Some(true)),
    ("--calls,2", None),
    ("--calls,01", None),
    ("--calls,1,--calls,1", None),
];

/// Whether a profile with these options counts calls, if it is read.
fn counts_calls(alloc: Global, options: &str) -> Result<Option<bool>, AllocError> {
    let words = words_of(alloc, "profile,p,f", options)?;
    Ok(match read_command(&words) {
        Some(Command::Profile { calls, .. }) => Some(calls),
        _ => None,
    })
}

/// Whether a check with these options is read.
fn is_check(alloc: Global, options: &str) -> Result<bool, AllocError> {
    let words = words_of(alloc, "check,p,f", options)?;
    Ok(read_command(&words).is_some())
}

#[test]
fn reads_whether_calls_are_counted(rt: HostRuntime) -> Result<(), Fail> {
    for &(options, want) in &READS_CALLS_CASES {
        assert!(rt;
            counts_calls(rt.alloc(), options)? == want,
            "at {options:?}"
        );
        assert!(rt;
            is_check(rt.alloc(), options)? == options.is_empty(),
            "check at {options:?}"
        );
    }
    Ok(())
}

static READS_DISTILLATIONS_CASES: [(&str, Option<&str>, u32, u64, u32, u32); 7] = [
    ("", None, 10, 2, 200, 4_096),
    ("--values,v", Some("v"), 10, 2, 200, 4_096),
    ("--rare,0,--hot,1", None, 0, 1, 200, 4_096),
    ("--goal,1,--limit,16", None, 10, 2, 1, 16),
    (
        "--goal,1,--values,--goal,--limit,16",
        Some("--goal"),
        10,
        2,
        1,
        16,
    ),
    ("--limit,16384,--rare,100", None, 100, 2, 200, 16_384),
    (
        "--hot,1000000000000,--goal,65536",
        None,
        10,
        1_000_000_000_000,
        65_536,
        4_096,
    ),
];

#[test]
fn reads_distillations(rt: HostRuntime) -> Result<(), Fail> {
    for &(options, values, rare, hot, goal, limit) in &READS_DISTILLATIONS_CASES {
        let want = Command::Distill(Distill {
            program: "p",
            profile: "f",
            output: "--rare",
            values,
            rare,
            hot,
            goal,
            limit,
        });
        assert!(rt;
            is_read(rt.alloc(), "distill,p,f,--rare", options, Some(want))?,
            "at {options:?}"
        );
    }
    Ok(())
}

/// Words that are no command, those of one line each; the first line is one empty word.
const REFUSED: &str = "
run
run,
Run,p
runs,p
ru,p
p,run
--budget,1,run,p
run,--input,f,p
run,p,q
run,p,--input
run,p,--input,
run,p,--input=f
run,p,--inputs,f
run,p,-input,f
run,p,--INPUT,f
run,p,,f
run,p,--input,f,--input,f
run,p,--budget,1,--input,f,--budget,1
run,p,--budget
run,p,--budget,
run,p,--budget,0
run,p,--budget,01
run,p,--budget,+1
run,p,--budget,-1
run,p,--budget,1000000000001
run,p,--budget,18446744073709551617
run,p,--budget,100000000000000000001
run,p,--budget,f,--input,1
run,p,--input,f,--budget,1,more
run,p,--image,i
run,p,--adapt,5
run,p,--adapt,0,--report,r
run,p,--adapt,1000000001,--report,r
run,p,--image,,--report,r
run,p,--image,i,--report,
run,p,--slaves,0
run,p,--slaves,65
show
show,
show,f,g
show,f,--input,g
shows,f
replay
replay,p
replay,p,i
replay,,i,e
replay,p,,e
replay,p,i,
replay,p,i,e,--slaves
replay,p,i,e,--slaves,0
replay,p,i,e,--slaves,65
replay,p,i,e,--slaves,04
replay,p,i,e,--slaves,4,--slaves,4
replay,p,i,e,--budget,1
profile,p
profile,,o
profile,p,
profile,p,o,--budget,0
profile,p,o,--budget,1000000000001
profile,p,o,--slaves,4
check,p
check,p,i,--report,r
check,p,i,--budget,1,--budget,1
certify
certify,p
certify,,i
certify,p,
certify,p,i,o
certify,p,i,--input,f
certify,p,i,--budget,1
certifies,p,i
values,p
values,,o
values,p,
values,p,o,--budget,0
values,p,o,--calls,1
values,p,o,--values,v
value,p,o
distill,p,f
distill,,f,o
distill,p,,o
distill,p,f,
distill,p,f,o,--values
distill,p,f,o,--values,
distill,p,f,o,--values,v,--values,v
distill,p,f,o,--rare,101
distill,p,f,o,--hot,0
distill,p,f,o,--hot,1000000000001
distill,p,f,o,--goal,0
distill,p,f,o,--goal,65537
distill,p,f,o,--limit,15
distill,p,f,o,--limit,16385
distill,p,f,o,--rare,00
distill,p,f,o,--input,i
";

#[test]
fn refuses_other_words(rt: HostRuntime) -> Result<(), Fail> {
    assert!(rt; read_command(&[]).is_none());
    for words in REFUSED.lines() {
        assert!(rt; is_read(rt.alloc(), words, "", None)?, "at {words:?}");
    }
    Ok(())
}
