//! The command `trial`.

use command_fixtures::outside_world::{Fails, SURE, perform};
use std::test::Fail;

/// The words of a trial, and lines that it puts in this order.
type Case = (&'static [&'static str], &'static [&'static str]);

static CASES: [Case; 6] = [
    (
        &["trial", "0", "1"],
        &[
            "words 25",
            "steps 376",
            "analysed 25",
            "check met 376",
            "events 2550",
        ],
    ),
    (
        &["trial", "3", "1"],
        &[
            "words 23",
            "steps 212",
            "analysed 23",
            "check met 212",
            "events 2227",
        ],
    ),
    (
        &["trial", "1", "20"],
        &[
            "words 168",
            "steps 3791",
            "analysed 168",
            "check met 3791",
            "events 13099",
            "tasks 19",
        ],
    ),
    (
        &["trial", "2", "100"],
        &[
            "words 761",
            "steps 17464",
            "analysed 761",
            "check met 17464",
            "events 55539",
        ],
    ),
    (
        &["trial", "1", "100"],
        &["words ", "steps ", "analysed ", "check met "],
    ),
    (
        &["trial", "1", "2000"],
        &[
            "words 15185",
            "steps 344868",
            "analysed 15185",
            "slots 12898",
            "anchors 2002",
            "check met 344868",
            "events 1081680",
            "position 344868",
            "tasks 1575",
            "by-tasks 344864",
            "serial 4",
        ],
    ),
];

/// The last lines of each of them.
static LAST: &str = "squashed 0\ndropped 0\nend exit 0\noutput 24\n";

#[test]
fn a_trial_is_told_of(rt: HostRuntime) -> Result<(), Fail> {
    for &(words, lines) in &CASES {
        let left = perform(
            rt.alloc(),
            words,
            Vec::new(rt.alloc()),
            Vec::new(rt.alloc()),
            SURE,
        )?;
        assert_eq!(rt; (left.status, left.err.is_empty()), (0, true));
        let text = std::str::from_utf8(&left.out).unwrap_or("");
        let mut rest = text;
        for line in lines {
            let after = rest.split_once(*line);
            assert!(rt; after.is_some());
            rest = after.map_or("", |(_, after)| after);
        }
        assert!(rt; text.ends_with(LAST));
    }
    Ok(())
}

#[test]
fn a_trial_whose_text_is_not_put(rt: HostRuntime) -> Result<(), Fail> {
    let fails = Fails {
        store: 0,
        out: 1,
        err: 0,
    };
    let left = perform(
        rt.alloc(),
        &["trial", "0", "1"],
        Vec::new(rt.alloc()),
        Vec::new(rt.alloc()),
        fails,
    )?;
    assert_eq!(rt; left.status, 113);
    assert_eq!(rt; left.err.as_slice(), b"mssp: sink fault\n".as_slice());
    Ok(())
}

#[test]
fn other_numbers_are_no_trial(rt: HostRuntime) -> Result<(), Fail> {
    let cases: [&[&str]; 6] = [
        &["trial"],
        &["trial", "1"],
        &["trial", "1", "0"],
        &["trial", "1", "10001"],
        &["trial", "1000000000001", "1"],
        &["trial", "1", "1", "--budget"],
    ];
    for words in cases {
        let left = perform(
            rt.alloc(),
            words,
            Vec::new(rt.alloc()),
            Vec::new(rt.alloc()),
            SURE,
        )?;
        assert_eq!(rt; left.status, 110);
    }
    Ok(())
}
