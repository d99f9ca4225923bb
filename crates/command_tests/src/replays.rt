//! `replay`, over programs, images made by hand and lists of events.

use crate::left::{left_so, perform_beside, told_so};
use command_fixtures::outside_world::{Fails, Left, SURE};
use std::alloc::{AllocError, Global};
use std::test::Fail;
use test_programs::images::*;
use test_programs::programs::*;

const REPLAY: &[&str] = &["replay", "p", "m", "e"];

/// Whether a replay of these events over a program and an image leaves this text, and no line.
fn replays_so(
    alloc: Global,
    words: &[&str],
    program: &[u32],
    image: &[u32],
    events: &str,
    text: &str,
) -> Result<bool, AllocError> {
    let left = perform_beside(alloc, words, program, image, events.as_bytes(), SURE)?;
    Ok(left_so(&left, text, 0, ""))
}

const NOTHING: &str = "position 0
tasks 0
by-tasks 0
serial 0
squashed 0
dropped 0
end none
output 0
";

/// Whether a replay of these events over the loop of ten turns leaves this text.
fn ten_turns_so(alloc: Global, events: &str, text: &str) -> Result<bool, AllocError> {
    replays_so(alloc, REPLAY, &TEN_TURNS_LOOP, &TEN_TURNS, events, text)
}

#[test]
fn a_list_without_events_is_summed_up(rt: HostRuntime) -> Result<(), Fail> {
    let alloc = rt.alloc();
    assert!(rt; ten_turns_so(alloc, "", NOTHING)?);
    assert!(rt; ten_turns_so(alloc, "\n", NOTHING)?);
    assert!(rt; ten_turns_so(alloc, "# 1 serial\n\n#", NOTHING)?);
    Ok(())
}

const IDLE: &str = "idle
idle
idle
position 0
tasks 0
by-tasks 0
serial 0
squashed 0
dropped 0
end none
output 0
";

#[test]
fn commit_slave_and_master_are_idle_while_serial(rt: HostRuntime) -> Result<(), Fail> {
    assert!(rt; ten_turns_so(rt.alloc(), "1 commit\n1 slave 0\n1 master\n", IDLE)?);
    Ok(())
}

const SECOND_ANCHOR: &str = "idle
stepped
started 00010004
stepped
stepped
stepped
done reached
committed 4 dropped 0
moved
moved
moved
moved
moved
forked 1
position 5
tasks 1
by-tasks 4
serial 1
squashed 0
dropped 0
end none
output 0
";

#[test]
fn a_task_reaches_its_second_anchor(rt: HostRuntime) -> Result<(), Fail> {
    let events = "1 restart\n1 serial\n1 restart\n4 slave 0\n1 commit\n6 master\n";
    assert!(rt; ten_turns_so(rt.alloc(), events, SECOND_ANCHOR)?);
    Ok(())
}

const SQUASHED_BY_PC: &str = "stepped
started 00010004
stepped
done reached
moved
forked 1
committed 2 dropped 0
stepped
stepped
done met
squashed pc predicted 0001000c found 00010004
idle
stepped
stepped
started 00010004
position 5
tasks 1
by-tasks 2
serial 3
squashed 1
dropped 0
end none
output 0
";

#[test]
fn a_wrong_anchor_is_squashed_by_its_pc(rt: HostRuntime) -> Result<(), Fail> {
    let alloc = rt.alloc();
    let events = "1 serial\n1 restart\n2 slave 0\n2 master\n1 commit\n3 slave 1\n1 commit\n1 restart
2 serial\n1 restart\n";
    assert!(rt;
        replays_so(
            alloc,
            REPLAY,
            &TEN_TURNS_LOOP,
            &WRONG_ANCHOR,
            events,
            SQUASHED_BY_PC
        )?
    );
    Ok(())
}

const CALL_IS_MET: &str = "stepped
stepped
started 00010008
done met
committed 0 dropped 0
idle
ended exit 7
position 3
tasks 1
by-tasks 0
serial 3
squashed 0
dropped 0
end exit 7
output 0
";

#[test]
fn a_call_is_met_and_done_serially(rt: HostRuntime) -> Result<(), Fail> {
    let events = "2 serial\n1 restart\n1 slave 0\n1 commit\n1 restart\n1 serial\n";
    assert!(rt;
        replays_so(
            rt.alloc(),
            REPLAY,
            &EXIT_7,
            &EXIT_7_CALL,
            events,
            CALL_IS_MET
        )?
    );
    Ok(())
}

const SQUASHED_BY_COUNT: &str = "stepped
started 00010004
moved
forked 1
stepped
stepped
stepped
done reached
stepped
stepped
stepped
done reached
committed 4 dropped 0
squashed byte 00020000 predicted 00000000 found 00000001
position 5
tasks 1
by-tasks 4
serial 1
squashed 1
dropped 0
end none
output 0
";

#[test]
fn a_counter_is_squashed_by_the_byte_that_it_counts_in(rt: HostRuntime) -> Result<(), Fail> {
    let alloc = rt.alloc();
    let words = &["replay", "p", "m", "e", "--slaves", "2"];
    let events = "1 serial\n1 restart\n2 master\n4 slave 1\n4 slave 0\n2 commit\n";
    assert!(rt;
        replays_so(
            alloc,
            words,
            &COUNT_WITHOUT_END,
            &COUNTER,
            events,
            SQUASHED_BY_COUNT
        )?
    );
    Ok(())
}

const SQUASHED_BY_FETCH: &str = "started 00010000
moved
forked 1
stepped
stepped
done met
stepped
stepped
done reached
committed 3 dropped 0
squashed byte 00010012 predicted 00000070 found 00000090
stepped
stepped
ended exit 9
position 6
tasks 1
by-tasks 3
serial 3
squashed 1
dropped 0
end exit 9
output 0
";

#[test]
fn a_rewritten_instruction_squashes_who_fetched_it(rt: HostRuntime) -> Result<(), Fail> {
    let alloc = rt.alloc();
    let events = "1 restart\n2 master\n3 slave 1\n3 slave 0\n2 commit\n3 serial";
    assert!(rt;
        replays_so(
            alloc,
            REPLAY,
            &REWRITES_ITSELF,
            &REWRITTEN,
            events,
            SQUASHED_BY_FETCH
        )?
    );
    Ok(())
}

const PRINTED_TWICE: &str = "stepped
stepped
stepped
stepped
stepped
stepped
stepped
stepped
idle
position 8
tasks 0
by-tasks 0
serial 8
squashed 0
dropped 0
end none
output 6
hi
hi
";

#[test]
fn the_output_is_put_last(rt: HostRuntime) -> Result<(), Fail> {
    let events = "8 serial\n1 slave 63\n";
    assert!(rt;
        replays_so(
            rt.alloc(),
            REPLAY,
            &HELLO_TWICE,
            &TEN_TURNS,
            events,
            PRINTED_TWICE
        )?
    );
    Ok(())
}

static THE_INPUT_IS_READ_CASES: [(&[&str], &str); 2] = [
    (REPLAY, "end exit 0\noutput 0\n"),
    (
        &["replay", "p", "m", "e", "--input", "i"],
        "end exit 48\noutput 0\n",
    ),
];

/// Whether a command left the status 0 and an output of this end.
fn left_end(left: &Left, end: &str) -> bool {
    left.status == 0 && left.out.ends_with(end.as_bytes())
}

/// Whether a replay by these words leaves that.
fn ends_so(alloc: Global, words: &[&str], end: &str) -> Result<bool, AllocError> {
    let events = b"12 serial\n";
    let left = perform_beside(alloc, words, &READ_TWICE, &TEN_TURNS, events, SURE)?;
    Ok(left_end(&left, end))
}

#[test]
fn the_input_is_read(rt: HostRuntime) -> Result<(), Fail> {
    let alloc = rt.alloc();
    for &(words, end) in &THE_INPUT_IS_READ_CASES {
        assert!(rt; ends_so(alloc, words, end)?, "{words:?}");
    }
    Ok(())
}

/// Whether a command over these events puts nothing and leaves this status and line.
fn refused_so(
    alloc: Global,
    words: &[&str],
    events: &[u8],
    status: u8,
    line: &str,
) -> Result<bool, AllocError> {
    let left = perform_beside(alloc, words, &TEN_TURNS_LOOP, &TEN_TURNS, events, SURE)?;
    Ok(left_so(&left, "", status, line))
}

static A_REFUSED_LIST_IS_TOLD_BY_ITS_FIRST_FAULT_CASES: [(&str, &str); 6] = [
    ("0 master\n", "mssp: events e: line 1\n"),
    (
        "1 serial\n# none\n\n1 slave 64\n",
        "mssp: events e: line 4\n",
    ),
    ("1 serial\n1 Serial", "mssp: events e: line 2\n"),
    (
        "100000000 master\n1 commit\n",
        "mssp: events e: too many 2\n",
    ),
    (
        "1 serial\n100000000 master\nno event\n",
        "mssp: events e: too many 2\n",
    ),
    ("100000001 master\n", "mssp: events e: line 1\n"),
];

#[test]
fn a_refused_list_is_told_by_its_first_fault(rt: HostRuntime) -> Result<(), Fail> {
    let alloc = rt.alloc();
    for &(events, line) in &A_REFUSED_LIST_IS_TOLD_BY_ITS_FIRST_FAULT_CASES {
        assert!(rt;
            refused_so(alloc, REPLAY, events.as_bytes(), 119, line)?,
            "{line}"
        );
    }
    Ok(())
}

static FILES_OF_A_REPLAY_ARE_READ_IN_ORDER_CASES: [(&[&str], u8, &str); 8] = [
    (&["replay", "no", "no", "no"], 111, "mssp: absent no\n"),
    (
        &["replay", "e", "no", "no"],
        116,
        "mssp: program e: short\n",
    ),
    (&["replay", "p", "no", "no"], 111, "mssp: absent no\n"),
    (&["replay", "p", "e", "no"], 117, "mssp: image e: short\n"),
    (&["replay", "p", "m", "no"], 111, "mssp: absent no\n"),
    (&["replay", "p", "m", "i"], 119, "mssp: events i: line 1\n"),
    (
        &["replay", "p", "m", "i", "--input", "no"],
        119,
        "mssp: events i: line 1\n",
    ),
    (
        &["replay", "p", "m", "e", "--input", "no"],
        111,
        "mssp: absent no\n",
    ),
];

#[test]
fn files_of_a_replay_are_read_in_order(rt: HostRuntime) -> Result<(), Fail> {
    let alloc = rt.alloc();
    // a file of the list is refused as a program and as an image
    for &(words, status, line) in &FILES_OF_A_REPLAY_ARE_READ_IN_ORDER_CASES {
        assert!(rt;
            refused_so(alloc, words, b"1 serial\n", status, line)?,
            "{words:?}"
        );
    }
    Ok(())
}

/// Whether a command put so many bytes, and left this status and line.
fn left_bytes(left: &Left, put: usize, status: u8, line: &str) -> bool {
    left.out.len() == put && told_so(left, status, line)
}

/// Whether a replay where these calls fail leaves that.
fn faults_so(
    alloc: Global,
    fails: Fails,
    status: u8,
    put: usize,
    line: &str,
) -> Result<bool, AllocError> {
    let events = b"8 serial\n1 commit\n";
    let left = perform_beside(alloc, REPLAY, &HELLO_TWICE, &TEN_TURNS, events, fails)?;
    Ok(left_bytes(&left, put, status, line))
}

// the calls of the store and of the output that fail, and how many bytes were put
static FAULTS_OF_THE_OUTSIDE_STOP_A_REPLAY_CASES: [(u64, u64, u8, usize, &str); 6] = [
    (1, 0, 112, 0, "mssp: store fault p\n"),
    (2, 0, 112, 0, "mssp: store fault m\n"),
    (3, 1, 112, 0, "mssp: store fault e\n"),
    (0, 1, 113, 0, "mssp: sink fault\n"),
    (0, 3, 113, 16, "mssp: sink fault\n"),
    (0, 10, 113, 69, "mssp: sink fault\n"),
];

#[test]
fn faults_of_the_outside_stop_a_replay(rt: HostRuntime) -> Result<(), Fail> {
    let alloc = rt.alloc();
    for &(store, out, status, put, line) in &FAULTS_OF_THE_OUTSIDE_STOP_A_REPLAY_CASES {
        let fails = Fails { store, out, err: 0 };
        assert!(rt;
            faults_so(alloc, fails, status, put, line)?,
            "{store} {out}"
        );
    }
    Ok(())
}

/// Whether a list longer than the limit is told to be too long, and nothing is put.
fn is_too_long(alloc: Global) -> Result<bool, AllocError> {
    let events = vec![in alloc; 0u8; 67_108_865]?;
    refused_so(alloc, REPLAY, &events, 115, "mssp: too long e\n")
}

#[test]
fn a_list_is_read_up_to_its_limit(rt: HostRuntime) -> Result<(), Fail> {
    assert!(rt; is_too_long(rt.alloc())?);
    Ok(())
}
