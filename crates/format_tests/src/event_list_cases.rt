//! Files and what they hold, each refusal, and rounds.

ghost use Rattle.std.specs.Prelude.{◌≤◌};

use event_list::{Event, EventErr, read_events, round};
use std::alloc::Global;
use std::test::Fail;

static READS_LISTS_CASES: [(&[u8], &[(u32, Event)]); 13] = [
    (b"", &[]),
    (b"\n", &[]),
    (b"\n\n", &[]),
    (b"#", &[]),
    (b"# 1 master\n#\n", &[]),
    (b"#\xFF\r\n\n2 serial", &[(2, Event::Serial)]),
    (b"1 master\n", &[(1, Event::Master)]),
    (b"1 master", &[(1, Event::Master)]),
    (
        b"1 commit\n1 slave 0\n1 master",
        &[(1, Event::Commit), (1, Event::Slave(0)), (1, Event::Master)],
    ),
    (
        b"7 restart\n\n10 slave 63\n",
        &[(7, Event::Restart), (10, Event::Slave(63))],
    ),
    (b"100000000 slave 9\n", &[(100_000_000, Event::Slave(9))]),
    (
        b"99999999 commit\n# full\n1 serial",
        &[(99_999_999, Event::Commit), (1, Event::Serial)],
    ),
    (
        b"1 master\n1 master\n",
        &[(1, Event::Master), (1, Event::Master)],
    ),
];

/// Whether a file lists these events.
fn lists(alloc: Global, file: &[u8], events: &[(u32, Event)]) -> Result<bool, EventErr> {
    let found = read_events(alloc, file)?;
    Ok(*found.as_slice() == *events)
}

#[test]
fn reads_lists(rt: HostRuntime) -> Result<(), Fail> {
    for &(file, events) in &READS_LISTS_CASES {
        assert!(rt; lists(rt.alloc(), file, events)?, "{file:?}");
    }
    Ok(())
}

/// Why a file is refused.
fn refusal(alloc: Global, file: &[u8]) -> Option<EventErr> {
    read_events(alloc, file).err()
}

/// Lines whose count, or whose number of a slave, is none.
static COUNTS_AND_NUMBERS: [&[u8]; 20] = [
    b"0 master",
    b"00 master",
    b"01 master",
    b"+1 master",
    b"-1 master",
    b"1_0 master",
    b"0x1 master",
    b"1.0 master",
    b"100000001 master",
    b"1000000000 master",
    b"4294967297 master",
    b"18446744073709551617 master",
    b"100000000000000000000000000000000000000001 master",
    b"1 slave 00",
    b"1 slave 05",
    b"1 slave 64",
    b"1 slave 256",
    b"1 slave +1",
    b"1 slave x",
    b"1 slave 4294967296",
];

#[test]
fn refuses_counts_and_numbers(rt: HostRuntime) {
    for &line in &COUNTS_AND_NUMBERS {
        assert_eq!(rt;
            refusal(rt.alloc(), line),
            Some(EventErr::Line(1)),
            "{line:?}"
        );
    }
}

/// Lines whose words, or whose spaces, are those of no event.
static WORDS_AND_SPACES: [&[u8]; 26] = [
    b" ",
    b"1",
    b"1 ",
    b"master",
    b" master",
    b"1 master ",
    b" 1 master",
    b"1  master",
    b"1\tmaster",
    b"1 master\t",
    b"1master",
    b"1 Master",
    b"1 maste",
    b"1 masters",
    b"1 idle",
    b"1 slave",
    b"1 slave ",
    b"1 slave0",
    b"1 slave  0",
    b"1 slave 0 ",
    b" # comment",
    b"1 master # comment",
    b"\r",
    b"1 master\r",
    b"1 m\xC3\xA4ster",
    b"1 master\0",
];

#[test]
fn refuses_words_and_spaces(rt: HostRuntime) {
    for &line in &WORDS_AND_SPACES {
        assert_eq!(rt;
            refusal(rt.alloc(), line),
            Some(EventErr::Line(1)),
            "{line:?}"
        );
    }
}

static ANSWERS_THE_FIRST_REFUSAL_CASES: [(&[u8], EventErr); 11] = [
    (b"\n0 master", EventErr::Line(2)),
    (b"#\n\n1 master\nx\nx\n", EventErr::Line(4)),
    (b"1 master\r\n1 commit\r\n", EventErr::Line(1)),
    (b"1 master\n\xFF\n", EventErr::Line(2)),
    (b"100000000 master\n1 commit\n", EventErr::TooMany(2)),
    (b"100000000 master\n\n1 commit\nx\n", EventErr::TooMany(3)),
    (b"100000000 master\nx\n1 commit\n", EventErr::Line(2)),
    (b"60000000 master\n100000001 commit\n", EventErr::Line(2)),
    (
        b"60000000 master\n40000000 commit\n1 serial\n1 serial",
        EventErr::TooMany(3),
    ),
    (b"60000000 master\n40000001 commit", EventErr::TooMany(2)),
    (b"100000000 master\n4294967296 commit", EventErr::Line(2)),
];

#[test]
fn answers_the_first_refusal(rt: HostRuntime) {
    for &(file, want) in &ANSWERS_THE_FIRST_REFUSAL_CASES {
        assert_eq!(rt; refusal(rt.alloc(), file), Some(want), "{file:?}");
    }
}

/// Whether rounds over so many slaves have these events from this number on.
fn goes_on(slaves: u8, from: u64, events: &[Event]) -> bool
    requires some { 1 ≤ slaves }
    requires few { slaves ≤ 64 }
{
    let mut number = from;
    for event in events {
        if round(slaves, number) != *event {
            return false;
        }
        number = number.wrapping_add(1);
    }
    true
}

/// A round over one slave.
static ROUND_OF_ONE: [Event; 8] = [
    Event::Restart,
    Event::Serial,
    Event::Master,
    Event::Master,
    Event::Master,
    Event::Master,
    Event::Slave(0),
    Event::Commit,
];

#[test]
fn goes_round_a_single_slave(rt: HostRuntime) {
    for first in [0, 8] {
        assert!(rt; goes_on(1, first, &ROUND_OF_ONE), "{first}");
    }
}

/// A round over four slaves.
static ROUND_OF_FOUR: [Event; 11] = [
    Event::Restart,
    Event::Serial,
    Event::Master,
    Event::Master,
    Event::Master,
    Event::Master,
    Event::Slave(0),
    Event::Slave(1),
    Event::Slave(2),
    Event::Slave(3),
    Event::Commit,
];

#[test]
fn goes_round_four_slaves(rt: HostRuntime) {
    for first in [0, 11] {
        assert!(rt; goes_on(4, first, &ROUND_OF_FOUR), "{first}");
    }
}

/// What a round begins with, before its slaves.
static BEFORE_THE_SLAVES: [Event; 6] = [
    Event::Restart,
    Event::Serial,
    Event::Master,
    Event::Master,
    Event::Master,
    Event::Master,
];

/// Whether rounds over all slaves have each slave in turn from this number on.
fn goes_through_slaves(from: u64) -> bool {
    for slave in 0_u8..64 {
        if round(64, from.wrapping_add(u64::from(slave))) != Event::Slave(slave) {
            return false;
        }
    }
    true
}

#[test]
fn goes_round_all_slaves(rt: HostRuntime) {
    for first in [0_u64, 71] {
        let is_round = goes_on(64, first, &BEFORE_THE_SLAVES)
            && goes_through_slaves(first + 6)
            && goes_on(64, first + 70, &[Event::Commit]);
        assert!(rt; is_round, "{first}");
    }
    // 2 ^ 64 - 1 is 9 modulo 71.
    assert_eq!(rt; round(64, u64::MAX), Event::Slave(3));
}
