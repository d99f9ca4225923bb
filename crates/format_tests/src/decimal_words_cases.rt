//! Words that are numbers, and words that are nearly so.

use decimal_words::number_within;
use std::test::Fail;

static NUMBERS: [(&str, Option<u64>); 23] = [
    ("0", Some(0)),
    ("7", Some(7)),
    ("10", Some(10)),
    ("1234567890", Some(1_234_567_890)),
    ("9999999999999999999", Some(9_999_999_999_999_999_999)),
    ("18446744073709551615", Some(u64::MAX)),
    ("18446744073709551616", None),
    ("99999999999999999999", None),
    ("100000000000000000000", None),
    ("00000000000000000001", None),
    ("", None),
    ("00", None),
    ("+7", None),
    ("-0", None),
    (" 7", None),
    ("7 ", None),
    ("1_000", None),
    ("1,000", None),
    ("0x10", None),
    ("1e3", None),
    ("1.0", None),
    ("\u{0661}", None),
    ("\u{ff11}", None),
];

/// The number of eight bytes that a word is.
fn number(word: &str) -> Option<u64> {
    number_within(0, u64::MAX, word.as_bytes())
}

#[test]
fn reads_numbers(rt: HostRuntime) {
    for &(word, want) in &NUMBERS {
        assert_eq!(rt; number(word), want, "at {word:?}");
    }
}
