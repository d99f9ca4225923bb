//! Lines of words, which are built in memory.
ghost use Rattle.std.specs.Prelude.{◌≡◌, ◌<◌, ◌++◌, decimal, false, map, OnOk};
ghost use Rattle.std.specs.Fmt.{digit_glyph};
ghost use Rattle.report.specs.Text.{word_text, hex_word, spaced, line, end_words};

use cells::End;
use itoa::Buffer;
use std::alloc::AllocError;

/// A word of a line.
#[derive(Clone, Copy, Debug)]
pub enum Word<'a> {
    /// The text as it is.
    Text(&'a str),
    /// The text and a colon.
    Label(&'a str),
    /// The number in decimal digits.
    Number(u64),
    /// The number in eight lower case hexadecimal digits.
    Hex(u32),
    /// The register of this number.
    Register(u8),
}

fn hex_digit(value: u32) -> u8
    requires { value < 16 }
    ensures { result ≡ digit_glyph false value }
{
    if value < 10 {
        b'0' + value as u8
    } else {
        b'a' + (value - 10) as u8
    }
}

fn push_hex(out: &mut Vec<u8>, number: u32) -> Result<(), AllocError>
    ensures { OnOk result (out.new.items ≡ out.old.items ++ hex_word number) }
{
    out.extend_from_slice(&[
        hex_digit(number >> 28),
        hex_digit(number >> 24 & 15),
        hex_digit(number >> 20 & 15),
        hex_digit(number >> 16 & 15),
        hex_digit(number >> 12 & 15),
        hex_digit(number >> 8 & 15),
        hex_digit(number >> 4 & 15),
        hex_digit(number & 15),
    ])
}

fn push_number(out: &mut Vec<u8>, number: u64) -> Result<(), AllocError>
    ensures { OnOk result (out.new.items ≡ out.old.items ++ decimal number) }
{
    let mut digits = Buffer::new();
    out.extend_from_slice(digits.format(number).as_bytes())
}

fn push_word(out: &mut Vec<u8>, word: Word<'_>) -> Result<(), AllocError>
    ensures { OnOk result (out.new.items ≡ out.old.items ++ word_text word.entry) }
{
    match word {
        Word::Text(text) => out.extend_from_slice(text.as_bytes()),
        Word::Label(text) => {
            out.extend_from_slice(text.as_bytes())?;
            out.extend_from_slice(b":")
        }
        Word::Number(number) => push_number(out, number),
        Word::Hex(number) => push_hex(out, number),
        Word::Register(number) => {
            out.extend_from_slice(b"x")?;
            push_number(out, u64::from(number))
        }
    }
}

/// Puts words at the end, each behind a space.
pub fn push_words(out: &mut Vec<u8>, words: &[Word<'_>]) -> Result<(), AllocError>
    ensures { OnOk result (out.new.items ≡ out.old.items ++ spaced (map word_text words.now)) }
{
    for word in words {
        out.extend_from_slice(b" ")?;
        push_word(out, *word)?;
    }
    Ok(())
}

/// Puts a line at the end: its first word, the others, each behind a space, and a line feed.
pub fn push_line(out: &mut Vec<u8>, first: &str, more: &[Word<'_>]) -> Result<(), AllocError>
    ensures { OnOk result (out.new.items ≡ out.old.items ++ line first.now (map word_text more.now)) }
{
    out.extend_from_slice(first.as_bytes())?;
    push_words(out, more)?;
    out.extend_from_slice(b"\n")
}

/// Puts the words of an end of a run, each behind a space.
pub fn push_end(out: &mut Vec<u8>, end: End) -> Result<(), AllocError>
    ensures { OnOk result (out.new.items ≡ out.old.items ++ spaced (end_words end)) }
{
    match end {
        End::Exit(code) => push_words(out, &[Word::Text("exit"), Word::Number(u64::from(code))]),
        End::Break => push_words(out, &[Word::Text("break")]),
        End::Illegal(word) => push_words(out, &[Word::Text("illegal"), Word::Hex(word)]),
        End::Misfetch(target) => push_words(out, &[Word::Text("misfetch"), Word::Hex(target)]),
    }
}
