//! What no clause says: that the calls of a memory succeed, and what they answer at the borders of pages.
ghost use Rattle.std.specs.Prelude.{◌≤◌, length};

use memory::{Memory, PlainMemory};
use std::alloc::{AllocError, Global};
use std::test::Fail;

/// Addresses where nothing was put.
static NOWHERE: [u32; 7] = [0, 1, 0xffd, 0xfff, 0x1000, 0x7fff_fffe, 0xffff_ffff];

/// The first of them where a byte, a half word or a word is not 0.
fn other_than_zero(m: &PlainMemory) -> Option<u32> {
    for &a in &NOWHERE {
        if m.get(a) != 0 || m.half(a) != 0 || m.word(a) != 0 {
            return Some(a);
        }
    }
    None
}

#[test]
fn nothing_was_put(rt: HostRuntime) -> Result<(), Fail> {
    let mut m = PlainMemory::empty(rt.alloc())?;
    assert!(rt; other_than_zero(&m).is_none() && m.fetch(0x1_0000) == 0);
    Ok(())
}

/// Whether three bytes are there around the end of the addresses, and 0 beside them.
fn has_three(m: &PlainMemory) -> bool {
    m.get(0xffff_fffe) == 0
        && m.get(0xffff_ffff) == 0x11
        && m.get(0) == 0x22
        && m.get(1) == 0x33
        && m.get(2) == 0
}

/// Whether they are loaded and fetched as parts of words.
fn loads_three(m: &mut PlainMemory) -> bool {
    m.half(0xffff_ffff) == 0x2211 && m.word(0xffff_fffe) == 0x3322_1100 && m.fetch(0) == 0x0000_3322
}

/// Whether a word that is put over the first of them goes around the end too.
fn puts_over(alloc: Global, m: &mut PlainMemory) -> Result<bool, AllocError> {
    m.put_word(alloc, 0xffff_fffd, 0x8877_6655)?;
    Ok(m.word(0xffff_fffd) == 0x8877_6655 && m.word(0) == 0x0000_3388)
}

#[test]
fn a_put_wraps(rt: HostRuntime) -> Result<(), Fail> {
    let mut m = PlainMemory::empty(rt.alloc())?;
    m.put(rt.alloc(), 0xffff_ffff, &[0x11, 0x22, 0x33])?;
    assert!(rt; has_three(&m) && loads_three(&mut m));
    assert!(rt; puts_over(rt.alloc(), &mut m)?);
    Ok(())
}

/// Addresses beside a border of pages, and the words there.
static BORDER_WORDS: [(u32, u32); 4] = [
    (0x40_2ffc, 0x2211_0000),
    (0x40_2ffd, 0x3322_1100),
    (0x40_2fff, 0x0044_3322),
    (0x40_3fff, 0x0000_6655),
];

/// The same of fetches, in this order.
static BORDER_FETCHES: [(u32, u32); 3] = [
    (0x40_2ffc, 0x2211_0000),
    (0x40_3000, 0x0000_4433),
    (0x40_2ffc, 0x2211_0000),
];

/// Puts six bytes over borders of pages.
fn put_six(alloc: Global, m: &mut PlainMemory) -> Result<(), AllocError> {
    m.put_word(alloc, 0x40_2ffe, 0x4433_2211)?;
    m.put_half(alloc, 0x40_3fff, 0x6655)
}

#[test]
fn a_plain_memory_shares_no_line(rt: HostRuntime) -> Result<(), Fail> {
    let m = PlainMemory::empty(rt.alloc())?;
    let snapshot = m.snapshot(rt.alloc())?;
    assert!(rt; !m.has_same_line(&snapshot, 0));
    Ok(())
}

/// Whether half words at a border and beside it are made of them.
fn has_halves(m: &PlainMemory) -> bool {
    m.half(0x40_2ffe) == 0x2211 && m.half(0x40_2fff) == 0x3322
}

/// The first of the addresses of `BORDER_WORDS` where another word is loaded.
fn other_load(m: &PlainMemory) -> Option<u32> {
    for &(a, word) in &BORDER_WORDS {
        if m.word(a) != word {
            return Some(a);
        }
    }
    None
}

/// The first of the addresses of `BORDER_FETCHES` where another word is fetched.
fn other_fetch(m: &mut PlainMemory) -> Option<u32> {
    for &(a, word) in &BORDER_FETCHES {
        if m.fetch(a) != word {
            return Some(a);
        }
    }
    None
}

#[test]
fn words_over_a_border(rt: HostRuntime) -> Result<(), Fail> {
    let mut m = PlainMemory::empty(rt.alloc())?;
    put_six(rt.alloc(), &mut m)?;
    assert!(rt; has_halves(&m));
    assert_eq!(rt; other_load(&m).or(other_fetch(&mut m)), None);
    Ok(())
}

// A byte that tells its place: the remainders of 251, a prime, fall differently in each page.
fn mark(i: u32) -> u8 {
    (i % 251) as u8
}

/// 65,536 bytes, each with the mark of its place.
fn marks(alloc: Global) -> Result<Vec<u8>, AllocError> {
    let mut bytes = Vec::new(alloc);
    for i in 0..65536 {
        bytes.push(mark(i))?;
    }
    Ok(bytes)
}

/// The address from which a long sequence of bytes is put, in the middle of a word.
const FIRST: u32 = 0x7f_fffd;

/// The place of the first of these words that is not made of the marks there.
fn other_mark(m: &PlainMemory) -> Option<u32> {
    for k in 0..16383 {
        let i = 4 * k;
        let wanted = u32::from_le_bytes([mark(i), mark(i + 1), mark(i + 2), mark(i + 3)]);
        if m.word(FIRST + i) != wanted {
            return Some(i);
        }
    }
    None
}

/// Whether a memory holds the last of so many marks, and 0 beside the first and the last.
fn has_ends(m: &PlainMemory) -> bool {
    m.get(FIRST - 1) == 0 && m.get(FIRST + 65535) == mark(65535) && m.get(FIRST + 65536) == 0
}

/// Whether a memory to which these marks are put holds all of them, and 0 beside them.
fn holds_marks(alloc: Global, bytes: &[u8]) -> Result<bool, AllocError>
    requires { length bytes.now ≤ 65536 }
{
    let mut m = PlainMemory::empty(alloc)?;
    m.put(alloc, FIRST, bytes)?;
    Ok(other_mark(&m).is_none() && has_ends(&m))
}

#[test]
fn a_long_put(rt: HostRuntime) -> Result<(), Fail> {
    let bytes = marks(rt.alloc())?;
    assert!(rt; bytes.len() == 65536);
    assert!(rt; holds_marks(rt.alloc(), &bytes)?);
    Ok(())
}

/// Puts bytes to a memory and to a snapshot of it.
fn put_to_both(alloc: Global, m: &mut PlainMemory, s: &mut PlainMemory) -> Result<(), AllocError> {
    m.put(alloc, 0x1001, &[9])?;
    s.put(alloc, 0x1002, &[8])?;
    s.put(alloc, 0x5000, &[7])
}

/// Whether each has what was put to it, and what both had before.
fn stand_apart(m: &PlainMemory, s: &mut PlainMemory) -> bool {
    m.word(0x1000) == 0x0403_0901
        && m.get(0x5000) == 0
        && s.word(0x1000) == 0x0408_0201
        && s.fetch(0x5000) == 7
}

#[test]
fn a_snapshot_stands_apart(rt: HostRuntime) -> Result<(), Fail> {
    let mut m = PlainMemory::empty(rt.alloc())?;
    m.put(rt.alloc(), 0x1000, &[1, 2, 3, 4])?;
    let mut s = m.snapshot(rt.alloc())?;
    put_to_both(rt.alloc(), &mut m, &mut s)?;
    assert!(rt; stand_apart(&m, &mut s));
    Ok(())
}
