//! A mark for each byte of a guest's memory.

ghost use Rattle.std.specs.Prelude.{◌≡◌, ℕ, ◌+◌, ◌-◌, ◌%◌, ◌^◌, ◌<◌, ◌≤◌, ◌==◌, true, IfOk, OnOk, OnErr, IfSome, None, is_some};
ghost use Rattle.fitting.specs.Claims.{among};
ghost use Rattle.profile_laws.specs.Tally.{places};
ghost use Rattle.access_trace.specs.Shadows.{spelled, AreOthersSame, word_of, lane, apart, own_at, mark_at, AreOthersOwn, AreMarked, HasOwn, AreApart, AreMarkedSo, AreSameOutside};

use crate::span::ByteRange;
use memory::Memory;
use std::alloc::{AllocError, Global};

/// What is kept of a word whose bytes have marks of their own.
const APART: u32 = u32::MAX;

/// The mark that is kept of a word.
#[inline(always)]
fn mark_in<M: Memory>(kept: &M, word: u32) -> u32
    requires { word % 4 ≡ 0 }
    ensures { result ≡ spelled word (M.at kept.now) }
{
    kept.word(word)
}

/// Keeps a mark of a word.
#[inline(always)]
fn keep<M: Memory>(alloc: Global, kept: &mut M, word: u32, mark: u32) -> Result<(), AllocError>
    requires { word % 4 ≡ 0 }
    ensures here { OnOk result (spelled word (M.at kept.new) ≡ mark) }
    ensures elsewhere { AreOthersSame (M.at kept.old) (M.at kept.new) word }
    ensures err { OnErr result (M.at kept.new ≡ M.at kept.old) }
{
    kept.put_word(alloc, word, mark)
}

/// A mark for each byte of a memory: a number below 2³² - 1, and 0 at first.
///
/// Most bytes are written by whole words, so the mark of a word is kept once, where its four bytes
/// have the same. A word of which single bytes were marked keeps the mark of each, in one of four
/// memories by the byte's place in the word. So a mark takes one byte for each byte of the pages
/// that have any, and four more on pages where bytes were marked alone.
#[derive(Drop)]
pub struct Shadow<M: Memory> {
    whole: M,
    first: M,
    second: M,
    third: M,
    fourth: M,
}

impl<M: Memory> Shadow<M> {
    /// The mark 0 at each byte.
    pub fn new(alloc: Global) -> Result<Self, AllocError>
        ensures { IfOk result (λ s. mark_at M.at s ≡ (λ _. 0)) }
    {
        Ok(Shadow {
            whole: M::empty(alloc)?,
            first: M::empty(alloc)?,
            second: M::empty(alloc)?,
            third: M::empty(alloc)?,
            fourth: M::empty(alloc)?,
        })
    }

    /// The mark that a byte has of its own, which counts where its word has none. Takes no memory.
    #[inline(always)]
    pub fn own(&self, a: u32) -> u32
        ensures { result ≡ own_at M.at self.now a }
    {
        let word = a - a % 4;
        match a % 4 {
            0 => mark_in(&self.first, word),
            1 => mark_in(&self.second, word),
            2 => mark_in(&self.third, word),
            _ => mark_in(&self.fourth, word),
        }
    }

    /// The mark of a byte. Takes no memory.
    pub fn get(&self, a: u32) -> u32
        ensures { result ≡ mark_at M.at self.now a }
    {
        match mark_in(&self.whole, a - a % 4) {
            APART => self.own(a),
            mark => mark,
        }
    }

    /// The mark of each byte of a span within one word, where the word has one; else each byte has its own. Takes no memory.
    #[inline(always)]
    pub fn of_word(&self, span: ByteRange) -> Option<u32>
        requires { span.from % 4 + span.count ≤ 4 }
        ensures marks { IfSome result (λ mark. AreMarked M.at self.now span mark) }
        ensures own { result ≡ None → AreApart M.at self.now span }
    {
        let mark = mark_in(&self.whole, span.from - span.from % 4);
        if mark == APART {
            return None;
        }
        Some(mark)
    }

    // The mark that each byte of a span has of its own, if all of them have the same.
    #[inline(never)]
    fn common_own(&self, span: ByteRange) -> Option<u32>
        ensures marks { IfSome result (λ mark. HasOwn M.at self.now span mark) }
        ensures found { (mark : ℕ) → 0 < span.count → HasOwn M.at self.now span mark → is_some result ≡ true }
    {
        let mark = self.own(span.from);
        for i in 1..span.count {
            if self.own(span.from.wrapping_add(i)) != mark {
                return None;
            }
        }
        Some(mark)
    }

    /// The mark that each byte of a span has, where they lie in one word and have the same. Takes no
    /// memory.
    #[inline(always)]
    pub fn common(&self, span: ByteRange) -> Option<u32>
        ensures marks { IfSome result (λ mark. AreMarked M.at self.now span mark) }
        ensures found { (mark : ℕ) → 0 < span.count → span.from % 4 + span.count ≤ 4
            → AreMarked M.at self.now span mark → is_some result ≡ true }
    {
        let ByteRange { count, from } = span;
        if count > 4 - from % 4 {
            return None;
        }
        let mark = mark_in(&self.whole, from - from % 4);
        if mark == APART {
            return self.common_own(span);
        }
        Some(mark)
    }

    // Marks the four bytes of a word.
    #[inline(always)]
    fn put_word(&mut self, alloc: Global, word: u32, mark: u32) -> Result<(), AllocError>
        requires word { word % 4 ≡ 0 }
        requires mark { mark < 2 ^ 32 - 1 }
        ensures ok { OnOk result (AreMarkedSo M.at self.old self.new (λ a. word_of a == word) mark) }
        ensures err { OnErr result ((a : ℕ) → mark_at M.at self.new a ≡ mark_at M.at self.old a) }
    {
        keep(alloc, &mut self.whole, word, mark)
    }

    // Gives each byte of a word a mark of its own.
    fn fill(&mut self, alloc: Global, word: u32, mark: u32) -> Result<(), AllocError>
        requires { word % 4 ≡ 0 }
        ensures whole { M.at self.new.whole ≡ M.at self.old.whole }
        ensures here { OnOk result ((place : ℕ) → spelled word (M.at (lane self.new place)) ≡ mark) }
        ensures elsewhere { AreOthersOwn M.at self.old self.new word }
    {
        keep(alloc, &mut self.first, word, mark)?;
        keep(alloc, &mut self.second, word, mark)?;
        keep(alloc, &mut self.third, word, mark)?;
        keep(alloc, &mut self.fourth, word, mark)
    }

    // Has a word keep the marks of its bytes apart. No mark changes.
    fn part(&mut self, alloc: Global, word: u32) -> Result<(), AllocError>
        requires { word % 4 ≡ 0 }
        ensures same { (a : ℕ) → mark_at M.at self.new a ≡ mark_at M.at self.old a }
        ensures parted { OnOk result (spelled word (M.at self.new.whole) ≡ apart) }
    {
        let mark = mark_in(&self.whole, word);
        if mark == APART {
            return Ok(());
        }
        self.fill(alloc, word, mark)?;
        keep(alloc, &mut self.whole, word, APART)
    }

    // Gives a byte a mark of its own.
    fn put_own(&mut self, alloc: Global, a: u32, mark: u32) -> Result<(), AllocError>
        ensures whole { M.at self.new.whole ≡ M.at self.old.whole }
        ensures here { OnOk result (own_at M.at self.new a ≡ mark) }
        ensures elsewhere { (b : ℕ) → (b ≡ a → ⊥) → own_at M.at self.new b ≡ own_at M.at self.old b }
        ensures err { OnErr result ((b : ℕ) → own_at M.at self.new b ≡ own_at M.at self.old b) }
    {
        let word = a - a % 4;
        match a % 4 {
            0 => keep(alloc, &mut self.first, word, mark),
            1 => keep(alloc, &mut self.second, word, mark),
            2 => keep(alloc, &mut self.third, word, mark),
            _ => keep(alloc, &mut self.fourth, word, mark),
        }
    }

    // Marks one byte.
    fn put_byte(&mut self, alloc: Global, a: u32, mark: u32) -> Result<(), AllocError>
        requires { mark < 2 ^ 32 - 1 }
        ensures ok { OnOk result (AreMarkedSo M.at self.old self.new (λ b. b == a) mark) }
        ensures err { OnErr result ((b : ℕ) → mark_at M.at self.new b ≡ mark_at M.at self.old b) }
    {
        self.part(alloc, a - a % 4)?;
        self.put_own(alloc, a, mark)
    }

    // Marks the first bytes of those from an address on, and answers how many they were.
    #[inline(always)]
    fn put_first(&mut self, alloc: Global, span: ByteRange, mark: u32) -> Result<u32, AllocError>
        requires some { 0 < span.count }
        requires mark { mark < 2 ^ 32 - 1 }
        ensures count { IfOk result (λ count. (0 < count) × (count ≤ span.count)) }
        ensures ok { IfOk result (λ count.
            AreMarkedSo M.at self.old self.new (among (places count span.from)) mark) }
        ensures err { OnErr result ((a : ℕ) → mark_at M.at self.new a ≡ mark_at M.at self.old a) }
    {
        let ByteRange { count, from } = span;
        if from % 4 == 0 && count >= 4 {
            self.put_word(alloc, from, mark)?;
            return Ok(4);
        }
        self.put_byte(alloc, from, mark)?;
        Ok(1)
    }

    /// Marks the bytes of a span. Where there is no memory left some of them may be marked already,
    /// and no other byte is.
    #[inline(always)]
    pub fn put(&mut self, alloc: Global, span: ByteRange, mark: u32) -> Result<(), AllocError>
        requires { mark < 2 ^ 32 - 1 }
        ensures marked { OnOk result (AreMarked M.at self.new span mark) }
        ensures others { AreSameOutside M.at self.old self.new span }
    {
        let mut left = span;
        while left.count > 0 {
            let count = self.put_first(alloc, left, mark)?;
            left = ByteRange {
                count: left.count - count,
                from: left.from.wrapping_add(count),
            };
        }
        Ok(())
    }
}
