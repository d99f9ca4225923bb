//! A memory of pages, each in one piece and found by the digits of its number.
ghost use Rattle.std.specs.Prelude.{◌≡◌, ℕ, ◌+◌, ◌/◌, ◌%◌, ◌^◌, ◌<◌, ◌≤◌, length, [], true, Some, MatchOption, OnOk, OnErr};
ghost use Rattle.std.specs.Bool.{OnTrue, OnFalse};
ghost use Rattle.cells.specs.Bytes.{number, after_puts};
ghost use Rattle.memory.specs.Pages.{place_in, number_at, bytes_at};

use crate::Memory;
use crate::directory::Directory;
use crate::page::Page;
use std::alloc::{AllocError, Global};

/// A memory of pages of 4,096 bytes, each made at the first put to one of its addresses.
///
/// The pages lie in one list, in the order in which they were made, and a directory gives the place of each there: an
/// ordered map from page numbers to pages. Two, four or more bytes that lie in one page take one look-up. A page holds
/// its own number, and a look-up that comes to another page finds nothing. So a put to one page changes no other,
/// whatever places the directory holds, and nothing has to be known of these.
///
/// The place of the page from which the last word of code came is remembered. Pages never go away, so it stays right.
#[derive(Drop)]
pub struct PlainMemory {
    directory: Directory,
    pages: Vec<Page>,
    code: usize,
    ghost code_is_placed: { (n : ℕ) → number_at pages.items code ≡ Some n → place_in directory n ≡ code },
}

impl PlainMemory {
    ghost use Rattle.memory.specs.Plain.{held, HasPage};

    // The page of that number, if it was made.
    #[inline(always)]
    fn page(&self, number: u32) -> Option<&Page>
        requires { number < 2 ^ 20 }
        ensures { MatchOption result
            ((bytes_at self.now.pages.items (place_in self.now.directory number) number ≡ []) × (HasPage self.now number → ⊥))
            (λ page. (bytes_at self.now.pages.items (place_in self.now.directory number) number ≡ page.now.bytes) × HasPage self.now number) }
    {
        Page::find(&self.pages, self.directory.place(number), number)
    }

    // Writes bytes that lie in one page, if it was made, and answers whether it was.
    #[inline(always)]
    fn write(&mut self, a: u32, bytes: &[u8]) -> bool
        requires { a % 4096 + length bytes.now ≤ 4096 }
        ensures written { OnTrue result (held self.new ≡ after_puts (held self.old) a bytes.now) }
        ensures refused { OnFalse result (held self.new ≡ held self.old) }
        ensures made { HasPage self.old (a / 4096) → result ≡ true }
        ensures kept { (n : ℕ) → HasPage self.old n → HasPage self.new n }
    {
        let number = a / 4096;
        let place = self.directory.place(number);
        Page::write(&mut self.pages, place, number, (a % 4096) as usize, bytes)
    }

    // Makes that page, unless it is there. A new page holds zeros, so no byte changes.
    #[inline(never)]
    fn make(&mut self, number: u32) -> Result<(), AllocError>
        requires { number < 2 ^ 20 }
        ensures same { held self.new ≡ held self.old }
        ensures made { OnOk result (HasPage self.new number) }
        ensures kept { (n : ℕ) → HasPage self.old n → HasPage self.new n }
    {
        if self.page(number).is_some() {
            return Ok(());
        }
        self.directory.set(number, self.pages.len())?;
        self.pages.push(Page {
            number,
            bytes: [0; 4096],
        })?;
        Ok(())
    }

    // Makes the pages on which `count` bytes from `a` on lie.
    fn make_pages(&mut self, a: u32, count: usize) -> Result<(), AllocError>
        requires { count ≤ 65536 }
        ensures same { held self.new ≡ held self.old }
        ensures made { OnOk result ((k : ℕ) → k < count → HasPage self.new ((a + k) % 2 ^ 32 / 4096)) }
    {
        let pages = ((a % 4096) as usize + count).div_ceil(4096) as u32;
        for k in 0..pages {
            self.make((a / 4096 + k) % 0x10_0000)?;
        }
        Ok(())
    }

    // Puts bytes whatever pages they lie on, once all of these are made: only that may want memory.
    #[inline(never)]
    fn put_across(&mut self, a: u32, bytes: &[u8]) -> Result<(), AllocError>
        requires { length bytes.now ≤ 65536 }
        ensures ok { OnOk result (held self.new ≡ after_puts (held self.old) a bytes.now) }
        ensures err { OnErr result (held self.new ≡ held self.old) }
    {
        self.make_pages(a, bytes.len())?;
        let mut at = a;
        let mut rest = bytes;
        while !rest.is_empty() {
            let room = 4096 - (at % 4096) as usize;
            let (here, later) = rest.split_at(rest.len().min(room));
            let written = self.write(at, here);
            prove!(written);
            at = at.wrapping_add(here.len() as u32);
            rest = later;
        }
        Ok(())
    }

    // A word of code that doesn't lie on the page that is remembered. Its own page is remembered from now on.
    #[inline(never)]
    fn fetch_elsewhere(&mut self, a: u32) -> u32
        requires { a % 4 ≡ 0 }
        ensures value { result ≡ number 4 a (held self.old) }
        ensures stays { held self.new ≡ held self.old }
    {
        let place = self.directory.place(a / 4096);
        match Page::find(&self.pages, place, a / 4096) {
            Some(page) => {
                let word = page.word((a % 4096) as usize);
                self.code = place;
                word
            }
            None => 0,
        }
    }

    // Two bytes, which may lie on two pages.
    #[inline(never)]
    fn half_across(&self, a: u32) -> u16
        ensures { result ≡ number 2 a (held self.now) }
    {
        u16::from_le_bytes([self.get(a), self.get(a.wrapping_add(1))])
    }

    // Four bytes, which may lie on two pages.
    #[inline(never)]
    fn word_across(&self, a: u32) -> u32
        ensures { result ≡ number 4 a (held self.now) }
    {
        u32::from_le_bytes([
            self.get(a),
            self.get(a.wrapping_add(1)),
            self.get(a.wrapping_add(2)),
            self.get(a.wrapping_add(3)),
        ])
    }
}

impl Memory for PlainMemory {
    ghost use Rattle.memory.specs.Plain.{held};

    ghost at = { held };

    fn empty(alloc: Global) -> Result<Self, AllocError> {
        Ok(PlainMemory {
            directory: Directory::new(alloc),
            pages: Vec::new(alloc),
            code: 0,
        })
    }

    #[inline(always)]
    fn get(&self, a: u32) -> u8 {
        match self.page(a / 4096) {
            Some(page) => page.bytes[(a % 4096) as usize],
            None => 0,
        }
    }

    #[inline(always)]
    fn half(&self, a: u32) -> u16 {
        let i = (a % 4096) as usize;
        if i + 2 > 4096 {
            return self.half_across(a);
        }
        match self.page(a / 4096) {
            Some(page) => page.half(i),
            None => 0,
        }
    }

    #[inline(always)]
    fn word(&self, a: u32) -> u32 {
        let i = (a % 4096) as usize;
        if i + 4 > 4096 {
            return self.word_across(a);
        }
        match self.page(a / 4096) {
            Some(page) => page.word(i),
            None => 0,
        }
    }

    #[inline(always)]
    fn fetch(&mut self, a: u32) -> u32 {
        match Page::find(&self.pages, self.code, a / 4096) {
            Some(page) => page.word((a % 4096) as usize),
            None => self.fetch_elsewhere(a),
        }
    }

    #[inline(always)]
    fn put(&mut self, _alloc: Global, a: u32, bytes: &[u8]) -> Result<(), AllocError> {
        let room = 4096 - (a % 4096) as usize;
        if bytes.len() <= room && self.write(a, bytes) {
            return Ok(());
        }
        self.put_across(a, bytes)
    }

    // No two plain memories share their pages.
    fn has_same_line(&self, _other: &PlainMemory, _number: u32) -> bool {
        false
    }

    fn snapshot(&self, alloc: Global) -> Result<Self, AllocError> {
        Ok(PlainMemory {
            directory: self.directory.snapshot(alloc)?,
            pages: Vec::from_slice(alloc, &self.pages)?,
            code: self.code,
        })
    }
}
