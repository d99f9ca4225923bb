//! Lines: 64 bytes of memory that lie together, with a mask of those that are recorded and one of those that were put.
ghost use Rattle.std.specs.Prelude.{◌≡◌, ℕ, Bool, ◌+◌, ◌<◌, ◌≤◌, ◌^◌, ◌||◌, true, false, Some, None, nat_eq, OnOk};
ghost use Rattle.std.specs.Bool.{OnTrue};
ghost use Rattle.layers.specs.Marks.{has, of_four};
ghost use Rattle.layers.specs.Lines.{put_in, puts_of, FourIs, IsMarkedUnlessPut, IsPutAt, IsLaidAt, AreLaidAt, lesser, other_byte, AreOthers, IsLeast, IsLeastFurther, in_line, row};

use memory::Memory;
use std::alloc::{AllocError, Global};

/// What is kept of 64 bytes that lie together.
///
/// A byte is recorded where its bit of `read` is set, and was put where its bit of `put` is. The value
/// of a recorded byte is not kept: it stands in the checkpoint. Bytes that were not put are 0.
#[derive(Drop, Clone, Copy)]
pub struct Line {
    pub read: u64,
    pub put: u64,
    pub bytes: [u8; 64],
}

/// Where four bytes stand.
#[derive(Drop, Clone, Copy)]
pub enum Four {
    /// All of them in the checkpoint.
    Checkpoint,
    /// All of them were put.
    Put(u32),
    /// Some of them were put.
    Both,
}

// Whether bit i is set.
#[inline(always)]
pub(crate) fn has(mask: u64, i: u32) -> bool
    requires { i < 64 }
    ensures { result ≡ has mask i }
{
    mask >> i & 1 == 1
}

// The mask with bit i.
#[inline(always)]
pub(crate) fn with(mask: u64, i: u32) -> u64
    requires { i < 64 }
    ensures { (j : ℕ) → has result j ≡ (has mask j || nat_eq i j) }
{
    mask | 1 << i
}

// The mask with four bits from i on.
#[inline(always)]
pub(crate) fn with_four(mask: u64, i: u32) -> u64
    requires { i + 4 ≤ 64 }
    ensures { (j : ℕ) → has result j ≡ (has mask j || of_four i j) }
{
    mask | 15 << i
}

// Four bits from i on.
#[inline(always)]
pub(crate) fn bits_from(mask: u64, i: u32) -> u64
    requires { i + 4 ≤ 64 }
    ensures none { result ≡ 0 → (j : ℕ) → of_four i j ≡ true → has mask j ≡ false }
    ensures all { result ≡ 15 → (j : ℕ) → of_four i j ≡ true → has mask j ≡ true }
{
    mask >> i & 15
}

// Four bytes of a memory. Only that they are below 256 is wanted of them, so the compiler leaves these looks out.
#[inline(always)]
fn four_of<M: Memory>(a: u32, mem: &M) -> [u8; 4]
    requires { a + 4 ≤ 2 ^ 32 }
    ensures { (q : ℕ) → of_four a q ≡ true → M.at mem.now q < 256 }
{
    [mem.get(a), mem.get(a + 1), mem.get(a + 2), mem.get(a + 3)]
}

// Whether two memories hold the same word. Then they hold the same four bytes.
#[inline(always)]
fn are_alike<M: Memory>(a: u32, base: &M, mem: &M) -> bool
    requires { a + 4 ≤ 2 ^ 32 }
    ensures { OnTrue result ((q : ℕ) → of_four a q ≡ true → M.at base.now q ≡ M.at mem.now q) }
{
    let _ = four_of(a, base);
    let _ = four_of(a, mem);
    base.word(a) == mem.word(a)
}

impl Line {
    /// A line of which nothing is kept.
    pub fn new() -> Line
        ensures reads { (j : ℕ) → has result.read j ≡ false }
        ensures puts { (j : ℕ) → put_in (Some result) j ≡ None }
    {
        Line {
            read: 0,
            put: 0,
            bytes: [0; 64],
        }
    }

    /// The byte that was put. One that was not is recorded.
    #[inline(always)]
    pub fn look(&mut self, i: u32) -> Option<u8>
        requires { i < 64 }
        ensures value { result ≡ put_in (Some self.old) i }
        ensures puts { (j : ℕ) → put_in (Some self.new) j ≡ put_in (Some self.old) j }
        ensures reads { IsMarkedUnlessPut i result (has self.old.read) (has self.new.read) }
    {
        if has(self.put, i) {
            return Some(self.bytes[i as usize]);
        }
        self.read = with(self.read, i);
        None
    }

    /// Four bytes. Where none of them was put they are recorded.
    #[inline(always)]
    pub fn look_four(&mut self, i: u32) -> Four
        requires { i + 4 ≤ 64 }
        ensures { FourIs result i self.old self.new }
    {
        let put = bits_from(self.put, i);
        if put == 0 {
            self.read = with_four(self.read, i);
            return Four::Checkpoint;
        }
        if put == 15 {
            let k = i as usize;
            return Four::Put(u32::from_le_bytes([
                self.bytes[k],
                self.bytes[k + 1],
                self.bytes[k + 2],
                self.bytes[k + 3],
            ]));
        }
        Four::Both
    }

    /// Puts a byte.
    #[inline(always)]
    pub fn write(&mut self, i: u32, v: u8)
        requires { i < 64 }
        ensures puts { IsPutAt i v (put_in (Some self.old)) (put_in (Some self.new)) }
        ensures read { self.new.read ≡ self.old.read }
    {
        self.put = with(self.put, i);
        self.bytes[i as usize] = v;
    }

    // The lesser of what was found and an address, where the byte there is recorded and is another one in the second memory.
    #[inline(always)]
    fn lesser<M: Memory>(
        &self,
        i: u32,
        a: u32,
        base: &M,
        mem: &M,
        least: Option<u32>,
    ) -> Option<u32>
        requires { i < 64 }
        ensures { result ≡ lesser least (other_byte self.now (M.at base.now) (M.at mem.now) i a) a }
    {
        if has(self.read, i) && base.get(a) != mem.get(a) {
            return match least {
                Some(k) => Some(k.min(a)),
                None => Some(a),
            };
        }
        least
    }

    // The same at four addresses, one after another.
    #[inline(never)]
    fn lesser_of_four<M: Memory>(
        &self,
        number: u32,
        i: u32,
        base: &M,
        mem: &M,
        least: Option<u32>,
    ) -> Option<u32>
        requires number { number < 2 ^ 26 }
        requires within { i + 4 ≤ 64 }
        ensures { IsLeastFurther self.now number (M.at base.now) (M.at mem.now) i (i + 4) least result }
    {
        let a = 64 * number + i;
        let first = self.lesser(i, a, base, mem, least);
        let second = self.lesser(i + 1, a + 1, base, mem, first);
        let third = self.lesser(i + 2, a + 2, base, mem, second);
        self.lesser(i + 3, a + 3, base, mem, third)
    }

    // The same, where four that are not recorded, or are alike, are passed over at once.
    #[inline(always)]
    fn least_of_four<M: Memory>(
        &self,
        number: u32,
        i: u32,
        base: &M,
        mem: &M,
        least: Option<u32>,
    ) -> Option<u32>
        requires number { number < 2 ^ 26 }
        requires within { i + 4 ≤ 64 }
        ensures { IsLeastFurther self.now number (M.at base.now) (M.at mem.now) i (i + 4) least result }
    {
        if bits_from(self.read, i) == 0 {
            return least;
        }
        if are_alike(64 * number + i, base, mem) {
            return least;
        }
        self.lesser_of_four(number, i, base, mem, least)
    }

    /// The least of what was found and the addresses of this line whose byte is recorded and is another one in the second memory.
    /// A line that is the same in both is passed over at once.
    pub fn least_other<M: Memory>(
        &self,
        number: u32,
        base: &M,
        mem: &M,
        found: Option<u32>,
    ) -> Option<u32>
        requires { number < 2 ^ 26 }
        ensures { (p done : ℕ → Bool) → AreOthers p self.now number (M.at base.now) (M.at mem.now)
            → IsLeast p done found → IsLeast p (λ q. done q || in_line number q) result }
    {
        if self.read == 0 {
            return found;
        }
        if base.has_same_line(mem, number) {
            return found;
        }
        let mut least = found;
        for k in 0..16 {
            least = self.least_of_four(number, 4 * k, base, mem, least);
        }
        least
    }

    // Puts what was put at one address.
    #[inline(always)]
    fn put_at<M: Memory>(
        &self,
        i: u32,
        a: u32,
        alloc: Global,
        mem: &mut M,
    ) -> Result<(), AllocError>
        requires { i < 64 }
        ensures { OnOk result (IsLaidAt a (put_in (Some self.now) i) (M.at mem.old) (M.at mem.new)) }
    {
        if has(self.put, i) {
            return mem.put(alloc, a, &[self.bytes[i as usize]]);
        }
        Ok(())
    }

    // The same at four addresses, one after another.
    #[inline(never)]
    fn put_each<M: Memory>(
        &self,
        number: u32,
        i: u32,
        alloc: Global,
        mem: &mut M,
    ) -> Result<(), AllocError>
        requires number { number < 2 ^ 26 }
        requires within { i + 4 ≤ 64 }
        ensures { (old : ℕ → ℕ) → AreLaidAt (row number i) (puts_of self.now) old (M.at mem.old)
            → OnOk result (AreLaidAt (row number (i + 4)) (puts_of self.now) old (M.at mem.new)) }
    {
        let a = 64 * number + i;
        self.put_at(i, a, alloc, mem)?;
        self.put_at(i + 1, a + 1, alloc, mem)?;
        self.put_at(i + 2, a + 2, alloc, mem)?;
        self.put_at(i + 3, a + 3, alloc, mem)
    }

    // The same where each of the four was put.
    #[inline(always)]
    fn put_all<M: Memory>(
        &self,
        number: u32,
        i: u32,
        alloc: Global,
        mem: &mut M,
    ) -> Result<(), AllocError>
        requires number { number < 2 ^ 26 }
        requires within { i + 4 ≤ 64 }
        requires all { (j : ℕ) → of_four i j ≡ true → has self.now.put j ≡ true }
        ensures { (old : ℕ → ℕ) → AreLaidAt (row number i) (puts_of self.now) old (M.at mem.old)
            → OnOk result (AreLaidAt (row number (i + 4)) (puts_of self.now) old (M.at mem.new)) }
    {
        let k = i as usize;
        let bytes = [
            self.bytes[k],
            self.bytes[k + 1],
            self.bytes[k + 2],
            self.bytes[k + 3],
        ];
        mem.put(alloc, 64 * number + i, &bytes)
    }

    // The same, where nothing or all of it was put at once.
    #[inline(always)]
    fn put_four<M: Memory>(
        &self,
        number: u32,
        i: u32,
        alloc: Global,
        mem: &mut M,
    ) -> Result<(), AllocError>
        requires number { number < 2 ^ 26 }
        requires within { i + 4 ≤ 64 }
        ensures { (old : ℕ → ℕ) → AreLaidAt (row number i) (puts_of self.now) old (M.at mem.old)
            → OnOk result (AreLaidAt (row number (i + 4)) (puts_of self.now) old (M.at mem.new)) }
    {
        let put = bits_from(self.put, i);
        if put == 0 {
            return Ok(());
        }
        if put == 15 {
            return self.put_all(number, i, alloc, mem);
        }
        self.put_each(number, i, alloc, mem)
    }

    /// Puts what was put in this line. Without memory for it some may be put.
    pub fn put_into<M: Memory>(
        &self,
        number: u32,
        alloc: Global,
        mem: &mut M,
    ) -> Result<(), AllocError>
        requires { number < 2 ^ 26 }
        ensures { OnOk result (AreLaidAt (in_line number) (puts_of self.now) (M.at mem.old) (M.at mem.new)) }
    {
        if self.put == 0 {
            return Ok(());
        }
        for k in 0..16 {
            self.put_four(number, 4 * k, alloc, mem)?;
        }
        Ok(())
    }
}
