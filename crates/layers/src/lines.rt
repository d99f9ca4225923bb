//! Bytes by address, in lines that are found by their numbers.
ghost use Rattle.std.specs.Prelude.{◌≡◌, ℕ, ◌+◌, ◌*◌, ◌<◌, ◌≤◌, ◌^◌, ◌/◌, ◌%◌, true, false, None, nat_eq, OnOk, IfSome, IfNone};
ghost use Rattle.indexmap.specs.IndexMap.{get, spare};
ghost use Rattle.layers.specs.Lines.{is_read, put_at, IsPlace, IsSame, FourAre, IsMarkedUnlessPut, IsPutAt, ArePutFrom, AreLaid, IsFirstChanged, AreUnchanged};

use crate::line::{Four, Line};
use indexmap::IndexMap;
use memory::Memory;
use std::alloc::{AllocError, Global};

/// Lines by number, which is the address of their first byte by 64.
///
/// For each of 16 kinds of numbers the place of the line that was found last is remembered. It is
/// looked at before it is used, so that nothing has to be known of it.
#[derive(Drop)]
pub struct Lines {
    map: IndexMap<u32, Line>,
    near: [usize; 16],
}

impl Lines {
    /// No lines.
    pub fn new(alloc: Global) -> Lines
        ensures reads { (a : ℕ) → is_read result a ≡ false }
        ensures puts { (a : ℕ) → put_at result a ≡ None }
    {
        Lines {
            map: IndexMap::new(alloc),
            near: [0; 16],
        }
    }

    /// The place of a line, if it is remembered.
    #[inline(always)]
    pub fn nearby(&self, n: u32) -> Option<usize>
        ensures { IfSome result (λ place. IsPlace self.now n place) }
    {
        let place = self.near[kind(n)];
        match self.map.get_index(place) {
            Some((number, _)) if *number == n => Some(place),
            _ => None,
        }
    }

    /// The place of a line, which is remembered from then on.
    pub fn find(&mut self, n: u32) -> Option<usize>
        ensures place { IfSome result (λ place. IsPlace self.new n place) }
        ensures none { IfNone result (get nat_eq self.old.map n ≡ None) }
        ensures map { self.new.map ≡ self.old.map }
    {
        match self.map.get_index_of(&n) {
            Some(place) => {
                self.near[kind(n)] = place;
                Some(place)
            }
            None => None,
        }
    }

    /// Adds a line, in the room that is there.
    pub fn add(&mut self, n: u32) -> usize
        requires new { get nat_eq self.old.map n ≡ None }
        requires room { 0 < spare self.old.map }
        ensures place { IsPlace self.new n result }
        ensures same { IsSame self.old self.new }
        ensures room { spare self.old.map ≤ spare self.new.map + 1 }
    {
        let place = self.map.len();
        match self.map.insert(n, Line::new()) {
            Ok(_) => {}
            Err(_) => {}
        }
        self.near[kind(n)] = place;
        place
    }

    /// Makes room for lines.
    pub fn reserve(&mut self, count: usize) -> Result<(), AllocError>
        ensures same { IsSame self.old self.new }
        ensures ok { OnOk result (count ≤ spare self.new.map) }
        ensures room { spare self.old.map ≤ spare self.new.map }
    {
        self.map.reserve(count)
    }

    /// The byte that was put at an address of that line. One that was not is recorded.
    #[inline(always)]
    pub fn look(&mut self, place: usize, a: u32) -> Option<u8>
        requires { IsPlace self.old (a / 64) place }
        ensures value { result ≡ put_at self.old a }
        ensures puts { (q : ℕ) → put_at self.new q ≡ put_at self.old q }
        ensures reads { IsMarkedUnlessPut a result (is_read self.old) (is_read self.new) }
        ensures room { spare self.new.map ≡ spare self.old.map }
        ensures place { IsPlace self.new (a / 64) place }
    {
        let (_, line) = self.map.pair_mut(place);
        line.look(a % 64)
    }

    /// Four bytes that lie in one line. Where the line is remembered and none of them was put, they are recorded.
    #[inline(always)]
    pub fn look_near(&mut self, a: u32) -> Four
        requires { a % 64 + 4 ≤ 64 }
        ensures is { FourAre result a self.old self.new }
        ensures room { spare self.new.map ≡ spare self.old.map }
    {
        match self.nearby(a / 64) {
            Some(place) => self.look_four(place, a),
            None => Four::Both,
        }
    }

    /// Four bytes of that line. Where none of them was put, they are recorded.
    #[inline(always)]
    pub fn look_four(&mut self, place: usize, a: u32) -> Four
        requires place { IsPlace self.old (a / 64) place }
        requires within { a % 64 + 4 ≤ 64 }
        ensures is { FourAre result a self.old self.new }
        ensures room { spare self.new.map ≡ spare self.old.map }
        ensures place { IsPlace self.new (a / 64) place }
    {
        let (_, line) = self.map.pair_mut(place);
        line.look_four(a % 64)
    }

    /// Puts a byte in that line.
    #[inline(always)]
    pub fn write(&mut self, place: usize, a: u32, v: u8)
        requires { IsPlace self.old (a / 64) place }
        ensures puts { IsPutAt a v (put_at self.old) (put_at self.new) }
        ensures reads { (q : ℕ) → is_read self.new q ≡ is_read self.old q }
        ensures room { spare self.new.map ≡ spare self.old.map }
        ensures place { IsPlace self.new (a / 64) place }
    {
        let (_, line) = self.map.pair_mut(place);
        line.write(a % 64, v)
    }

    /// Puts four bytes that lie in that line.
    #[inline(always)]
    pub fn write_four(&mut self, place: usize, a: u32, bytes: [u8; 4])
        requires place { IsPlace self.old (a / 64) place }
        requires within { a % 64 + 4 ≤ 64 }
        ensures puts { ArePutFrom a bytes (put_at self.old) (put_at self.new) }
        ensures reads { (q : ℕ) → is_read self.new q ≡ is_read self.old q }
        ensures room { spare self.new.map ≡ spare self.old.map }
    {
        let (_, line) = self.map.pair_mut(place);
        let i = a % 64;
        line.write(i, bytes[0]);
        line.write(i + 1, bytes[1]);
        line.write(i + 2, bytes[2]);
        line.write(i + 3, bytes[3]);
    }

    /// The least address whose byte is recorded and is another one in the second memory. Takes no memory.
    pub fn first_other<M: Memory>(&self, base: &M, mem: &M) -> Option<u32>
        ensures first { IsFirstChanged (2 ^ 32) (is_read self.now) (M.at base.now) (M.at mem.now) result }
        ensures recorded { IfSome result (λ a. is_read self.now a ≡ true) }
        ensures none { IfNone result (AreUnchanged (is_read self.now) (M.at base.now) (M.at mem.now)) }
    {
        let mut least = None;
        for place in 0..self.map.len() {
            if let Some((number, line)) = self.map.get_index(place) {
                if *number < 0x400_0000 {
                    least = line.least_other(*number, base, mem, least);
                }
            }
        }
        least
    }

    /// Puts all that was put. Without memory for it some may be put.
    pub fn put_into<M: Memory>(&self, alloc: Global, mem: &mut M) -> Result<(), AllocError>
        ensures { OnOk result (AreLaid (put_at self.now) (M.at mem.old) (M.at mem.new)) }
    {
        for place in 0..self.map.len() {
            if let Some((number, line)) = self.map.get_index(place) {
                if *number < 0x400_0000 {
                    line.put_into(*number, alloc, mem)?;
                }
            }
        }
        Ok(())
    }
}

// One of 16 kinds of numbers: the upper bits of a product by 2³² over the golden ratio, which spreads neighbours, and
// numbers that differ by a power of two.
#[inline(always)]
fn kind(n: u32) -> usize
    ensures { result < 16 }
{
    (n.wrapping_mul(0x9E37_79B1) >> 28) as usize
}
