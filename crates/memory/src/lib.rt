//! The memory of a guest: a byte at each 32-bit address, all of them 0 at first.
#![tactic(auto)]

ghost use Rattle.std.specs.Prelude.{◌≡◌, ℕ, ◌≤◌, ◌<◌, ◌^◌, ◌/◌, ◌%◌, length, IfOk, OnOk, OnErr};
ghost use Rattle.std.specs.Bool.{OnTrue};
ghost use Rattle.std.specs.Int.{w16, w32, to_le_bytes};
ghost use Rattle.cells.specs.Bytes.{number, after_puts};

mod directory;
mod page;
mod plain;

pub use plain::PlainMemory;
use std::alloc::{AllocError, Global};

/// A byte at each address. Addresses wrap: after 0xFFFFFFFF comes 0.
///
/// A memory means the function that gives the byte at each address, which is 0 where none was put. The calls
/// for two and four bytes mean their gets or puts byte by byte, the lowest byte first; a memory
/// may do them at once.
pub trait Memory: Sized + Drop {
    ghost at: { Self → ℕ → ℕ };

    /// A memory of zeros.
    fn empty(alloc: Global) -> Result<Self, AllocError>
        ensures { IfOk result (λ m. at m ≡ (λ _. 0)) };

    /// The byte at `a`. Takes no memory.
    fn get(&self, a: u32) -> u8
        ensures { result ≡ at self.now a };

    /// The number that the two bytes from `a` on spell.
    fn half(&self, a: u32) -> u16
        ensures { result ≡ number 2 a (at self.now) }
    {
        u16::from_le_bytes([self.get(a), self.get(a.wrapping_add(1))])
    }

    /// The number that the four bytes from `a` on spell.
    fn word(&self, a: u32) -> u32
        ensures { result ≡ number 4 a (at self.now) }
    {
        u32::from_le_bytes([
            self.get(a),
            self.get(a.wrapping_add(1)),
            self.get(a.wrapping_add(2)),
            self.get(a.wrapping_add(3)),
        ])
    }

    /// The word at `a`, a multiple of 4, as code: the memory may remember where it lies.
    fn fetch(&mut self, a: u32) -> u32
        requires { a % 4 ≡ 0 }
        ensures value { result ≡ number 4 a (at self.old) }
        ensures stays { at self.new ≡ at self.old }
    {
        self.word(a)
    }

    /// The number that the four bytes from `a` on spell, as data: the memory may remember where they lie. Takes no
    /// memory that could be refused.
    #[inline(always)]
    fn load_word(&mut self, a: u32) -> u32
        ensures value { result ≡ number 4 a (at self.old) }
        ensures stays { at self.new ≡ at self.old }
    {
        self.word(a)
    }

    /// Puts at most 65,536 bytes from `a` on, all of them or, where there is no memory for them, none.
    fn put(&mut self, alloc: Global, a: u32, bytes: &[u8]) -> Result<(), AllocError>
        requires { length bytes.now ≤ 65536 }
        ensures ok { OnOk result (at self.new ≡ after_puts (at self.old) a bytes.now) }
        ensures err { OnErr result (at self.new ≡ at self.old) };

    /// Puts the two bytes of `v` from `a` on, the low one first.
    #[inline(always)]
    fn put_half(&mut self, alloc: Global, a: u32, v: u16) -> Result<(), AllocError>
        ensures ok { OnOk result (at self.new ≡ after_puts (at self.old) a (to_le_bytes w16 v)) }
        ensures err { OnErr result (at self.new ≡ at self.old) }
    {
        self.put(alloc, a, &v.to_le_bytes())
    }

    /// Puts the four bytes of `v` from `a` on, the lowest first.
    #[inline(always)]
    fn put_word(&mut self, alloc: Global, a: u32, v: u32) -> Result<(), AllocError>
        ensures ok { OnOk result (at self.new ≡ after_puts (at self.old) a (to_le_bytes w32 v)) }
        ensures err { OnErr result (at self.new ≡ at self.old) }
    {
        self.put(alloc, a, &v.to_le_bytes())
    }

    /// Whether the 64 bytes from 64 · `number` on are surely the same in another memory. A memory that would have to look at each
    /// of them may answer no. Takes no memory.
    fn has_same_line(&self, other: &Self, number: u32) -> bool
        requires { number < 2 ^ 26 }
        ensures { OnTrue result ((q : ℕ) → q / 64 ≡ number → at self.now q ≡ at other.now q) };

    /// A memory with the same bytes, which stands apart: a put to either one leaves the other.
    fn snapshot(&self, alloc: Global) -> Result<Self, AllocError>
        ensures { IfOk result (λ m. at m ≡ at self.now) };
}
