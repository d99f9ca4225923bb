//! The lines of a task, with room for more: only making room takes memory.
ghost use Rattle.std.specs.Prelude.{◌≡◌, ℕ, ◌+◌, ◌<◌, ◌≤◌, ◌/◌, ◌%◌, OnOk, max, length};
ghost use Rattle.indexmap.specs.IndexMap.{spare};
ghost use Rattle.layers.specs.Lines.{IsPlace, IsSame, is_read, put_at, ArePutFrom};

use crate::lines::Lines;
use std::alloc::{AllocError, Global};

/// Lines, and how many more a task may touch by reads and by puts with no want of memory.
#[derive(Drop)]
pub struct Record {
    pub lines: Lines,
    pub reads: u32,
    pub writes: u32,
    ghost fits: { reads + writes ≤ spare lines.map },
}

impl Record {
    /// Makes room for so many lines by reads and by puts. Without memory for them the room stays.
    #[inline(never)]
    pub fn make_room(&mut self, reads: u32, writes: u32) -> Result<(), AllocError>
        ensures same { IsSame self.old.lines self.new.lines }
        ensures reads { OnOk result (reads ≤ self.new.reads) }
        ensures writes { OnOk result (writes ≤ self.new.writes) }
        ensures more_reads { self.old.reads ≤ self.new.reads }
        ensures more_writes { self.old.writes ≤ self.new.writes }
    {
        let reads = self.reads.max(reads);
        let writes = self.writes.max(writes);
        self.lines.reserve(reads as usize + writes as usize)?;
        self.reads = reads;
        self.writes = writes;
        Ok(())
    }

    // The same where the place isn't remembered.
    #[inline(never)]
    fn bring_to_read(&mut self, a: u32) -> usize
        requires { 0 < self.old.reads }
        ensures place { IsPlace self.new.lines (a / 64) result }
        ensures same { IsSame self.old.lines self.new.lines }
        ensures reads { self.old.reads ≤ self.new.reads + 1 }
        ensures writes { self.new.writes ≡ self.old.writes }
    {
        match self.lines.find(a / 64) {
            Some(place) => place,
            None => {
                self.reads -= 1;
                self.lines.add(a / 64)
            }
        }
    }

    /// The place of the line of an address, for a read.
    #[inline(always)]
    pub fn place_to_read(&mut self, a: u32) -> usize
        requires { 0 < self.old.reads }
        ensures place { IsPlace self.new.lines (a / 64) result }
        ensures same { IsSame self.old.lines self.new.lines }
        ensures reads { self.old.reads ≤ self.new.reads + 1 }
        ensures writes { self.new.writes ≡ self.old.writes }
    {
        match self.lines.nearby(a / 64) {
            Some(place) => place,
            None => self.bring_to_read(a),
        }
    }

    // The same where the place isn't remembered.
    #[inline(never)]
    fn bring_to_write(&mut self, a: u32) -> usize
        requires { 0 < self.old.writes }
        ensures place { IsPlace self.new.lines (a / 64) result }
        ensures same { IsSame self.old.lines self.new.lines }
        ensures writes { self.old.writes ≤ self.new.writes + 1 }
        ensures reads { self.new.reads ≡ self.old.reads }
    {
        match self.lines.find(a / 64) {
            Some(place) => place,
            None => {
                self.writes -= 1;
                self.lines.add(a / 64)
            }
        }
    }

    /// The place of the line of an address, for a put.
    #[inline(always)]
    pub fn place_to_write(&mut self, a: u32) -> usize
        requires { 0 < self.old.writes }
        ensures place { IsPlace self.new.lines (a / 64) result }
        ensures same { IsSame self.old.lines self.new.lines }
        ensures writes { self.old.writes ≤ self.new.writes + 1 }
        ensures reads { self.new.reads ≡ self.old.reads }
    {
        match self.lines.nearby(a / 64) {
            Some(place) => place,
            None => self.bring_to_write(a),
        }
    }

    // Bytes from an address on, each in its line. After the last address comes 0.
    #[inline(never)]
    fn put_each(&mut self, a: u32, bytes: &[u8])
        requires { length bytes.now ≤ self.old.writes }
        ensures puts { ArePutFrom a bytes.now (put_at self.old.lines) (put_at self.new.lines) }
        ensures marks { (q : ℕ) → is_read self.new.lines q ≡ is_read self.old.lines q }
        ensures writes { self.old.writes ≤ self.new.writes + length bytes.now }
        ensures reads { self.new.reads ≡ self.old.reads }
    {
        let mut to = a;
        for v in bytes {
            let place = self.place_to_write(to);
            self.lines.write(place, to, *v);
            to = to.wrapping_add(1);
        }
    }

    // Bytes that lie in the line at a place.
    #[inline(always)]
    fn put_there(&mut self, place: usize, a: u32, bytes: &[u8])
        requires place { IsPlace self.old.lines (a / 64) place }
        requires within { a % 64 + length bytes.now ≤ 64 }
        ensures puts { ArePutFrom a bytes.now (put_at self.old.lines) (put_at self.new.lines) }
        ensures marks { (q : ℕ) → is_read self.new.lines q ≡ is_read self.old.lines q }
        ensures writes { self.new.writes ≡ self.old.writes }
        ensures reads { self.new.reads ≡ self.old.reads }
    {
        let mut to = a;
        for v in bytes {
            self.lines.write(place, to, *v);
            to = to.wrapping_add(1);
        }
    }

    /// Puts bytes from an address on, those that lie in one line with one look for it. After the last address comes 0.
    #[inline(always)]
    pub fn put_all(&mut self, a: u32, bytes: &[u8])
        requires { length bytes.now ≤ self.old.writes }
        ensures puts { ArePutFrom a bytes.now (put_at self.old.lines) (put_at self.new.lines) }
        ensures marks { (q : ℕ) → is_read self.new.lines q ≡ is_read self.old.lines q }
        ensures writes { self.old.writes ≤ self.new.writes + length bytes.now }
        ensures reads { self.new.reads ≡ self.old.reads }
    {
        if bytes.is_empty() || (a % 64) as usize + bytes.len() > 64 {
            return self.put_each(a, bytes);
        }
        let place = self.place_to_write(a);
        self.put_there(place, a, bytes);
    }

    /// The same for four bytes, which are put without a loop where they lie in one line.
    #[inline(always)]
    pub fn put_four(&mut self, a: u32, bytes: [u8; 4])
        requires { 4 ≤ self.old.writes }
        ensures puts { ArePutFrom a bytes (put_at self.old.lines) (put_at self.new.lines) }
        ensures marks { (q : ℕ) → is_read self.new.lines q ≡ is_read self.old.lines q }
        ensures writes { self.old.writes ≤ self.new.writes + 4 }
        ensures reads { self.new.reads ≡ self.old.reads }
    {
        if a % 64 > 60 {
            return self.put_each(a, &bytes);
        }
        let place = self.place_to_write(a);
        self.lines.write_four(place, a, bytes);
    }
}
