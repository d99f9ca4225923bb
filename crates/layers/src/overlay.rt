//! Registers and bytes over a checkpoint that stays: what was put, and marks of what was read.
ghost use Rattle.std.specs.Prelude.{◌≡◌, ℕ, ◌<◌, ◌≤◌, ◌+◌, ◌*◌, ◌^◌, OnOk, OnErr, IsOk, IfSome, IfNone, None, true, slice_index, ◌||◌, nat_eq};
ghost use Rattle.layers.specs.Marks.{has};
ghost use Rattle.cells.specs.Differ.{differ};
ghost use Rattle.rv_semantics.specs.Values.{plain_value};
ghost use Rattle.layers.specs.Lines.{AreLaid, IsFirstChanged, AreUnchanged};
ghost use Rattle.layers.specs.Layered.{seen_over, values_of, begun, put_reg, AreMet, IsLaid};

use crate::line::Four;
use crate::lines::Lines;
use crate::record::Record;
use cells::{Cell, Differ};
use rv_step::{Arch, Memory, View};
use std::alloc::{AllocError, Global};

/// A recording view over a checkpoint: a pc, registers and a memory, which stay as they were.
///
/// Registers and bytes are marked by masks, those of bytes in lines of 64. What is recorded is read
/// off the checkpoint. Only making room needs memory: it is for the lines that are touched then.
#[derive(Drop)]
pub struct Overlay<M: Memory> {
    start: u32,
    regs: [u32; 32],
    mem: M,
    read_regs: u32,
    put_regs: u32,
    set: [u32; 32],
    kept: Record,
}

impl<M: Memory> Overlay<M> {
    /// A view of this checkpoint, with only its pc recorded and nothing put.
    pub fn begin(alloc: Global, pc: u32, regs: [u32; 32], mem: M) -> Overlay<M>
        ensures { seen_over M.at result ≡ begun (plain_value pc regs (M.at mem)) }
    {
        Overlay {
            start: pc,
            regs,
            mem,
            read_regs: 0,
            put_regs: 0,
            set: [0; 32],
            kept: Record {
                lines: Lines::new(alloc),
                reads: 0,
                writes: 0,
            },
        }
    }

    /// The first recorded cell for which the state holds another value, with both values.
    ///
    /// First comes the pc, then the registers by number, then the bytes by address. With None no
    /// recorded cell differs. Takes no memory.
    pub fn compare(&self, a: &Arch<M>) -> Option<Differ>
        ensures first { result ≡ differ (seen_over M.at self.now).recorded (values_of M.at a.now) }
        ensures none { IfNone result (AreMet (seen_over M.at self.now).recorded (values_of M.at a.now)) }
    {
        if self.start != a.pc {
            return Some(Differ {
                cell: Cell::Pc,
                predicted: self.start,
                found: a.pc,
            });
        }
        if let Some(r) = first_register(self.read_regs, &self.regs, &a.regs) {
            return Some(Differ {
                cell: Cell::Reg(r),
                predicted: self.regs[r as usize],
                found: a.regs[r as usize],
            });
        }
        match self.kept.lines.first_other(&self.mem, &a.mem) {
            Some(at) => Some(Differ {
                cell: Cell::Byte(at),
                predicted: u32::from(self.mem.get(at)),
                found: u32::from(a.mem.get(at)),
            }),
            None => None,
        }
    }

    /// Gives the state this pc, and what was put in this view. All else in the state stays.
    ///
    /// # Errors
    ///
    /// Want of memory. The state is then as it was.
    pub fn apply(&self, alloc: Global, pc: u32, a: &mut Arch<M>) -> Result<(), AllocError>
        ensures ok { OnOk result (IsLaid M.at pc (seen_over M.at self.now) a.old a.new) }
        ensures err { OnErr result (values_of M.at a.new ≡ values_of M.at a.old) }
    {
        let mut mem = a.mem.snapshot(alloc)?;
        self.kept.lines.put_into(alloc, &mut mem)?;
        a.mem = mem;
        a.pc = pc;
        lay_registers(self.put_regs, &self.set, &mut a.regs);
        Ok(())
    }
}

// The first register that is marked and has another value in the second array.
fn first_register(marks: u32, base: &[u32; 32], regs: &[u32; 32]) -> Option<u8>
    ensures first { IsFirstChanged 32 (has marks) (slice_index base.now) (slice_index regs.now) result }
    ensures within { IfSome result (λ r. r < 32) }
    ensures recorded { IfSome result (λ r. has marks r ≡ true) }
    ensures none { IfNone result (AreUnchanged (has marks) (slice_index base.now) (slice_index regs.now)) }
{
    for i in 0..32 {
        if has_register(marks, i as u8) && base[i] != regs[i] {
            return Some(i as u8);
        }
    }
    None
}

// Sets the registers that are marked.
fn lay_registers(marks: u32, set: &[u32; 32], regs: &mut [u32; 32])
    ensures { AreLaid (put_reg marks (slice_index set.now)) (slice_index regs.old) (slice_index regs.new) }
{
    for i in 0..32 {
        if has_register(marks, i as u8) {
            regs[i] = set[i];
        }
    }
}

impl<M: Memory> View for Overlay<M> {
    ghost use Rattle.layers.specs.Layered.{seen_over};

    ghost seen = { seen_over M.at };

    ghost read_room = { λ v. v.kept.reads };

    ghost write_room = { λ v. v.kept.writes };

    #[inline(always)]
    fn ready(&mut self, _alloc: Global) -> Result<(), AllocError> {
        self.make_room(10, 5)
    }

    #[inline(always)]
    fn reg(&mut self, r: u8) -> u32 {
        self.register(r)
    }

    #[inline(always)]
    fn set_reg(&mut self, r: u8, v: u32) {
        if r != 0 {
            self.put_regs = with_register(self.put_regs, r);
            self.set[r as usize] = v;
        }
    }

    #[inline(always)]
    fn byte(&mut self, a: u32) -> u8 {
        let place = self.kept.place_to_read(a);
        match self.kept.lines.look(place, a) {
            Some(v) => v,
            None => self.mem.get(a),
        }
    }

    #[inline(always)]
    fn fetch(&mut self, a: u32) -> u32 {
        match self.kept.lines.look_near(a) {
            Four::Checkpoint => self.mem.fetch(a),
            Four::Put(w) => w,
            Four::Both => self.word_in_line(a),
        }
    }

    #[inline(always)]
    fn word(&mut self, a: u32) -> u32 {
        if a % 64 > 60 {
            return self.word_by_bytes(a);
        }
        match self.kept.lines.look_near(a) {
            Four::Checkpoint => self.mem.load_word(a),
            Four::Put(w) => w,
            Four::Both => self.word_in_line(a),
        }
    }

    #[inline(always)]
    fn put(&mut self, _alloc: Global, a: u32, bytes: &[u8]) -> Result<(), AllocError> {
        self.kept.put_all(a, bytes);
        Ok(())
    }

    #[inline(always)]
    fn put_word(&mut self, _alloc: Global, a: u32, v: u32) -> Result<(), AllocError> {
        self.kept.put_four(a, v.to_le_bytes());
        Ok(())
    }
}

impl<M: Memory> Overlay<M> {
    ghost use Rattle.std.specs.Prelude.{◌/◌, ◌%◌};
    ghost use Rattle.cells.specs.declared.Cell.TheVariants.{Byte};
    ghost use Rattle.cells.specs.Bytes.{byte_cells, number};
    ghost use Rattle.cells.specs.Seen.{look, read_cells};
    ghost use Rattle.layers.specs.Lines.{IsPlace};
    ghost use Rattle.rv_semantics.specs.Values.{bytes_of, register_value, register_cell};

    /// Makes room for so many bytes that are read and so many that are put. Where it is there already this is done.
    #[inline(always)]
    pub fn make_room(&mut self, reads: u32, writes: u32) -> Result<(), AllocError>
        ensures seen { seen_over M.at self.new ≡ seen_over M.at self.old }
        ensures sure { reads ≤ self.old.kept.reads → writes ≤ self.old.kept.writes → IsOk result }
        ensures reads { OnOk result (reads ≤ self.new.kept.reads) }
        ensures writes { OnOk result (writes ≤ self.new.kept.writes) }
        ensures read_room { self.old.kept.reads ≤ self.new.kept.reads }
        ensures write_room { self.old.kept.writes ≤ self.new.kept.writes }
    {
        if self.kept.reads >= reads && self.kept.writes >= writes {
            return Ok(());
        }
        self.kept.make_room(reads, writes)
    }

    /// The value of register `r`, below 32, which takes no room: there is a mark for each register.
    #[inline(always)]
    pub fn register(&mut self, r: u8) -> u32
        requires { r < 32 }
        ensures value { result ≡ register_value r (seen_over M.at self.old).value }
        ensures seen { seen_over M.at self.new ≡ read_cells (register_cell r) (seen_over M.at self.old) }
        ensures room { self.new.kept ≡ self.old.kept }
    {
        if r == 0 {
            return 0;
        }
        if has_register(self.put_regs, r) {
            return self.set[r as usize];
        }
        self.read_regs = with_register(self.read_regs, r);
        self.regs[r as usize]
    }

    // A word that lies in one line, which may have to be brought.
    #[inline(never)]
    fn word_in_line(&mut self, a: u32) -> u32
        requires room { 4 ≤ self.old.kept.reads }
        requires within { a % 64 + 4 ≤ 64 }
        ensures value { result ≡ number 4 a (bytes_of (seen_over M.at self.old).value) }
        ensures seen { seen_over M.at self.new ≡ read_cells (byte_cells 4 a) (seen_over M.at self.old) }
        ensures read_room { self.old.kept.reads ≤ self.new.kept.reads + 4 }
        ensures write_room { self.old.kept.writes ≤ self.new.kept.writes }
    {
        let place = self.kept.place_to_read(a);
        self.word_there(place, a)
    }

    // A word of the line at a place: where none or all of its bytes were put it is read at once.
    #[inline(always)]
    fn word_there(&mut self, place: usize, a: u32) -> u32
        requires place { IsPlace self.old.kept.lines (a / 64) place }
        requires within { a % 64 + 4 ≤ 64 }
        ensures value { result ≡ number 4 a (bytes_of (seen_over M.at self.old).value) }
        ensures seen { seen_over M.at self.new ≡ read_cells (byte_cells 4 a) (seen_over M.at self.old) }
        ensures read_room { self.new.kept.reads ≡ self.old.kept.reads }
        ensures write_room { self.new.kept.writes ≡ self.old.kept.writes }
    {
        match self.kept.lines.look_four(place, a) {
            Four::Checkpoint => self.mem.load_word(a),
            Four::Put(w) => w,
            Four::Both => self.mixed_word(place, a),
        }
    }

    // A word of the line at a place, byte by byte.
    fn mixed_word(&mut self, place: usize, a: u32) -> u32
        requires place { IsPlace self.old.kept.lines (a / 64) place }
        requires within { a % 64 + 4 ≤ 64 }
        ensures value { result ≡ number 4 a (bytes_of (seen_over M.at self.old).value) }
        ensures seen { seen_over M.at self.new ≡ read_cells (byte_cells 4 a) (seen_over M.at self.old) }
        ensures read_room { self.new.kept.reads ≡ self.old.kept.reads }
        ensures write_room { self.new.kept.writes ≡ self.old.kept.writes }
    {
        let first = self.byte_there(place, a);
        let second = self.byte_there(place, a.wrapping_add(1));
        let third = self.byte_there(place, a.wrapping_add(2));
        let last = self.byte_there(place, a.wrapping_add(3));
        spell_four(first, second, third, last)
    }

    // A byte of the line at a place.
    #[inline(always)]
    fn byte_there(&mut self, place: usize, a: u32) -> u8
        requires { IsPlace self.old.kept.lines (a / 64) place }
        ensures value { result ≡ (seen_over M.at self.old).value (Byte a) }
        ensures seen { seen_over M.at self.new ≡ look (Byte a) (seen_over M.at self.old) }
        ensures place { IsPlace self.new.kept.lines (a / 64) place }
        ensures read_room { self.new.kept.reads ≡ self.old.kept.reads }
        ensures write_room { self.new.kept.writes ≡ self.old.kept.writes }
    {
        match self.kept.lines.look(place, a) {
            Some(v) => v,
            None => self.mem.get(a),
        }
    }

    // A word that may lie in two lines.
    #[inline(never)]
    fn word_by_bytes(&mut self, a: u32) -> u32
        requires { 4 ≤ self.old.kept.reads }
        ensures value { result ≡ number 4 a (bytes_of (seen_over M.at self.old).value) }
        ensures seen { seen_over M.at self.new ≡ read_cells (byte_cells 4 a) (seen_over M.at self.old) }
        ensures read_room { self.old.kept.reads ≤ self.new.kept.reads + 4 }
        ensures write_room { self.old.kept.writes ≤ self.new.kept.writes }
    {
        let first = self.byte(a);
        let second = self.byte(a.wrapping_add(1));
        let third = self.byte(a.wrapping_add(2));
        let last = self.byte(a.wrapping_add(3));
        spell_four(first, second, third, last)
    }
}

// The number that four bytes spell, the lowest first.
fn spell_four(first: u8, second: u8, third: u8, fourth: u8) -> u32
    ensures { result ≡ first + 2 ^ 8 * (second + 2 ^ 8 * (third + 2 ^ 8 * fourth)) }
{
    u32::from_le_bytes([first, second, third, fourth])
}

// Whether a register is marked.
#[inline(always)]
fn has_register(marks: u32, r: u8) -> bool
    requires { r < 32 }
    ensures { result ≡ has marks r }
{
    marks >> r & 1 == 1
}

// The marks with a register.
#[inline(always)]
fn with_register(marks: u32, r: u8) -> u32
    requires { r < 32 }
    ensures { (j : ℕ) → has result j ≡ (has marks j || nat_eq r j) }
{
    marks | 1 << r
}
