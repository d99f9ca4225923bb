//! A task's view: what it reads and puts over its checkpoint, and what it prints.
ghost use Rattle.std.specs.Prelude.{◌≡◌, ◌≤◌, ◌<◌, ◌+◌, ◌%◌, ◌++◌, [], ◌∷◌, OnOk, OnErr, IsOk, IfOk, IfNone, true, vec_len, vec_capacity};
ghost use Rattle.cells.specs.Bytes.{byte_cells, number};
ghost use Rattle.cells.specs.Differ.{differ};
ghost use Rattle.cells.specs.Seen.{read_cells};
ghost use Rattle.rv_semantics.specs.Values.{plain_value, bytes_of};
ghost use Rattle.rv_semantics.specs.Prints.{is_short_write, arguments};
ghost use Rattle.layers.specs.Layered.{seen_of, output_of, values_of, argument_values, bytes_seen, HasRoom, KeepsRoom, KeepsRoomBut, HasPrinted, IsStepped, AreMet, IsLaid, begun, after_write, written_bytes};

use crate::overlay::Overlay;
use cells::Differ;
use rv_semantics::Flow;
use rv_step::{Arch, Memory, View};
use std::alloc::{AllocError, Global};

/// A recording view over a checkpoint: a pc, registers and a memory, which stay as they were.
///
/// It shows the checkpoint with what was put since. Its record is Pc with the checkpoint's pc, and
/// each cell that was read before it was put, with the value that it had there. What the task has
/// printed is kept beside it, and stays in every call but [`print`](TaskView::print).
///
/// Only making room needs memory: [`ready`](View::ready) makes what one step may take, and
/// [`ready_call`](TaskView::ready_call) what a step may take that prints.
#[derive(Drop)]
pub struct TaskView<M: Memory> {
    cells: Overlay<M>,
    output: Vec<u8>,
}

impl<M: Memory> TaskView<M> {
    /// A view of this checkpoint, with only its pc recorded, nothing put and nothing printed.
    ///
    /// # Errors
    ///
    /// Want of memory.
    pub fn begin(alloc: Global, pc: u32, regs: [u32; 32], mem: M) -> Result<TaskView<M>, AllocError>
        ensures seen { IfOk result (λ view. seen_of M.at view ≡ begun (plain_value pc regs (M.at mem))) }
        ensures output { IfOk result (λ view. output_of view ≡ []) }
    {
        Ok(TaskView {
            cells: Overlay::begin(alloc, pc, regs, mem),
            output: Vec::new(alloc),
        })
    }

    /// What was printed. Takes no memory.
    pub fn output(&self) -> &[u8]
        ensures { result.now ≡ output_of self.now }
    {
        &self.output
    }

    /// The first recorded cell for which the state holds another value, with both values.
    ///
    /// First comes the pc, then the registers by number, then the bytes by address. With None no
    /// recorded cell differs. Takes no memory.
    pub fn compare(&self, a: &Arch<M>) -> Option<Differ>
        ensures first { result ≡ differ (seen_of M.at self.now).recorded (values_of M.at a.now) }
        ensures none { IfNone result (AreMet (seen_of M.at self.now).recorded (values_of M.at a.now)) }
    {
        self.cells.compare(a)
    }

    /// Gives the state this pc, and what was put in this view, and appends what was printed to the
    /// output. All else in the state stays.
    ///
    /// # Errors
    ///
    /// Want of memory. The state and the output are then as they were.
    pub fn apply(
        &self,
        alloc: Global,
        pc: u32,
        a: &mut Arch<M>,
        out: &mut Vec<u8>,
    ) -> Result<(), AllocError>
        ensures state { OnOk result (IsLaid M.at pc (seen_of M.at self.now) a.old a.new) }
        ensures output { OnOk result (out.new.items ≡ out.old.items ++ output_of self.now) }
        ensures err_state { OnErr result (values_of M.at a.new ≡ values_of M.at a.old) }
        ensures err_output { OnErr result (out.new.items ≡ out.old.items) }
    {
        out.reserve(self.output.len())?;
        self.cells.apply(alloc, pc, a)?;
        match out.extend_from_slice(&self.output) {
            Ok(()) => {}
            Err(_) => {}
        }
        Ok(())
    }
}

/// Steps, which leave the output, and the call that adds to it.
impl<M: Memory> TaskView<M> {
    /// Fetches the word at `pc`, a multiple of 4, and does its instruction, as [`rv_step::step`] says.
    #[inline(always)]
    pub fn step(&mut self, alloc: Global, pc: u32) -> Result<Flow, AllocError>
        requires aligned { pc % 4 ≡ 0 }
        requires room { HasRoom self.old 10 5 0 }
        ensures sure { IsOk result }
        ensures ok { IfOk result (IsStepped pc (seen_of M.at self.old) (seen_of M.at self.new)) }
        ensures output { output_of self.new ≡ output_of self.old }
    {
        rv_step::step(alloc, &mut self.cells, pc)
    }

    /// Makes room for a step that may be a short write: four bytes that are fetched, four registers and 256 bytes that are shown.
    ///
    /// # Errors
    ///
    /// Want of memory. The view is then as it was.
    #[inline(always)]
    pub fn ready_call(&mut self) -> Result<(), AllocError>
        ensures ok { OnOk result (HasRoom self.new 264 5 256) }
        ensures seen { seen_of M.at self.new ≡ seen_of M.at self.old }
        ensures output { output_of self.new ≡ output_of self.old }
    {
        self.make_room(264, 5, 256)
    }

    // Makes room for so many bytes that are read, put and printed.
    #[inline(always)]
    fn make_room(&mut self, reads: u32, writes: u32, bytes: usize) -> Result<(), AllocError>
        ensures sure { HasRoom self.old reads writes bytes → IsOk result }
        ensures ok { OnOk result (HasRoom self.new reads writes bytes) }
        ensures seen { seen_of M.at self.new ≡ seen_of M.at self.old }
        ensures output { output_of self.new ≡ output_of self.old }
    {
        self.cells.make_room(reads, writes)?;
        self.output.reserve(bytes)
    }

    /// The registers by which a call goes, x10, x11, x12 and x17, which are recorded.
    ///
    /// # Errors
    ///
    /// None: each register has a mark, so that this takes no memory.
    pub fn call_args(&mut self) -> Result<[u32; 4], AllocError>
        ensures sure { IsOk result }
        ensures value { IfOk result (λ args. args ≡ argument_values (seen_of M.at self.old)) }
        ensures seen { seen_of M.at self.new ≡ read_cells arguments (seen_of M.at self.old) }
        ensures output { output_of self.new ≡ output_of self.old }
        ensures room { KeepsRoom self.old self.new }
    {
        let descriptor = self.cells.register(10);
        let from = self.cells.register(11);
        let count = self.cells.register(12);
        let number = self.cells.register(17);
        Ok([descriptor, from, count, number])
    }

    /// Does a short write: appends the x12 bytes from x11 on to the output, which records them, and
    /// puts x12 into x10.
    ///
    /// It makes the room that is missing, and answers Ok in what [`ready_call`](TaskView::ready_call) has made.
    ///
    /// # Errors
    ///
    /// Want of memory. The view is then as it was.
    pub fn print(&mut self) -> Result<(), AllocError>
        requires { is_short_write (seen_of M.at self.old).value ≡ true }
        ensures sure { HasRoom self.old 256 1 256 → IsOk result }
        ensures seen { OnOk result (seen_of M.at self.new ≡ after_write (seen_of M.at self.old)) }
        ensures output { OnOk result (HasPrinted (written_bytes (seen_of M.at self.old)) self.old self.new) }
        ensures err_seen { OnErr result (seen_of M.at self.new ≡ seen_of M.at self.old) }
        ensures err_output { OnErr result (output_of self.new ≡ output_of self.old) }
    {
        self.make_room(256, 1, 256)?;
        let from = self.cells.register(11);
        let count = self.cells.register(12);
        self.show(from, count);
        self.cells.set_reg(10, count);
        Ok(())
    }

    // Appends bytes to the output, which records them. After the last address comes 0.
    fn show(&mut self, from: u32, count: u32)
        requires { HasRoom self.old count 0 count }
        ensures seen { seen_of M.at self.new ≡ read_cells (byte_cells count from) (seen_of M.at self.old) }
        ensures output { HasPrinted (bytes_seen count from (seen_of M.at self.old)) self.old self.new }
        ensures room { self.old.cells.kept.writes ≤ self.new.cells.kept.writes }
    {
        for i in 0..count {
            let v = self.cells.byte(from.wrapping_add(i));
            append(&mut self.output, v);
        }
    }
}

// Appends a byte, in the room that is there.
#[inline(always)]
fn append(output: &mut Vec<u8>, v: u8)
    requires { vec_len output.old < vec_capacity output.old }
    ensures items { output.new.items ≡ output.old.items ++ v ∷ [] }
    ensures len { vec_len output.new ≡ vec_len output.old + 1 }
    ensures capacity { vec_capacity output.old ≤ vec_capacity output.new }
{
    match output.push(v) {
        Ok(()) => {}
        Err(_) => {}
    }
}

impl<M: Memory> View for TaskView<M> {
    ghost use Rattle.layers.specs.Layered.{seen_of};

    ghost seen = { seen_of M.at };

    ghost read_room = { λ v. v.cells.kept.reads };

    ghost write_room = { λ v. v.cells.kept.writes };

    #[inline(always)]
    fn ready(&mut self, alloc: Global) -> Result<(), AllocError>
        ensures seen { seen_of M.at self.new ≡ seen_of M.at self.old }
        ensures ok { OnOk result (HasRoom self.new 10 5 0) }
        ensures read_room { self.old.cells.kept.reads ≤ self.new.cells.kept.reads }
        ensures write_room { self.old.cells.kept.writes ≤ self.new.cells.kept.writes }
        ensures output { output_of self.new ≡ output_of self.old }
    {
        self.cells.ready(alloc)
    }

    #[inline(always)]
    fn reg(&mut self, r: u8) -> u32 {
        self.cells.reg(r)
    }

    #[inline(always)]
    fn set_reg(&mut self, r: u8, v: u32) {
        self.cells.set_reg(r, v)
    }

    #[inline(always)]
    fn byte(&mut self, a: u32) -> u8 {
        self.cells.byte(a)
    }

    #[inline(always)]
    fn fetch(&mut self, a: u32) -> u32
        requires aligned { a % 4 ≡ 0 }
        requires room { 4 ≤ self.old.cells.kept.reads }
        ensures value { result ≡ number 4 a (bytes_of (seen_of M.at self.old).value) }
        ensures seen { seen_of M.at self.new ≡ read_cells (byte_cells 4 a) (seen_of M.at self.old) }
        ensures room { KeepsRoomBut 4 self.old self.new }
        ensures output { output_of self.new ≡ output_of self.old }
    {
        self.cells.fetch(a)
    }

    #[inline(always)]
    fn word(&mut self, a: u32) -> u32 {
        self.cells.word(a)
    }

    #[inline(always)]
    fn put(&mut self, alloc: Global, a: u32, bytes: &[u8]) -> Result<(), AllocError> {
        self.cells.put(alloc, a, bytes)
    }

    #[inline(always)]
    fn put_word(&mut self, alloc: Global, a: u32, v: u32) -> Result<(), AllocError> {
        self.cells.put_word(alloc, a, v)
    }
}
